//! The requests of each line and object.

ghost use Rattle.std.specs.Prelude.{◌≡◌, ◌++◌, ◌<◌, ◌∷◌, [], length, map, slice_index_or, All, IfOk, OnOk};
ghost use Rattle.hem_tree.specs.Tree.{below};
ghost use Rattle.hem_work.specs.Building.{table_of};
ghost use Rattle.hem_work.specs.Entries.{with_entry, with_request, own_table, IsPlaced};
ghost use Rattle.hem_work.specs.Work.{requests_of};

use crate::made::LeafRequest;
use crate::raw::RawEntry;
use crate::work::Work;
use hem_base::{LineId, List, Message, ObjectId, OutOfMemory};
use hem_text::Place;
use std::alloc::Global;

/// Puts the messages of requests at the end of a list. After an error some of them may be there.
fn append(list: &mut List<Message>, requests: &[(Message, Place)]) -> Result<(), OutOfMemory>
    ensures { OnOk result (list.new ≡ list.old ++ map (λ r. r.0) requests.now) }
{
    for request in requests {
        list.push(request.0)?;
    }
    Ok(())
}

/// Puts the requests of an entry at the end of its line's and object's. After an error some of them may be there.
fn add_entry(rows: &mut List<List<List<Message>>>, entry: &RawEntry) -> Result<(), OutOfMemory>
    requires line { entry.now.line.0 < length rows.old }
    requires object { entry.now.object.0 < length (slice_index_or rows.old entry.now.line.0 []) }
    ensures { OnOk result (rows.new ≡ with_entry rows.old entry.now) }
{
    let row = rows.at_mut(entry.line.0 as usize);
    let list = row.at_mut(entry.object.0 as usize);
    append(list, entry.requests.as_slice())
}

/// Puts a request at the end of its line's and leaf's. After an error it isn't there.
pub fn add_request(
    rows: &mut List<List<List<Message>>>,
    request: LeafRequest,
) -> Result<(), OutOfMemory>
    requires line { request.line < length rows.old }
    requires leaf { request.leaf < length (slice_index_or rows.old request.line []) }
    ensures { OnOk result (rows.new ≡ with_request rows.old request) }
{
    let row = rows.at_mut(request.line as usize);
    let list = row.at_mut(request.leaf as usize);
    list.push(request.message)
}

/// No requests of so many objects.
fn empty_row(alloc: Global, objects: u32) -> Result<List<List<Message>>, OutOfMemory>
    ensures { IfOk result (λ row. row ≡ map (λ object. []) (below objects)) }
{
    let mut row = List::new(alloc);
    while row.len() < objects as usize {
        row.push(List::new(alloc))?;
    }
    Ok(row)
}

/// No requests of so many lines and objects.
fn empty_rows(
    alloc: Global,
    lines: u32,
    objects: u32,
) -> Result<List<List<List<Message>>>, OutOfMemory>
    ensures { IfOk result (λ rows. rows ≡ table_of [] lines objects) }
{
    let mut rows = List::new(alloc);
    while rows.len() < lines as usize {
        let row = empty_row(alloc, objects)?;
        rows.push(row)?;
    }
    Ok(rows)
}

/// The requests of each line and object, by line and then by object, in the order of the text.
pub fn rows_of(
    alloc: Global,
    entries: &[RawEntry],
    lines: u32,
    objects: u32,
) -> Result<List<List<List<Message>>>, OutOfMemory>
    requires { All (IsPlaced lines objects) entries.now }
    ensures { IfOk result (λ rows. rows ≡ table_of entries.now lines objects) }
{
    let mut rows = empty_rows(alloc, lines, objects)?;
    for entry in entries {
        add_entry(&mut rows, entry)?;
    }
    Ok(rows)
}

/// A copy of messages.
fn copied(alloc: Global, messages: &[Message]) -> Result<List<Message>, OutOfMemory>
    ensures { IfOk result (λ list. list ≡ messages.now) }
{
    let mut list = List::new(alloc);
    for message in messages {
        list.push(*message)?;
    }
    Ok(list)
}

/// A copy of the requests of so many objects on a line.
fn own_row(
    alloc: Global,
    work: &Work,
    line: u32,
    objects: u32,
) -> Result<List<List<Message>>, OutOfMemory>
    ensures { IfOk result (λ row. row ≡ map (requests_of work.now line) (below objects)) }
{
    let mut row = List::new(alloc);
    for o in 0..objects {
        let list = copied(alloc, work.requests(ObjectId(o), LineId(line)))?;
        row.push(list)?;
    }
    Ok(row)
}

/// A copy of the requests of each line and so many objects.
pub fn own_rows(
    alloc: Global,
    work: &Work,
    objects: u32,
) -> Result<List<List<List<Message>>>, OutOfMemory>
    ensures { IfOk result (λ rows. rows ≡ own_table work.now objects) }
{
    let mut rows = List::new(alloc);
    for line in 0..work.lines() {
        let row = own_row(alloc, work, line, objects)?;
        rows.push(row)?;
    }
    Ok(rows)
}
