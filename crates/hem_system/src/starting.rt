//! The state at the start.

ghost use Rattle.std.specs.Prelude.{◌≡◌, ◌<◌, ◌≤◌, length, slice_get, option_map, map, Some, IfOk};
ghost use Rattle.hem_tree.specs.Tree.{below, children_of};
ghost use Rattle.hem_work.specs.Work.{requests_of};
ghost use Rattle.hem_system.specs.State.{first_cell, first_line};
ghost use Rattle.hem_system.specs.Cells.{seen, line_of, state_of, quiet_cell};

use crate::cell::Cell;
use crate::children::children_of;
use crate::queue::Queue;
use hem_base::{LineId, List, ObjectId, OutOfMemory};
use hem_object::Local;
use hem_syntax::Protocol;
use hem_tree::Tree;
use hem_work::Work;
use std::alloc::Global;

/// An object with requests, and with no other message. It takes no memory.
fn quiet_cell(alloc: Global, local: Local, requests: Queue) -> Cell
    ensures { seen result ≡ quiet_cell local requests.messages }
{
    Cell {
        local,
        up_requests: Queue::new(alloc),
        up_responses: Queue::new(alloc),
        down: Queue::new(alloc),
        requests,
        answers: Queue::new(alloc),
    }
}

/// How many children an object has.
fn count_children(tree: &Tree, object: ObjectId) -> u8
    requires { object.0 < length tree.now }
    ensures count { result ≡ length (children_of tree.now object.0) }
    ensures few { result ≤ 8 }
{
    children_of(tree, object).len() as u8
}

/// An object at the start.
fn first_cell(
    alloc: Global,
    p: &Protocol,
    tree: &Tree,
    work: &Work,
    line: LineId,
    object: ObjectId,
) -> Result<Cell, OutOfMemory>
    requires { object.0 < length tree.now }
    ensures { IfOk result (λ cell. option_map (first_cell p.now tree.now (requests_of work.now line.0) object.0) (slice_get tree.now object.0) ≡ Some (seen cell)) }
{
    let local = Local::start(p, tree.kind(object), count_children(tree, object));
    let requests = Queue::from_slice(alloc, work.requests(object, line))?;
    Ok(quiet_cell(alloc, local, requests))
}

/// A line at the start.
fn first_line(
    alloc: Global,
    p: &Protocol,
    tree: &Tree,
    work: &Work,
    line: LineId,
) -> Result<List<Cell>, OutOfMemory>
    ensures { IfOk result (λ cells. line_of cells ≡ first_line p.now tree.now (requests_of work.now line.0)) }
{
    let mut cells = List::new(alloc);
    for object in 0..tree.objects() {
        let cell = first_cell(alloc, p, tree, work, line, ObjectId(object))?;
        cells.push(cell)?;
    }
    Ok(cells)
}

/// So many lines at the start.
pub(crate) fn first_lines(
    alloc: Global,
    p: &Protocol,
    tree: &Tree,
    work: &Work,
    count: u32,
) -> Result<List<List<Cell>>, OutOfMemory>
    ensures { IfOk result (λ lines. state_of lines ≡ map (λ l. first_line p.now tree.now (requests_of work.now l)) (below count)) }
{
    let mut lines = List::new(alloc);
    for line in 0..count {
        let cells = first_line(alloc, p, tree, work, LineId(line))?;
        lines.push(cells)?;
    }
    Ok(lines)
}
