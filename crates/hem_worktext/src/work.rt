//! Works as texts.

ghost use Rattle.std.specs.Prelude.{◌≡◌, ◌<◌, ◌^◌, ◌++◌, flat_map, OnOk, IfOk, string_bytes};
ghost use Rattle.hem_print.specs.Canonical.{message_name};
ghost use Rattle.hem_worktext.specs.ReadsBack.{AreNumbers, HasNumbers, WorkTextReads};
ghost use Rattle.hem_worktext.specs.WorkText.{request_text, entry_text, entry_if_any, entries_of, head_text, objects_of, work_text};

use hem_base::{Kind, LineId, Message, MsgId, ObjectId, OutOfMemory};
use hem_output::Output;
use hem_syntax::Protocol;
use hem_work::Work;
use std::alloc::Global;

/// Appends the name of a message id.
fn write_name(output: &mut Output, p: &Protocol, id: MsgId) -> Result<(), OutOfMemory>
    ensures { OnOk result (output.new ≡ output.old ++ message_name p.now id) }
{
    match p.message_name(id) {
        Some(name) => output.name(name),
        None => Ok(()),
    }
}

/// Appends a request: the name of its id, and its value.
fn write_request(output: &mut Output, p: &Protocol, request: Message) -> Result<(), OutOfMemory>
    ensures number { request.value < 2 ^ 64 }
    ensures text { OnOk result (output.new ≡ output.old ++ request_text p.now request) }
{
    output.text(" ")?;
    write_name(output, p, request.id)?;
    output.text(" ")?;
    output.number(request.value)
}

/// Appends requests.
fn write_requests(
    output: &mut Output,
    p: &Protocol,
    requests: &[Message],
) -> Result<(), OutOfMemory>
    ensures text { OnOk result (output.new ≡ output.old ++ flat_map (request_text p.now) requests.now) }
    ensures numbers { OnOk result (AreNumbers requests.now) }
{
    for request in requests {
        write_request(output, p, *request)?;
    }
    Ok(())
}

/// Appends an entry: an object, a line and requests.
fn write_entry(
    output: &mut Output,
    p: &Protocol,
    o: u32,
    line: u32,
    requests: &[Message],
) -> Result<(), OutOfMemory>
    ensures text { OnOk result (output.new ≡ output.old ++ entry_text p.now o line requests.now) }
    ensures numbers { OnOk result (AreNumbers requests.now) }
{
    output.text("at ")?;
    output.number(u64::from(o))?;
    output.text(" line ")?;
    output.number(u64::from(line))?;
    write_requests(output, p, requests)?;
    output.end_line()
}

/// Appends the entry of an object and a line, unless there are no requests.
fn write_entry_if_any(
    output: &mut Output,
    p: &Protocol,
    o: u32,
    line: u32,
    requests: &[Message],
) -> Result<(), OutOfMemory>
    ensures text { OnOk result (output.new ≡ output.old ++ entry_if_any p.now o line requests.now) }
    ensures numbers { OnOk result (AreNumbers requests.now) }
{
    if requests.is_empty() {
        return Ok(());
    }
    write_entry(output, p, o, line, requests)
}

/// Appends the entries of an object, by line.
fn write_entries(output: &mut Output, p: &Protocol, work: &Work, o: u32) -> Result<(), OutOfMemory>
    ensures text { OnOk result (output.new ≡ output.old ++ entries_of p.now work.now o) }
    ensures numbers { OnOk result (HasNumbers work.now o) }
{
    for line in 0..work.lines() {
        write_entry_if_any(output, p, o, line, work.requests(ObjectId(o), LineId(line)))?;
    }
    Ok(())
}

/// How many objects a work speaks of.
fn objects_of(work: &Work) -> Result<u32, OutOfMemory>
    ensures { IfOk result (λ n. n ≡ objects_of work.now) }
{
    let count = match work.by_line().first() {
        Some(row) => row.len(),
        None => 0,
    };
    match u32::try_from(count) {
        Ok(count) => Ok(count),
        // So many lists don't fit into memory.
        Err(_) => Err(OutOfMemory),
    }
}

/// Appends the number of lines and the number of self firings.
fn write_head(output: &mut Output, work: &Work) -> Result<(), OutOfMemory>
    ensures { OnOk result (output.new ≡ output.old ++ head_text work.now) }
{
    output.text("work lines ")?;
    output.number(u64::from(work.lines()))?;
    output.text(" self ")?;
    output.number(u64::from(work.self_count()))?;
    output.end_line()
}

/// The canonical text of a work over a protocol: the numbers of lines and of self firings, then for each object and each
/// line with requests an entry, by object and then by line, and `end`. It reads as that work, but for the place of its first
/// word.
pub fn work_text(alloc: Global, p: &Protocol, work: &Work) -> Result<String, OutOfMemory>
    ensures text { IfOk result (λ text. string_bytes text ≡ work_text p.now work.now) }
    ensures reads_back { OnOk result (WorkTextReads p.now work.now) }
{
    // This call says that the protocol is lawful, so that the names of its messages are told apart.
    let _root = p.part(Kind::Root);
    let mut output = Output::new(alloc);
    write_head(&mut output, work)?;
    for o in 0..objects_of(work)? {
        write_entries(&mut output, p, work, o)?;
    }
    output.text("end\n")?;
    Ok(output.into_string())
}
