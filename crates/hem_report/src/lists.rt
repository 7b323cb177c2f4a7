//! An object's lists in texts.

ghost use Rattle.std.specs.Prelude.{◌≡◌, ◌<◌, ◌++◌, [], length, slice_index_or, flat_map, OnOk};
ghost use Rattle.hem_report.specs.StateText.{lane_text, messages_text, list_line, lanes};
ghost use Rattle.hem_report.specs.Places.{list_line_at};

use crate::names::write_message;
use hem_base::{Message, OutOfMemory};
use hem_output::Output;
use hem_syntax::Protocol;
use hem_system::{Lane, System};

/// Appends messages, each with a space before it.
fn write_messages(
    output: &mut Output,
    p: &Protocol,
    messages: &[Message],
) -> Result<(), OutOfMemory>
    ensures { OnOk result (output.new ≡ output.old ++ messages_text p.now messages.now) }
{
    for message in messages {
        output.text(" ")?;
        write_message(output, p, *message)?;
    }
    Ok(())
}

/// Appends the word for a list.
fn write_lane(output: &mut Output, lane: Lane) -> Result<(), OutOfMemory>
    ensures { OnOk result (output.new ≡ output.old ++ lane_text lane) }
{
    output.text(match lane {
        Lane::UpRequests => "uprq",
        Lane::UpResponses => "uprs",
        Lane::Down => "down",
        Lane::Requests => "req",
        Lane::Answers => "ans",
    })
}

/// Appends the line of a list of an object, where the list isn't empty.
fn write_list(
    output: &mut Output,
    p: &Protocol,
    object: usize,
    lane: Lane,
    messages: &[Message],
) -> Result<(), OutOfMemory>
    ensures { OnOk result (output.new ≡ output.old ++ list_line p.now object lane messages.now) }
{
    if messages.is_empty() {
        return Ok(());
    }
    write_lane(output, lane)?;
    output.text(" ")?;
    output.number(object as u64)?;
    write_messages(output, p, messages)?;
    output.text("\n")
}

/// Appends the line of a list of the object at a place on the line at a place.
fn write_list_at(
    output: &mut Output,
    p: &Protocol,
    s: &System,
    line: usize,
    object: usize,
    lane: Lane,
) -> Result<(), OutOfMemory>
    requires line { line < length s.now }
    requires object { object < length (slice_index_or s.now line []) }
    ensures { OnOk result (output.new ≡ output.old ++ list_line_at p.now s.now line object lane) }
{
    write_list(output, p, object, lane, s.list_at(line, object, lane))
}

/// Appends the lines of the lists of the object at a place on the line at a place.
pub(crate) fn write_lists_at(
    output: &mut Output,
    p: &Protocol,
    s: &System,
    line: usize,
    object: usize,
) -> Result<(), OutOfMemory>
    requires line { line < length s.now }
    requires object { object < length (slice_index_or s.now line []) }
    ensures { OnOk result (output.new ≡ output.old ++ flat_map (list_line_at p.now s.now line object) lanes) }
{
    write_list_at(output, p, s, line, object, Lane::UpRequests)?;
    write_list_at(output, p, s, line, object, Lane::UpResponses)?;
    write_list_at(output, p, s, line, object, Lane::Down)?;
    write_list_at(output, p, s, line, object, Lane::Requests)?;
    write_list_at(output, p, s, line, object, Lane::Answers)
}
