//! The texts of states.

ghost use Rattle.std.specs.Prelude.{◌≡◌, ◌<◌, ◌++◌, [], length, slice_index_or, OnOk, IfOk};
ghost use Rattle.std.specs.String.{string_bytes};
ghost use Rattle.hem_report.specs.Texts.{text_of_each};
ghost use Rattle.hem_report.specs.StateText.{object_line_of, object_text, line_text, state_text, word_of};
ghost use Rattle.hem_report.specs.Places.{text_at};

use crate::lists::write_lists_at;
use crate::locals::write_object_line;
use hem_base::{ObjectId, OutOfMemory};
use hem_object::Local;
use hem_output::Output;
use hem_syntax::Protocol;
use hem_system::System;
use hem_tree::Tree;
use std::alloc::Global;

/// Appends the line of an object, where the tree has it.
fn write_object_of(
    output: &mut Output,
    p: &Protocol,
    tree: &Tree,
    object: usize,
    local: &Local,
) -> Result<(), OutOfMemory>
    ensures { OnOk result (output.new ≡ output.old ++ object_line_of p.now tree.now object local.now) }
{
    if object >= tree.objects() as usize {
        return Ok(());
    }
    let id = ObjectId(object as u32);
    write_object_line(output, p, tree.kind(id), tree.children(id), object, local)
}

/// Appends the lines of the object at a place on the line at a place.
fn write_object(
    output: &mut Output,
    p: &Protocol,
    tree: &Tree,
    s: &System,
    line: usize,
    object: usize,
) -> Result<(), OutOfMemory>
    requires line { line < length s.now }
    requires object { object < length (slice_index_or s.now line []) }
    ensures { OnOk result (output.new ≡ output.old ++ text_at (object_text p.now tree.now object) s.now line object) }
{
    write_object_of(output, p, tree, object, s.local_at(line, object))?;
    write_lists_at(output, p, s, line, object)
}

/// Appends the lines of all objects on the line at a place.
fn write_objects(
    output: &mut Output,
    p: &Protocol,
    tree: &Tree,
    s: &System,
    line: usize,
) -> Result<(), OutOfMemory>
    requires { line < length s.now }
    ensures { OnOk result (output.new ≡ output.old ++ text_of_each (object_text p.now tree.now) 0 (slice_index_or s.now line [])) }
{
    for object in 0..s.objects(line) {
        write_object(output, p, tree, s, line, object)?;
    }
    Ok(())
}

/// Appends the state of the line at a place.
fn write_line(
    output: &mut Output,
    p: &Protocol,
    tree: &Tree,
    s: &System,
    line: usize,
) -> Result<(), OutOfMemory>
    requires { line < length s.now }
    ensures { OnOk result (output.new ≡ output.old ++ line_text p.now tree.now line (slice_index_or s.now line [])) }
{
    output.text("line ")?;
    output.number(line as u64)?;
    output.text("\n")?;
    write_objects(output, p, tree, s, line)
}

/// Appends the states of all lines.
fn write_lines(
    output: &mut Output,
    p: &Protocol,
    tree: &Tree,
    s: &System,
) -> Result<(), OutOfMemory>
    ensures { OnOk result (output.new ≡ output.old ++ text_of_each (line_text p.now tree.now) 0 s.now) }
{
    for line in 0..s.lines() {
        write_line(output, p, tree, s, line)?;
    }
    Ok(())
}

/// Appends a state.
fn write_state(
    output: &mut Output,
    p: &Protocol,
    tree: &Tree,
    s: &System,
) -> Result<(), OutOfMemory>
    ensures { OnOk result (output.new ≡ output.old ++ state_text p.now tree.now s.now) }
{
    output.text("state\n")?;
    write_lines(output, p, tree, s)?;
    output.text("end\n")
}

/// The text of a state: for each line, what each object keeps of it and each list that isn't empty. Of an object that
/// the tree doesn't have only its lists are told.
pub fn state_text(
    alloc: Global,
    p: &Protocol,
    tree: &Tree,
    s: &System,
) -> Result<String, OutOfMemory>
    ensures { IfOk result (λ text. string_bytes text ≡ state_text p.now tree.now s.now) }
{
    let mut output = Output::new(alloc);
    write_state(&mut output, p, tree, s)?;
    Ok(output.into_string())
}

/// The word for a state after a history, with its line feed: `quiet` or `open`. It takes no memory.
pub fn word_text(s: &System) -> &'static str
    ensures { result.now ≡ word_of s.now }
{
    if s.quiet() { "quiet\n" } else { "open\n" }
}
