//! Firings in texts.

ghost use Rattle.std.specs.Prelude.{◌≡◌, ◌++◌, OnOk, IfOk, flat_map};
ghost use Rattle.std.specs.String.{string_bytes};
ghost use Rattle.hem_report.specs.Texts.{from_text, place_text, firing_text, illegal_text};

use crate::names::write_rule;
use hem_base::{Firing, LineId, ObjectId, OutOfMemory};
use hem_output::Output;
use hem_syntax::Protocol;
use std::alloc::Global;

/// Appends ` from ` and the child that a firing names, where it names one.
fn write_from_child(output: &mut Output, me: Option<ObjectId>) -> Result<(), OutOfMemory>
    ensures { OnOk result (output.new ≡ output.old ++ from_text me) }
{
    match me {
        Some(child) => {
            output.text(" from ")?;
            output.number(u64::from(child.0))
        }
        None => Ok(()),
    }
}

/// Appends where a firing is made, as `LINE OBJECT `.
fn write_firing_place(
    output: &mut Output,
    line: LineId,
    object: ObjectId,
) -> Result<(), OutOfMemory>
    ensures { OnOk result (output.new ≡ output.old ++ place_text line object) }
{
    output.number(u64::from(line.0))?;
    output.text(" ")?;
    output.number(u64::from(object.0))?;
    output.text(" ")
}

/// Appends the line of a firing.
fn write_firing(output: &mut Output, p: &Protocol, firing: Firing) -> Result<(), OutOfMemory>
    ensures { OnOk result (output.new ≡ output.old ++ firing_text p.now firing) }
{
    write_firing_place(output, firing.line, firing.object)?;
    write_rule(output, p, firing.rule)?;
    write_from_child(output, firing.me)?;
    output.text("\n")
}

/// Appends the lines of firings.
pub(crate) fn write_firings(
    output: &mut Output,
    p: &Protocol,
    firings: &[Firing],
) -> Result<(), OutOfMemory>
    ensures { OnOk result (output.new ≡ output.old ++ flat_map (firing_text p.now) firings.now) }
{
    for firing in firings {
        write_firing(output, p, *firing)?;
    }
    Ok(())
}

/// Appends the line that tells which firing isn't possible.
fn write_illegal(output: &mut Output, place: usize) -> Result<(), OutOfMemory>
    ensures { OnOk result (output.new ≡ output.old ++ illegal_text place) }
{
    output.text("illegal ")?;
    output.number(place as u64)?;
    output.text("\n")
}

/// The line that tells that the firing at this place isn't possible.
pub fn illegal_text(alloc: Global, place: usize) -> Result<String, OutOfMemory>
    ensures { IfOk result (λ text. string_bytes text ≡ illegal_text place) }
{
    let mut output = Output::new(alloc);
    write_illegal(&mut output, place)?;
    Ok(output.into_string())
}
