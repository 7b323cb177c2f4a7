//! Locks in texts.

ghost use Rattle.std.specs.Prelude.{◌≡◌, ◌++◌, OnOk, slice_index, codes, decimal};
ghost use Rattle.std.specs.List.{join_by};
ghost use Rattle.hem_report.specs.LocalText.{numbers_of, origin_text, held_text, awaited_of, uplock_text, downlock_text};

use crate::names::write_message;
use hem_base::{KidSet, ObjectId, OutOfMemory};
use hem_object::{By, Lock};
use hem_output::Output;
use hem_syntax::Protocol;

/// Appends the number of the child at a place.
fn write_child(output: &mut Output, children: &[ObjectId], place: usize) -> Result<(), OutOfMemory>
    ensures { OnOk result (output.new ≡ output.old ++ decimal (slice_index (numbers_of children.now) place)) }
{
    match children.get(place) {
        Some(child) => output.number(u64::from(child.0)),
        None => output.number(0),
    }
}

/// Appends for whom a lock of an object with these children is held.
fn write_origin(output: &mut Output, children: &[ObjectId], by: By) -> Result<(), OutOfMemory>
    ensures { OnOk result (output.new ≡ output.old ++ origin_text (numbers_of children.now) by) }
{
    match by {
        By::Processor => output.text("cpu"),
        By::Kid(place) => write_child(output, children, usize::from(place)),
        By::Parent => output.text("parent"),
        By::Own => output.text("self"),
    }
}

/// Appends a held lock as `ORIGIN:ID:V`.
fn write_held(
    output: &mut Output,
    p: &Protocol,
    children: &[ObjectId],
    lock: &Lock,
) -> Result<(), OutOfMemory>
    ensures { OnOk result (output.new ≡ output.old ++ held_text p.now (numbers_of children.now) lock.now) }
{
    write_origin(output, children, lock.by)?;
    output.text(":")?;
    write_message(output, p, lock.request)
}

/// Appends the numbers of the children that are in the set, with commas between them.
fn write_awaited(output: &mut Output, children: &[ObjectId], set: KidSet) -> Result<(), OutOfMemory>
    ensures { OnOk result (output.new ≡ output.old ++ join_by decimal (codes ",") (awaited_of (numbers_of children.now) set)) }
{
    let mut comma = "";
    for (place, child) in children.iter().enumerate() {
        if set.has(place) {
            output.text(comma)?;
            output.number(u64::from(child.0))?;
            comma = ",";
        }
    }
    Ok(())
}

/// Appends an uplock.
pub(crate) fn write_uplock(
    output: &mut Output,
    p: &Protocol,
    children: &[ObjectId],
    lock: &Option<Lock>,
) -> Result<(), OutOfMemory>
    ensures { OnOk result (output.new ≡ output.old ++ uplock_text p.now (numbers_of children.now) lock.now) }
{
    match lock {
        Some(lock) => write_held(output, p, children, lock),
        None => output.text("free"),
    }
}

/// Appends a downlock.
pub(crate) fn write_downlock(
    output: &mut Output,
    p: &Protocol,
    children: &[ObjectId],
    lock: &Option<Lock>,
) -> Result<(), OutOfMemory>
    ensures { OnOk result (output.new ≡ output.old ++ downlock_text p.now (numbers_of children.now) lock.now) }
{
    match lock {
        Some(lock) => {
            write_held(output, p, children, lock)?;
            output.text(":")?;
            write_awaited(output, children, lock.awaited)
        }
        None => output.text("free"),
    }
}
