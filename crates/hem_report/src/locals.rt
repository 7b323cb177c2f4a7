//! Local states in texts.

ghost use Rattle.std.specs.Prelude.{◌≡◌, ◌++◌, OnOk};
ghost use Rattle.hem_report.specs.LocalText.{numbers_of, values_text, locks_text, local_text, object_line};

use crate::fields::{write_dir, write_fields, write_kind};
use crate::locks::{write_downlock, write_uplock};
use hem_base::{Kind, ObjectId, OutOfMemory};
use hem_object::Local;
use hem_output::Output;
use hem_syntax::Protocol;

/// Appends the fields and the value.
fn write_values(
    output: &mut Output,
    p: &Protocol,
    kind: Kind,
    local: &Local,
) -> Result<(), OutOfMemory>
    ensures { OnOk result (output.new ≡ output.old ++ values_text p.now kind local.now) }
{
    write_fields(output, p, kind, local.fields.as_slice())?;
    output.text(" val=")?;
    output.number(local.val)
}

/// Appends both locks of an object with these children.
fn write_locks(
    output: &mut Output,
    p: &Protocol,
    children: &[ObjectId],
    local: &Local,
) -> Result<(), OutOfMemory>
    ensures { OnOk result (output.new ≡ output.old ++ locks_text p.now (numbers_of children.now) local.now) }
{
    output.text(" up=")?;
    write_uplock(output, p, children, &local.up)?;
    output.text(" down=")?;
    write_downlock(output, p, children, &local.down)
}

/// Appends what an object of that kind, with these children, keeps of a line.
fn write_local(
    output: &mut Output,
    p: &Protocol,
    kind: Kind,
    children: &[ObjectId],
    local: &Local,
) -> Result<(), OutOfMemory>
    ensures { OnOk result (output.new ≡ output.old ++ local_text p.now kind (numbers_of children.now) local.now) }
{
    write_values(output, p, kind, local)?;
    write_locks(output, p, children, local)?;
    write_dir(output, p, kind, local.dir.as_slice())?;
    output.text("\n")
}

/// Appends the line of an object.
pub(crate) fn write_object_line(
    output: &mut Output,
    p: &Protocol,
    kind: Kind,
    children: &[ObjectId],
    object: usize,
    local: &Local,
) -> Result<(), OutOfMemory>
    ensures { OnOk result (output.new ≡ output.old ++ object_line p.now kind (numbers_of children.now) object local.now) }
{
    output.number(object as u64)?;
    output.text(" ")?;
    write_kind(output, kind)?;
    write_local(output, p, kind, children, local)
}
