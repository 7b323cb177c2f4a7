//! Kinds, fields and directories in texts.

ghost use Rattle.std.specs.Prelude.{◌≡◌, ◌++◌, OnOk, codes};
ghost use Rattle.std.specs.List.{join_by};
ghost use Rattle.hem_report.specs.Texts.{status_text, text_of_each};
ghost use Rattle.hem_report.specs.LocalText.{kind_text, field_text, dir_text};

use crate::names::{write_field_name, write_status};
use hem_base::{Kind, OutOfMemory, Status8};
use hem_output::Output;
use hem_syntax::Protocol;

/// Appends the word for a kind.
pub(crate) fn write_kind(output: &mut Output, kind: Kind) -> Result<(), OutOfMemory>
    ensures { OnOk result (output.new ≡ output.old ++ kind_text kind) }
{
    output.text(match kind {
        Kind::Root => "root",
        Kind::Mid => "mid",
        Kind::Leaf => "leaf",
    })
}

/// Appends the names of statuses, with commas between them.
fn write_statuses(
    output: &mut Output,
    p: &Protocol,
    statuses: &[Status8],
) -> Result<(), OutOfMemory>
    ensures { OnOk result (output.new ≡ output.old ++ join_by (status_text p.now) (codes ",") statuses.now) }
{
    let mut comma = "";
    for status in statuses {
        output.text(comma)?;
        write_status(output, p, *status)?;
        comma = ",";
    }
    Ok(())
}

/// Appends ` FIELD=STATUS`.
fn write_field(
    output: &mut Output,
    p: &Protocol,
    kind: Kind,
    place: usize,
    status: Status8,
) -> Result<(), OutOfMemory>
    ensures { OnOk result (output.new ≡ output.old ++ field_text p.now kind place status) }
{
    output.text(" ")?;
    write_field_name(output, p, kind, place)?;
    output.text("=")?;
    write_status(output, p, status)
}

/// Appends all fields.
pub(crate) fn write_fields(
    output: &mut Output,
    p: &Protocol,
    kind: Kind,
    fields: &[Status8],
) -> Result<(), OutOfMemory>
    ensures { OnOk result (output.new ≡ output.old ++ text_of_each (field_text p.now kind) 0 fields.now) }
{
    for (place, status) in fields.iter().enumerate() {
        write_field(output, p, kind, place, *status)?;
    }
    Ok(())
}

/// Appends the children's statuses, which a leaf doesn't have.
pub(crate) fn write_dir(
    output: &mut Output,
    p: &Protocol,
    kind: Kind,
    dir: &[Status8],
) -> Result<(), OutOfMemory>
    ensures { OnOk result (output.new ≡ output.old ++ dir_text p.now kind dir.now) }
{
    if kind == Kind::Leaf {
        return Ok(());
    }
    output.text(" dir=")?;
    write_statuses(output, p, dir)
}
