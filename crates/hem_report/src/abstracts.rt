//! Abstract states in texts.

ghost use Rattle.std.specs.Prelude.{◌≡◌, ◌++◌, OnOk, codes};
ghost use Rattle.std.specs.List.{join_by};
ghost use Rattle.hem_report.specs.Texts.{status_text};
ghost use Rattle.hem_report.specs.RefusalText.{dash_text, statuses_in, occurring_text, kids_text, abstract_text};

use crate::fields::write_fields;
use crate::names::write_status;
use hem_abstract::Abstract;
use hem_base::{Kind, OutOfMemory, Status8, StatusSet};
use hem_output::Output;
use hem_syntax::Protocol;

/// Appends the names of the statuses of a set, with commas between them.
fn write_status_set(output: &mut Output, p: &Protocol, set: StatusSet) -> Result<(), OutOfMemory>
    ensures { OnOk result (output.new ≡ output.old ++ join_by (status_text p.now) (codes ",") (statuses_in set)) }
{
    let mut comma = "";
    for number in 0..8u8 {
        let status = Status8(number);
        if set.has(status) {
            output.text(comma)?;
            write_status(output, p, status)?;
            comma = ",";
        }
    }
    Ok(())
}

/// Appends a dash, where there are no fields.
fn write_dash(output: &mut Output, fields: &[Status8]) -> Result<(), OutOfMemory>
    ensures { OnOk result (output.new ≡ output.old ++ dash_text fields.now) }
{
    if fields.is_empty() {
        return output.text(" -");
    }
    Ok(())
}

/// Appends ` kids=` and the statuses that occur among the children.
fn write_occurring(output: &mut Output, p: &Protocol, kids: StatusSet) -> Result<(), OutOfMemory>
    ensures { OnOk result (output.new ≡ output.old ++ occurring_text p.now kids) }
{
    output.text(" kids=")?;
    write_status_set(output, p, kids)
}

/// Appends the statuses that occur among the children. A leaf has none; of a leaf without fields a dash is told.
fn write_kids(
    output: &mut Output,
    p: &Protocol,
    kind: Kind,
    at: &Abstract,
) -> Result<(), OutOfMemory>
    ensures { OnOk result (output.new ≡ output.old ++ kids_text p.now kind at.now) }
{
    match kind {
        Kind::Root | Kind::Mid => write_occurring(output, p, at.kids),
        Kind::Leaf => write_dash(output, at.fields.as_slice()),
    }
}

/// Appends an abstract state of a kind, with a space before each part.
pub(crate) fn write_abstract(
    output: &mut Output,
    p: &Protocol,
    kind: Kind,
    at: &Abstract,
) -> Result<(), OutOfMemory>
    ensures { OnOk result (output.new ≡ output.old ++ abstract_text p.now kind at.now) }
{
    write_fields(output, p, kind, at.fields.as_slice())?;
    write_kids(output, p, kind, at)
}
