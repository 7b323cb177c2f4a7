//! Names and messages in texts.

ghost use Rattle.std.specs.Prelude.{◌≡◌, ◌++◌, OnOk};
ghost use Rattle.hem_report.specs.Texts.{status_text, rule_text, id_text, message_text};
ghost use Rattle.hem_report.specs.LocalText.{field_name};

use hem_base::{Kind, Message, MsgId, OutOfMemory, RuleId, Status8};
use hem_output::Output;
use hem_syntax::Protocol;

/// Appends the name of a protocol.
pub(crate) fn write_protocol_name(output: &mut Output, p: &Protocol) -> Result<(), OutOfMemory>
    ensures { OnOk result (output.new ≡ output.old ++ p.now.name) }
{
    // This call says that the protocol is lawful, so that its name is a word.
    let _root = p.part(Kind::Root);
    let name = p.name();
    output.name(name)
}

/// Appends the name of a status.
pub(crate) fn write_status(
    output: &mut Output,
    p: &Protocol,
    status: Status8,
) -> Result<(), OutOfMemory>
    ensures { OnOk result (output.new ≡ output.old ++ status_text p.now status) }
{
    match p.status_name(status) {
        Some(name) => output.name(name),
        None => Ok(()),
    }
}

/// Appends the name of a rule.
pub(crate) fn write_rule(output: &mut Output, p: &Protocol, rule: RuleId) -> Result<(), OutOfMemory>
    ensures { OnOk result (output.new ≡ output.old ++ rule_text p.now rule) }
{
    match p.rule_name(rule) {
        Some(name) => output.name(name),
        None => Ok(()),
    }
}

/// Appends the name of a message id.
fn write_id(output: &mut Output, p: &Protocol, id: MsgId) -> Result<(), OutOfMemory>
    ensures { OnOk result (output.new ≡ output.old ++ id_text p.now id) }
{
    match p.message_name(id) {
        Some(name) => output.name(name),
        None => Ok(()),
    }
}

/// Appends the name of a kind's field.
pub(crate) fn write_field_name(
    output: &mut Output,
    p: &Protocol,
    kind: Kind,
    place: usize,
) -> Result<(), OutOfMemory>
    ensures { OnOk result (output.new ≡ output.old ++ field_name p.now kind place) }
{
    match p.field_name(kind, place) {
        Some(name) => output.name(name),
        None => Ok(()),
    }
}

/// Appends a message as `ID:V`.
pub(crate) fn write_message(
    output: &mut Output,
    p: &Protocol,
    message: Message,
) -> Result<(), OutOfMemory>
    ensures { OnOk result (output.new ≡ output.old ++ message_text p.now message) }
{
    write_id(output, p, message.id)?;
    output.text(":")?;
    output.number(message.value)
}
