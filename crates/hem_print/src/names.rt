//! Names of a protocol, and words, appended to a text.

ghost use Rattle.std.specs.Prelude.{◌≡◌, [], ◌∷◌, ◌++◌, OnOk, IsTrue};
ghost use Rattle.std.specs.List.{list_all};
ghost use Rattle.hem_base.specs.Sets.{has_bit};
ghost use Rattle.hem_base.specs.Words.{is_word_text};
ghost use Rattle.hem_syntax.specs.Protocol.{part};
ghost use Rattle.hem_syntax.specs.Lawful.{is_declarable};
ghost use Rattle.hem_print.specs.Canonical.{plain, named, words_text, status_name, message_name, rule_name, field_name, set_words, value_word};

use hem_base::{Kind, MsgId, Name, OutOfMemory, Reserved, RuleId, Status8, StatusSet};
use hem_output::Output;
use hem_syntax::{Protocol, Value};

/// Whether the status at a place is in the set.
fn has_place(set: StatusSet, place: usize) -> bool
    ensures { result ≡ has_bit set.0 place }
{
    place < 8 && (set.0 >> place) & 1 == 1
}

/// The names of the statuses, which are words.
pub(crate) fn statuses_of(p: &Protocol) -> &[Name]
    ensures names { result.now ≡ p.now.statuses }
    ensures declarable { IsTrue (list_all is_declarable result.now) }
{
    // This call says that the protocol is lawful, so that its names can be declared.
    let _root = p.part(Kind::Root);
    p.statuses().as_slice()
}

/// Appends a reserved word after another word.
pub(crate) fn write_word(output: &mut Output, word: Reserved) -> Result<(), OutOfMemory>
    ensures { OnOk result (output.new ≡ output.old ++ words_text (plain word ∷ [])) }
{
    output.text(" ")?;
    output.word(word)
}

/// Appends a name after another word.
pub(crate) fn write_name(output: &mut Output, name: &Name) -> Result<(), OutOfMemory>
    requires { IsTrue (is_word_text name.now) }
    ensures { OnOk result (output.new ≡ output.old ++ words_text (named name.now ∷ [])) }
{
    output.text(" ")?;
    output.name(name)
}

/// Appends the name of a status.
pub(crate) fn write_status(
    output: &mut Output,
    p: &Protocol,
    status: Status8,
) -> Result<(), OutOfMemory>
    ensures { OnOk result (output.new ≡ output.old ++ words_text (named (status_name p.now status) ∷ [])) }
{
    match p.status_name(status) {
        Some(name) => write_name(output, name),
        None => output.text(" "),
    }
}

/// Appends the name of a message id.
pub(crate) fn write_message(output: &mut Output, p: &Protocol, id: MsgId) -> Result<(), OutOfMemory>
    ensures { OnOk result (output.new ≡ output.old ++ words_text (named (message_name p.now id) ∷ [])) }
{
    match p.message_name(id) {
        Some(name) => write_name(output, name),
        None => output.text(" "),
    }
}

/// Appends the name of a rule.
pub(crate) fn write_rule_name(
    output: &mut Output,
    p: &Protocol,
    id: RuleId,
) -> Result<(), OutOfMemory>
    ensures { OnOk result (output.new ≡ output.old ++ words_text (named (rule_name p.now id) ∷ [])) }
{
    match p.rule_name(id) {
        Some(name) => write_name(output, name),
        None => output.text(" "),
    }
}

/// Appends the name of a field of a kind.
pub(crate) fn write_field_name(
    output: &mut Output,
    p: &Protocol,
    kind: Kind,
    field: u8,
) -> Result<(), OutOfMemory>
    ensures { OnOk result (output.new ≡ output.old ++ words_text (named (field_name (part p.now kind) field) ∷ [])) }
{
    match p.field_name(kind, usize::from(field)) {
        Some(name) => write_name(output, name),
        None => output.text(" "),
    }
}

/// Appends the statuses of a set, in order of declaration.
pub(crate) fn write_set(
    output: &mut Output,
    p: &Protocol,
    set: StatusSet,
) -> Result<(), OutOfMemory>
    ensures { OnOk result (output.new ≡ output.old ++ words_text (set_words p.now set)) }
{
    for (place, name) in statuses_of(p).iter().enumerate() {
        if has_place(set, place) {
            write_name(output, name)?;
        }
    }
    Ok(())
}

/// Appends a value.
pub(crate) fn write_value(output: &mut Output, value: Value) -> Result<(), OutOfMemory>
    ensures { OnOk result (output.new ≡ output.old ++ words_text (value_word value ∷ [])) }
{
    match value {
        Value::Val => write_word(output, Reserved::Val),
        Value::Msg => write_word(output, Reserved::Msg),
        Value::Kept => write_word(output, Reserved::Kept),
        Value::Rs => write_word(output, Reserved::Rs),
        Value::Zero => output.text(" 0"),
    }
}
