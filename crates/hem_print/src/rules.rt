//! Rules and what else a kind says.

ghost use Rattle.std.specs.Prelude.{◌≡◌, ◌++◌, OnOk, IsTrue, map};
ghost use Rattle.std.specs.List.{list_all};
ghost use Rattle.hem_base.specs.Words.{is_word_text};
ghost use Rattle.hem_syntax.specs.Protocol.{part};
ghost use Rattle.hem_syntax.specs.Lawful.{is_declarable};
ghost use Rattle.hem_print.specs.Canonical.{words_text, line_text, lines_text, rule_words, rule_line, field_line, dir_lines, kind_lines};

use crate::guards::{write_guard, write_sets};
use crate::names::{write_name, write_rule_name, write_status, write_word};
use crate::sends::{write_free, write_lock, write_need, write_send, write_take};
use hem_base::{Kind, Name, OutOfMemory, Reserved, Status8};
use hem_output::Output;
use hem_syntax::{Protocol, Rule};

/// Appends the words of a rule after its name.
fn write_rule_words(
    output: &mut Output,
    p: &Protocol,
    kind: Kind,
    rule: &Rule,
) -> Result<(), OutOfMemory>
    ensures { OnOk result (output.new ≡ output.old ++ words_text (rule_words p.now (part p.now kind) rule.now)) }
{
    write_word(output, Reserved::Take)?;
    write_take(output, p, rule.take)?;
    write_word(output, Reserved::Need)?;
    write_need(output, rule.need)?;
    write_guard(output, p, kind, rule.guard.as_slice())?;
    write_sets(output, p, kind, rule.sets.as_slice())?;
    write_free(output, rule.free)?;
    write_lock(output, rule.lock)?;
    write_send(output, p, rule.send)?;
    write_word(output, Reserved::End)
}

/// Appends the line of a rule.
fn write_rule(output: &mut Output, p: &Protocol, kind: Kind, rule: &Rule) -> Result<(), OutOfMemory>
    ensures { OnOk result (output.new ≡ output.old ++ line_text (rule_line p.now (part p.now kind) rule.now)) }
{
    output.word(Reserved::Rule)?;
    write_rule_name(output, p, rule.name)?;
    write_rule_words(output, p, kind, rule)?;
    output.end_line()
}

/// Appends the lines of a kind's rules.
fn write_rules(
    output: &mut Output,
    p: &Protocol,
    kind: Kind,
    rules: &[Rule],
) -> Result<(), OutOfMemory>
    ensures { OnOk result (output.new ≡ output.old ++ lines_text (map (rule_line p.now (part p.now kind)) rules.now)) }
{
    for rule in rules {
        write_rule(output, p, kind, rule)?;
    }
    Ok(())
}

/// Appends the line of a field.
fn write_field(
    output: &mut Output,
    p: &Protocol,
    name: &Name,
    start: Status8,
) -> Result<(), OutOfMemory>
    requires { IsTrue (is_word_text name.now) }
    ensures { OnOk result (output.new ≡ output.old ++ line_text (field_line p.now (name.now, start))) }
{
    output.word(Reserved::Field)?;
    write_name(output, name)?;
    write_word(output, Reserved::Init)?;
    write_status(output, p, start)?;
    output.end_line()
}

/// Appends the lines of a kind's fields, whose names can be declared.
fn write_fields(
    output: &mut Output,
    p: &Protocol,
    fields: &[(Name, Status8)],
) -> Result<(), OutOfMemory>
    requires { IsTrue (list_all is_declarable (map (λ f. f.0) fields.now)) }
    ensures { OnOk result (output.new ≡ output.old ++ lines_text (map (field_line p.now) fields.now)) }
{
    for (name, start) in fields {
        write_field(output, p, name, *start)?;
    }
    Ok(())
}

/// Appends the line of a directory, where there is one.
fn write_dir(output: &mut Output, p: &Protocol, dir: Option<Status8>) -> Result<(), OutOfMemory>
    ensures { OnOk result (output.new ≡ output.old ++ lines_text (dir_lines p.now dir)) }
{
    match dir {
        Some(start) => {
            output.word(Reserved::Dir)?;
            write_word(output, Reserved::Init)?;
            write_status(output, p, start)?;
            output.end_line()
        }
        None => Ok(()),
    }
}

/// Appends the lines of a kind, which goes by this word.
pub(crate) fn write_kind(
    output: &mut Output,
    p: &Protocol,
    kind: Kind,
    word: Reserved,
) -> Result<(), OutOfMemory>
    ensures { OnOk result (output.new ≡ output.old ++ lines_text (kind_lines p.now word (part p.now kind))) }
{
    let part = p.part(kind);
    output.word(Reserved::Kind)?;
    write_word(output, word)?;
    output.end_line()?;
    write_fields(output, p, part.fields.as_slice())?;
    write_dir(output, p, part.dir)?;
    write_rules(output, p, kind, part.rules.as_slice())?;
    output.text("end\n")
}
