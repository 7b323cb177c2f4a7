//! The text of a refused protocol.

ghost use Rattle.std.specs.Prelude.{◌≡◌, ◌++◌, OnOk, IfOk};
ghost use Rattle.std.specs.String.{string_bytes};
ghost use Rattle.hem_report.specs.RefusalText.{clause_text, second_text, breach_text, refusal_text};

use crate::abstracts::write_abstract;
use crate::accepted::write_kind_rule;
use crate::names::write_rule;
use hem_abstract::Breach;
use hem_base::{Kind, OutOfMemory, RuleId};
use hem_check::Refusal;
use hem_output::Output;
use hem_syntax::Protocol;
use hem_template::Clause;
use std::alloc::Global;

/// The word for a clause.
fn clause_word(clause: Clause) -> &'static str
    ensures { result.now ≡ clause_text clause }
{
    match clause {
        Clause::Level => "level",
        Clause::Class => "class",
        Clause::Shape => "shape",
        Clause::Locks => "locks",
        Clause::Silent => "silent",
        Clause::Scope => "scope",
        Clause::Names => "names",
        Clause::Stable => "stable",
    }
}

/// Appends ` then RULE`, where there is a second rule.
fn write_second(
    output: &mut Output,
    p: &Protocol,
    second: Option<RuleId>,
) -> Result<(), OutOfMemory>
    ensures { OnOk result (output.new ≡ output.old ++ second_text p.now second) }
{
    match second {
        Some(back) => {
            output.text(" then ")?;
            write_rule(output, p, back)
        }
        None => Ok(()),
    }
}

/// Appends ` with DOWN at STATE`, or ` with DOWN then BACK at STATE`, where stability is broken.
fn write_breach(
    output: &mut Output,
    p: &Protocol,
    kind: Kind,
    breach: &Option<Breach>,
) -> Result<(), OutOfMemory>
    ensures { OnOk result (output.new ≡ output.old ++ breach_text p.now kind breach.now) }
{
    match breach {
        Some(breach) => {
            output.text(" with ")?;
            write_rule(output, p, breach.down)?;
            write_second(output, p, breach.second)?;
            output.text(" at")?;
            write_abstract(output, p, kind, &breach.at)
        }
        None => Ok(()),
    }
}

/// Appends the text of a refusal.
fn write_refusal(output: &mut Output, refusal: &Refusal) -> Result<(), OutOfMemory>
    ensures { OnOk result (output.new ≡ output.old ++ refusal_text refusal.now) }
{
    let p = &refusal.back;
    output.text("refused ")?;
    write_kind_rule(output, p, refusal.kind, refusal.rule)?;
    output.text(" ")?;
    output.text(clause_word(refusal.clause))?;
    write_breach(output, p, refusal.kind, &refusal.breach)?;
    output.text("\n")
}

/// The text of a refusal: `refused KIND RULE CLAUSE`, and where the clause is `stable` the rule that breaks it and the
/// least state in which it does, as ` with DOWN at STATE` or ` with DOWN then BACK at STATE`.
pub fn refusal_text(alloc: Global, refusal: &Refusal) -> Result<String, OutOfMemory>
    ensures { IfOk result (λ text. string_bytes text ≡ refusal_text refusal.now) }
{
    let mut output = Output::new(alloc);
    write_refusal(&mut output, refusal)?;
    Ok(output.into_string())
}
