//! The text of an accepted protocol.

ghost use Rattle.std.specs.Prelude.{◌≡◌, ◌++◌, OnOk, IfOk, codes, flat_map};
ghost use Rattle.std.specs.String.{string_bytes};
ghost use Rattle.hem_template.specs.Template.{template_of};
ghost use Rattle.hem_report.specs.AcceptedText.{template_text, fitted_text, kind_rule_text, rule_line, rule_lines, accepted_text};

use crate::fields::write_kind;
use crate::names::{write_protocol_name, write_rule};
use hem_base::{Kind, OutOfMemory, RuleId};
use hem_check::Accepted;
use hem_output::Output;
use hem_syntax::{Protocol, Rule};
use hem_template::{Clause, TemplateName, template};
use std::alloc::Global;

/// The word for a template.
fn template_word(name: TemplateName) -> &'static str
    ensures { result.now ≡ template_text name }
{
    match name {
        TemplateName::ImmSelf => "imm_self",
        TemplateName::ImmDown => "imm_down",
        TemplateName::ImmUp => "imm_up",
        TemplateName::RqUp => "rq_up",
        TemplateName::RqUpSelf => "rq_up_self",
        TemplateName::RqUpDown => "rq_up_down",
        TemplateName::RqDownSelf => "rq_down_self",
        TemplateName::RqDownDown => "rq_down_down",
        TemplateName::RsDown => "rs_down",
        TemplateName::RsDownSelf => "rs_down_self",
        TemplateName::RsDownRqDown => "rs_down_rq_down",
        TemplateName::RsUpDown => "rs_up_down",
        TemplateName::RsUpUp => "rs_up_up",
        TemplateName::RsUpSelf => "rs_up_self",
    }
}

/// Appends the word for the template that a rule has. In an accepted protocol each rule has one.
fn write_fitted(
    output: &mut Output,
    fitted: Result<TemplateName, Clause>,
) -> Result<(), OutOfMemory>
    ensures { OnOk result (output.new ≡ output.old ++ fitted_text fitted) }
{
    match fitted {
        Ok(name) => output.text(template_word(name)),
        Err(_) => Ok(()),
    }
}

/// Appends `KIND RULE`.
pub(crate) fn write_kind_rule(
    output: &mut Output,
    p: &Protocol,
    kind: Kind,
    rule: RuleId,
) -> Result<(), OutOfMemory>
    ensures { OnOk result (output.new ≡ output.old ++ kind_rule_text p.now kind rule) }
{
    write_kind(output, kind)?;
    output.text(" ")?;
    write_rule(output, p, rule)
}

/// Appends the line of a rule.
fn write_rule_line(
    output: &mut Output,
    p: &Protocol,
    kind: Kind,
    rule: &Rule,
) -> Result<(), OutOfMemory>
    ensures { OnOk result (output.new ≡ output.old ++ rule_line p.now kind rule.now) }
{
    write_kind_rule(output, p, kind, rule.name)?;
    output.text(" ")?;
    write_fitted(output, template(p, kind, rule))?;
    output.text("\n")
}

/// Appends the lines of a kind's rules.
fn write_rule_lines(output: &mut Output, p: &Protocol, kind: Kind) -> Result<(), OutOfMemory>
    ensures { OnOk result (output.new ≡ output.old ++ rule_lines p.now kind) }
{
    let rules = p.rules(kind);
    for rule in rules {
        write_rule_line(output, p, kind, rule)?;
    }
    Ok(())
}

/// Appends the line that says that a protocol is accepted.
fn write_accepted_line(output: &mut Output, p: &Protocol) -> Result<(), OutOfMemory>
    ensures { OnOk result (output.new ≡ output.old ++ (codes "accepted " ++ p.now.name ++ codes "\n")) }
{
    output.text("accepted ")?;
    write_protocol_name(output, p)?;
    output.text("\n")
}

/// Appends the text of an accepted protocol.
fn write_accepted(output: &mut Output, p: &Protocol) -> Result<(), OutOfMemory>
    ensures { OnOk result (output.new ≡ output.old ++ accepted_text p.now) }
{
    write_accepted_line(output, p)?;
    write_rule_lines(output, p, Kind::Root)?;
    write_rule_lines(output, p, Kind::Mid)?;
    write_rule_lines(output, p, Kind::Leaf)
}

/// The text of an accepted protocol: `accepted NAME`, and for each rule in text order a line `KIND RULE TEMPLATE`.
pub fn accepted_text(alloc: Global, accepted: &Accepted) -> Result<String, OutOfMemory>
    ensures { IfOk result (λ text. string_bytes text ≡ accepted_text accepted.now) }
{
    let mut output = Output::new(alloc);
    write_accepted(&mut output, accepted.protocol())?;
    Ok(output.into_string())
}
