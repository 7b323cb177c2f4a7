//! Rules.

ghost use Rattle.std.specs.Prelude.{◌≡◌, ◌++◌, flat_map, OnOk, IsTrue};
ghost use Rattle.std.specs.List.{list_all};
ghost use Rattle.hem_base.specs.Words.{is_word_text};
ghost use Rattle.hem_syntax.specs.Lawful.{is_declarable};
ghost use Rattle.hem_modprint.specs.ModulesText.{child_text, spontaneous_text, rule_text};
ghost use Rattle.hem_modprint.specs.ReadsBack.{fits_child, fits_rule};

use crate::actions::write_actions;
use crate::tests::write_clauses;
use hem_base::OutOfMemory;
use hem_module::{ModRule, Modules};
use hem_output::Output;

/// Appends the child from which a rule takes a message.
fn write_child(output: &mut Output, child: Option<u32>) -> Result<(), OutOfMemory>
    ensures text { OnOk result (output.new ≡ output.old ++ child_text child) }
    ensures fits { OnOk result (IsTrue (fits_child child)) }
{
    match child {
        None => Ok(()),
        Some(child) => {
            output.text(" from ")?;
            output.number(u64::from(child))
        }
    }
}

/// Appends whether a rule starts by itself.
fn write_spontaneous(output: &mut Output, spontaneous: bool) -> Result<(), OutOfMemory>
    ensures { OnOk result (output.new ≡ output.old ++ spontaneous_text spontaneous) }
{
    if spontaneous {
        output.text(" spontaneous")
    } else {
        Ok(())
    }
}

/// Appends a rule, whose name is a word.
fn write_rule(output: &mut Output, m: &Modules, rule: &ModRule) -> Result<(), OutOfMemory>
    requires { IsTrue (is_word_text rule.now.name) }
    ensures text { OnOk result (output.new ≡ output.old ++ rule_text m.now rule.now) }
    ensures fits { OnOk result (IsTrue (fits_rule rule.now)) }
{
    output.text("rule ")?;
    output.number(u64::from(rule.object))?;
    output.text(" ")?;
    output.name(&rule.name)?;
    write_child(output, rule.from)?;
    write_spontaneous(output, rule.spontaneous)?;
    write_clauses(output, m, rule.clauses.as_slice())?;
    write_actions(output, m, rule.actions.as_slice())?;
    output.text(" end\n")
}

/// Appends rules, whose names may be declared.
pub(crate) fn write_rules(
    output: &mut Output,
    m: &Modules,
    rules: &[ModRule],
) -> Result<(), OutOfMemory>
    requires { IsTrue (list_all (λ r. is_declarable r.name) rules.now) }
    ensures text { OnOk result (output.new ≡ output.old ++ flat_map (rule_text m.now) rules.now) }
    ensures fits { OnOk result (IsTrue (list_all fits_rule rules.now)) }
{
    for rule in rules {
        write_rule(output, m, rule)?;
    }
    Ok(())
}
