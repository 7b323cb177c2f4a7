//! The first rule that breaks a clause.

ghost use Rattle.std.specs.Prelude.{◌≡◌, Ok, slice_get};
ghost use Rattle.std.specs.Option.{option_map};
ghost use Rattle.hem_template.specs.Waiting.{is_upward_template};
ghost use Rattle.hem_check.specs.Discipline.{broken_in, first_broken};
ghost use Rattle.hem_check.specs.Findings.{finding_of, broken_rule, unstable_finding};

use hem_abstract::{Breach, unstable};
use hem_base::{Kind, RuleId};
use hem_syntax::{Protocol, Rule};
use hem_template::{Clause, TemplateName, template};

/// A rule that breaks the discipline, with the first clause that it breaks.
#[derive(Drop)]
pub(crate) struct Finding {
    pub(crate) kind: Kind,
    pub(crate) rule: RuleId,
    pub(crate) clause: Clause,
    /// For stability, the breach.
    pub(crate) breach: Option<Breach>,
}

/// Whether a template sends a request up and waits for the answer.
fn sends_up(name: TemplateName) -> bool
    ensures { result ≡ is_upward_template (Ok name) }
{
    matches!(name, TemplateName::RqUp | TemplateName::RqUpSelf)
}

/// What is found where a rule isn't stable.
fn unstable_finding(kind: Kind, rule: RuleId, breach: Option<Breach>) -> Option<Finding>
    ensures { result ≡ option_map (unstable_finding kind rule) breach }
{
    match breach {
        Some(breach) => Some(Finding {
            kind,
            rule,
            clause: Clause::Stable,
            breach: Some(breach),
        }),
        None => None,
    }
}

/// What is found where a rule breaks a clause.
fn broken_rule(p: &Protocol, kind: Kind, rule: &Rule) -> Option<Finding>
    ensures { result ≡ option_map finding_of (broken_rule p.now kind rule.now) }
{
    match template(p, kind, rule) {
        Err(clause) => Some(Finding {
            kind,
            rule: rule.name,
            clause,
            breach: None,
        }),
        Ok(name) => {
            if sends_up(name) {
                unstable_finding(kind, rule.name, unstable(p, kind, rule))
            } else {
                None
            }
        }
    }
}

/// The first rule of a kind that breaks a clause.
fn first_in(p: &Protocol, kind: Kind) -> Option<Finding>
    ensures { result ≡ option_map finding_of (slice_get (broken_in p.now kind) 0) }
{
    let rules = p.rules(kind);
    for rule in rules {
        if let Some(found) = broken_rule(p, kind, rule) {
            return Some(found);
        }
    }
    None
}

/// The first rule of the protocol that breaks a clause.
pub(crate) fn first_broken(p: &Protocol) -> Option<Finding>
    ensures { result ≡ option_map finding_of (first_broken p.now) }
{
    if let Some(found) = first_in(p, Kind::Root) {
        return Some(found);
    }
    if let Some(found) = first_in(p, Kind::Mid) {
        return Some(found);
    }
    first_in(p, Kind::Leaf)
}
