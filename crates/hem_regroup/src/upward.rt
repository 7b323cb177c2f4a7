//! The rules that send a request up and wait for the answer.

ghost use Rattle.std.specs.Prelude.{◌≡◌, false, slice_index_or, IfOk};
ghost use Rattle.hem_base.specs.declared.ids.RuleId.{RuleId as Name};
ghost use Rattle.hem_template.specs.Template.{template_of};
ghost use Rattle.hem_template.specs.Waiting.{is_upward_template};
ghost use Rattle.hem_regroup.specs.Numbering.{AreUpward, is_upward_rule, kept_of};

use hem_base::{Kind, OutOfMemory, RuleId};
use hem_syntax::{Protocol, Rule};
use hem_template::{TemplateName, template};
use std::alloc::Global;

/// For each kind, by the place of a rule's name among all rule names, whether the kind has a rule of that name that
/// sends a request up and waits for the answer.
#[derive(Drop)]
pub(crate) struct UpwardRules {
    root: Vec<bool>,
    mid: Vec<bool>,
    leaf: Vec<bool>,
}

/// Whether a rule of the kind sends a request up and waits.
fn is_upward(p: &Protocol, kind: Kind, rule: &Rule) -> bool
    ensures { result ≡ is_upward_template (template_of p.now kind rule.now) }
{
    matches!(
        template(p, kind, rule),
        Ok(TemplateName::RqUp | TemplateName::RqUpSelf)
    )
}

/// The rules of a kind. Where several had one name, the first would count.
fn upward_names(alloc: Global, p: &Protocol, kind: Kind) -> Result<Vec<bool>, OutOfMemory>
    ensures { IfOk result (λ names. (name : Name) → slice_index_or names.items name.0 false ≡ is_upward_rule p.now kind name) }
{
    let rules = p.part(kind).rules.as_slice();
    let mut names = vec![in alloc; false; p.rule_names().len()]?;
    for back in 0..rules.len() {
        let rule = &rules[rules.len() - 1 - back];
        names[rule.name.0 as usize] = is_upward(p, kind, rule);
    }
    Ok(names)
}

impl UpwardRules {
    /// The rules of all kinds: each rule's template is worked out once.
    pub(crate) fn of(alloc: Global, p: &Protocol) -> Result<UpwardRules, OutOfMemory>
        ensures { IfOk result (λ upward. AreUpward p.now upward) }
    {
        Ok(UpwardRules {
            root: upward_names(alloc, p, Kind::Root)?,
            mid: upward_names(alloc, p, Kind::Mid)?,
            leaf: upward_names(alloc, p, Kind::Leaf)?,
        })
    }

    /// What is kept of a kind.
    fn kept(&self, kind: Kind) -> &[bool]
        ensures { result.now ≡ kept_of self.now kind }
    {
        match kind {
            Kind::Root => self.root.as_slice(),
            Kind::Mid => self.mid.as_slice(),
            Kind::Leaf => self.leaf.as_slice(),
        }
    }

    /// Whether the kind has a rule of that name that sends a request up and waits.
    pub(crate) fn has(&self, kind: Kind, name: RuleId) -> bool
        ensures { result ≡ slice_index_or (kept_of self.now kind) name.0 false }
    {
        match self.kept(kind).get(name.0 as usize) {
            Some(upward) => *upward,
            None => false,
        }
    }
}
