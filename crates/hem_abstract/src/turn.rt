//! What may happen at an object while a request that it sent up waits.

ghost use Rattle.std.specs.Prelude.{◌≡◌};
ghost use Rattle.std.specs.List.{list_any};
ghost use Rattle.hem_abstract.specs.Partners.{alone, pair, target_statuses, taken_from_parent, is_new_val, sends_val};
ghost use Rattle.hem_abstract.specs.Parts.{turn_of};
ghost use Rattle.hem_template.specs.Template.{value_sent};

use hem_base::{MsgId, StatusSet};
use hem_syntax::{Assign, Atom, Rule, SendTo, Take, Value};
use std::marker::Model;

/// What a partner does, by its parts: one rule that answers the parent, or one that passes the parent's request on and one
/// that then answers it.
#[derive(Drop)]
pub(crate) struct Turn<'a> {
    /// The guard of the first rule.
    pub(crate) first: &'a [Atom],
    /// The guard of the second rule, or no condition.
    pub(crate) second: &'a [Atom],
    /// The id of the request that is passed on, for which the second guard is read.
    pub(crate) asked: Option<MsgId>,
    /// Whether a request is passed on, so that a child with a target's status must be there.
    pub(crate) passes_on: bool,
    /// The statuses of the targets.
    pub(crate) targets: StatusSet,
    /// The sets that are made at the end.
    pub(crate) sets: &'a [Assign],
}

impl<'a> Model for Turn<'a> {
    ghost use Rattle.hem_abstract.specs.Parts.{Turn as Seen};

    ghost Value = { Seen };

    ghost view = { λ t. record { first = t.first.now; second = t.second.now; asked = t.asked; passes_on = t.passes_on; targets = t.targets; sets = t.sets.now } };
}

/// The statuses of the children that a rule sends to.
fn targets_of(send: SendTo) -> StatusSet
    ensures { result ≡ target_statuses send }
{
    match send {
        SendTo::Kids(set, _, _) | SendTo::Others(set, _, _) => set,
        _ => StatusSet(0),
    }
}

/// The id that a rule takes from its parent.
fn taken_from_parent(rule: &Rule) -> Option<MsgId>
    ensures { result ≡ taken_from_parent rule.now }
{
    match rule.take {
        Take::Parent(id) => Some(id),
        _ => None,
    }
}

impl<'a> Turn<'a> {
    /// What a rule does that answers the parent at once.
    pub(crate) fn alone(rule: &'a Rule) -> Turn<'a>
        ensures { result ≡ turn_of (alone rule.now) }
    {
        Turn {
            first: rule.guard.as_slice(),
            second: &[],
            asked: None,
            passes_on: false,
            targets: StatusSet(0),
            sets: rule.sets.as_slice(),
        }
    }

    /// What a rule that passes the parent's request on does with one that then answers it.
    pub(crate) fn pair(passing: &'a Rule, answering: &'a Rule) -> Turn<'a>
        ensures { result ≡ turn_of (pair passing.now answering.now) }
    {
        Turn {
            first: passing.guard.as_slice(),
            second: answering.guard.as_slice(),
            asked: taken_from_parent(passing),
            passes_on: true,
            targets: targets_of(passing.send),
            sets: answering.sets.as_slice(),
        }
    }
}

/// Whether a set sets the value to another one.
fn is_new_val(set: Assign) -> bool
    ensures { result ≡ is_new_val set }
{
    match set {
        Assign::Val(value) => value != Value::Val,
        _ => false,
    }
}

/// Whether some set sets the value to another one.
pub(crate) fn sets_val(sets: &[Assign]) -> bool
    ensures { result ≡ list_any is_new_val sets.now }
{
    sets.iter().any(|set| is_new_val(*set))
}

/// Whether the rule sends its value.
pub(crate) fn sends_val(rule: &Rule) -> bool
    ensures { result ≡ sends_val rule.now }
{
    match rule.send {
        SendTo::Nothing => false,
        SendTo::Me(_, value)
        | SendTo::Parent(_, value)
        | SendTo::Kids(_, _, value)
        | SendTo::Others(_, _, value) => value == Value::Val,
    }
}
