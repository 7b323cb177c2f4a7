//! Choosing a firing.

ghost use Rattle.std.specs.Prelude.{◌≡◌, ◌≤◌, None, Some, length, map};
ghost use Rattle.std.specs.Prelude.{not, ◌||◌};
ghost use Rattle.std.specs.List.{list_all, enumerate_from};
ghost use Rattle.hem_base.specs.Sets.{has_bit};
ghost use Rattle.hem_system.specs.Ended.{takes_nothing};
ghost use Rattle.hem_choice.specs.Choices.{message_in, heads_of, may_send, is_spent, choice_by, choice_with, choice_below, choice_of, chosen};

use crate::firsts::names_child;
use crate::stamps::{request_of, stamp_after};
use arrayvec::ArrayVec;
use hem_base::{Carried, KidSet, Kind, Message};
use hem_ends::{KidLook, Look};
use hem_fire::{Heads, Plan, To};
use hem_object::Local;
use hem_syntax::{Protocol, Rule, Take};
use std::marker::Model;

/// A firing that may be made: its rule, the place of the child that it names, its plan and its stamp.
#[derive(Drop)]
pub struct Choice<'p> {
    pub rule: &'p Rule,
    pub me: Option<u8>,
    pub plan: Plan,
    pub stamp: u64,
}

impl<'p> Model for Choice<'p> {
    ghost use Rattle.hem_choice.specs.Choices.{Choice as Seen};

    ghost Value = { Seen };

    ghost view = { λ c. record { rule = c.rule.now; me = c.me; plan = c.plan; stamp = c.stamp } };
}

/// What an object chooses by on a line, beside its local state.
#[derive(Drop)]
pub struct Sight<'a> {
    /// The first request of the processor, where there is one.
    pub asked: Option<Message>,
    /// What is known of the edges.
    pub look: &'a Look,
    /// Whether all self firings are made.
    pub spent: bool,
    /// The last stamp.
    pub last: u64,
}

impl<'a> Model for Sight<'a> {
    ghost use Rattle.hem_choice.specs.Choices.{Sight as Seen};

    ghost Value = { Seen };

    ghost view = { λ s. record { asked = s.asked; look = s.look.now; spent = s.spent; last = s.last } };
}

/// The message of what was carried.
pub(crate) fn message_in(carried: Option<Carried>) -> Option<Message>
    ensures { result ≡ message_in carried }
{
    carried.map(|carried| carried.message)
}

/// Whether a rule takes nothing.
fn takes_nothing(take: Take) -> bool
    ensures { result ≡ takes_nothing take }
{
    matches!(take, Take::Nothing)
}

/// Puts the messages of the first responses of all children into `heads`.
fn put_responses(kids: &[KidLook], heads: &mut ArrayVec<Option<Message>, 8>)
    requires { length kids.now ≤ 8 }
    ensures { heads.new.items ≡ map (λ kid. message_in kid.response) kids.now }
{
    heads.clear();
    for kid in kids {
        heads.push(message_in(kid.response));
    }
}

/// Whether a slot is reserved for a message to each child in the set.
fn are_open(kids: &[KidLook], set: KidSet) -> bool
    ensures { result ≡ list_all (λ k. not (has_bit set.0 k.0) || k.1.is_open) (enumerate_from 0 kids.now) }
{
    kids.iter()
        .enumerate()
        .all(|(place, kid)| !set.has(place) || kid.is_open)
}

/// Whether a slot is reserved wherever a message goes.
fn may_send(look: &Look, to: To) -> bool
    ensures { result ≡ may_send look.now to }
{
    match to {
        To::Nobody | To::Answer => true,
        To::UpRequest => look.up_request,
        To::UpResponse => look.up_response,
        To::Kid(place) => match look.kids.get(usize::from(place)) {
            Some(kid) => kid.is_open,
            None => false,
        },
        To::Kids(set) => are_open(look.kids.as_slice(), set),
    }
}

impl<'a> Sight<'a> {
    /// Whether a rule takes nothing, and all self firings are made.
    fn is_spent(&self, take: Take) -> bool
        ensures { result ≡ is_spent self.now take }
    {
        self.spent && takes_nothing(take)
    }

    /// Puts the heads of the lists of a firing that names this child into `heads`.
    fn put_heads(&self, me: Option<u8>, heads: &mut Heads)
        ensures { heads.new ≡ heads_of self.now me }
    {
        let look = self.look;
        heads.request = match me {
            Some(_) => message_in(request_of(look, me)),
            None => self.asked,
        };
        heads.parent = message_in(look.parent);
        put_responses(look.kids.as_slice(), &mut heads.kids);
    }

    /// The firing of a rule by a plan, where it may be made.
    #[inline(always)]
    fn choose_by<'p>(&self, rule: &'p Rule, me: Option<u8>, plan: Plan) -> Option<Choice<'p>>
        ensures { result ≡ choice_by self.now rule.now me plan }
    {
        if !may_send(self.look, plan.outs.to) {
            return None;
        }
        match stamp_after(self.last, self.look, me, &plan.outs) {
            Some(stamp) => Some(Choice {
                rule,
                me,
                plan,
                stamp,
            }),
            None => None,
        }
    }

    /// The firing of a rule that names this child, where it may be made.
    #[inline(always)]
    fn choose_with<'p>(
        &self,
        p: &Protocol,
        kind: Kind,
        local: &Local,
        rule: &'p Rule,
        me: Option<u8>,
    ) -> Option<Choice<'p>>
        ensures { result ≡ choice_with p.now kind local.now self.now rule.now me }
    {
        if self.is_spent(rule.take) {
            return None;
        }
        let mut heads = Heads {
            request: None,
            parent: None,
            kids: ArrayVec::new(),
        };
        self.put_heads(me, &mut heads);
        match Plan::of(p, kind, rule, me, local, &heads) {
            Some(plan) => self.choose_by(rule, me, plan),
            None => None,
        }
    }

    /// The same with no child named: what the firing asks first is tried before all else.
    fn choose_alone<'p>(
        &self,
        p: &Protocol,
        kind: Kind,
        local: &Local,
        rule: &'p Rule,
    ) -> Option<Choice<'p>>
        ensures { result ≡ choice_with p.now kind local.now self.now rule.now None }
    {
        if !self.asks_alone(rule.take) {
            return None;
        }
        self.choose_with(p, kind, local, rule, None)
    }

    /// The same of the child at a place.
    fn choose_for<'p>(
        &self,
        p: &Protocol,
        kind: Kind,
        local: &Local,
        rule: &'p Rule,
        place: u8,
    ) -> Option<Choice<'p>>
        ensures { result ≡ choice_with p.now kind local.now self.now rule.now (Some place) }
    {
        if !self.asks_child(rule.take, place) {
            return None;
        }
        self.choose_with(p, kind, local, rule, Some(place))
    }

    /// The first firing of a rule that may be made and names a child.
    fn choose_below<'p>(
        &self,
        p: &Protocol,
        kind: Kind,
        local: &Local,
        rule: &'p Rule,
    ) -> Option<Choice<'p>>
        requires { length self.now.look.kids ≤ 8 }
        ensures { result ≡ choice_below p.now kind local.now self.now rule.now }
    {
        if !names_child(rule.take) {
            return None;
        }
        let look = self.look;
        for place in 0..look.kids.len() {
            if let Some(choice) = self.choose_for(p, kind, local, rule, place as u8) {
                return Some(choice);
            }
        }
        None
    }

    /// The first firing of a rule that may be made: with no child named, or else with the first child.
    #[inline(never)]
    fn choose_any<'p>(
        &self,
        p: &Protocol,
        kind: Kind,
        local: &Local,
        rule: &'p Rule,
    ) -> Option<Choice<'p>>
        requires { length self.now.look.kids ≤ 8 }
        ensures { result ≡ choice_of p.now kind local.now self.now rule.now }
    {
        match self.choose_alone(p, kind, local, rule) {
            Some(choice) => Some(choice),
            None => self.choose_below(p, kind, local, rule),
        }
    }

    /// The same: what all firings of a rule ask first is tried before all else.
    #[inline(always)]
    fn choose_of<'p>(
        &self,
        p: &Protocol,
        kind: Kind,
        local: &Local,
        rule: &'p Rule,
    ) -> Option<Choice<'p>>
        requires { length self.now.look.kids ≤ 8 }
        ensures { result ≡ choice_of p.now kind local.now self.now rule.now }
    {
        if !self.may_try(local, rule) {
            return None;
        }
        self.choose_any(p, kind, local, rule)
    }

    /// The first firing that may be made, in the order of the rules: one that is possible with what is known, with a slot
    /// reserved wherever it sends, that isn't spent, and whose stamp isn't past the greatest.
    pub fn choose<'p>(&self, p: &'p Protocol, kind: Kind, local: &Local) -> Option<Choice<'p>>
        requires { length self.now.look.kids ≤ 8 }
        ensures { result ≡ chosen p.now kind local.now self.now }
    {
        let rules = p.rules(kind);
        for rule in rules {
            if let Some(choice) = self.choose_of(p, kind, local, rule) {
                return Some(choice);
            }
        }
        None
    }
}
