//! What a firing asks first. It is cheap, and most rules fail it.

ghost use Rattle.std.specs.Prelude.{◌≡◌, ◌&&◌, ◌||◌};
ghost use Rattle.std.specs.List.{list_any};
ghost use Rattle.hem_fire.specs.Heads.{has_id};
ghost use Rattle.hem_walk.specs.Firsts.{is_open, names_child};
ghost use Rattle.hem_choice.specs.Choices.{message_in};
ghost use Rattle.hem_choice.specs.Firsts.{asks_alone, asks_child, asks_some_child};

use crate::choice::{Sight, message_in};
use crate::stamps::request_of;
use hem_base::{Message, MsgId};
use hem_ends::KidLook;
use hem_object::Local;
use hem_syntax::{Rule, Take};
use hem_walk::is_open;

/// Whether a message is there and has the id.
fn has_id(message: Option<Message>, id: MsgId) -> bool
    ensures { result ≡ has_id message id }
{
    match message {
        Some(message) => message.id == id,
        None => false,
    }
}

/// Whether a rule with that take names a child, on an object that has some.
pub(crate) fn names_child(take: Take) -> bool
    ensures { result ≡ names_child take }
{
    matches!(take, Take::Me(_))
}

/// Whether the first known request of a child has the id.
fn some_asks(kids: &[KidLook], id: MsgId) -> bool
    ensures { result ≡ list_any (λ kid. has_id (message_in kid.request) id) kids.now }
{
    kids.iter().any(|kid| has_id(message_in(kid.request), id))
}

/// Whether the first known response of a child has the id.
fn some_answers(kids: &[KidLook], id: MsgId) -> bool
    ensures { result ≡ list_any (λ kid. has_id (message_in kid.response) id) kids.now }
{
    kids.iter().any(|kid| has_id(message_in(kid.response), id))
}

impl<'a> Sight<'a> {
    /// Whether there is what a firing asks first that takes so and names no child.
    #[inline(always)]
    pub(crate) fn asks_alone(&self, take: Take) -> bool
        ensures { result ≡ asks_alone self.now take }
    {
        let look = self.look;
        match take {
            Take::Me(id) => has_id(self.asked, id),
            Take::Parent(id) => has_id(message_in(look.parent), id),
            Take::Kids(id) => some_answers(look.kids.as_slice(), id),
            Take::Nothing => !self.spent,
        }
    }

    /// Whether there is what a firing asks first that takes so and names the child at a place.
    #[inline(always)]
    pub(crate) fn asks_child(&self, take: Take, place: u8) -> bool
        ensures { result ≡ asks_child self.now take place }
    {
        match take {
            Take::Me(id) => has_id(message_in(request_of(self.look, Some(place))), id),
            _ => false,
        }
    }

    /// Whether there is what a firing asks first that takes so and names some child.
    #[inline(always)]
    fn asks_some_child(&self, take: Take) -> bool
        ensures { result ≡ asks_some_child self.now take }
    {
        let look = self.look;
        match take {
            Take::Me(id) => some_asks(look.kids.as_slice(), id),
            _ => false,
        }
    }

    /// Whether there is what a firing asks first that takes so, whomever it names.
    #[inline(always)]
    fn asks_any(&self, take: Take) -> bool
        ensures { result ≡ (asks_alone self.now take || asks_some_child self.now take) }
    {
        self.asks_alone(take) || self.asks_some_child(take)
    }

    /// Whether a firing of a rule has what it asks first, whomever it names, and the rule's locks and fields are as it needs
    /// them.
    #[inline(always)]
    pub(crate) fn may_try(&self, local: &Local, rule: &Rule) -> bool
        ensures { result ≡ ((asks_alone self.now rule.now.take || asks_some_child self.now rule.now.take) && is_open rule.now local.now) }
    {
        self.asks_any(rule.take) && is_open(rule, local)
    }
}
