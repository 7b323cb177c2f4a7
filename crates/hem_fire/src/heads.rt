//! The heads of an object's input lists, and which of them a rule takes.

ghost use Rattle.std.specs.Prelude.{◌≡◌, slice_get, option_and_then};
ghost use Rattle.std.specs.List.{list_all, list_any, enumerate_from};
ghost use Rattle.hem_base.specs.Sets.{has_bit};
ghost use Rattle.hem_fire.specs.Heads.{has_id, awaited_of, heads_at, takes_there};
ghost use Rattle.hem_fire.specs.View.{value_in};

use arrayvec::ArrayVec;
use hem_base::{KidSet, Message, MsgId};
use hem_object::Local;
use hem_syntax::Take;
use std::marker::Model;

/// The heads of an object's input lists: what a firing may take.
#[derive(Drop)]
pub struct Heads {
    /// The head of the requests of the child that the firing names; on a leaf, of the processor's requests.
    pub request: Option<Message>,
    /// The head of the parent's messages.
    pub parent: Option<Message>,
    /// The head of each child's responses, by the child's place; `None` where a child has sent none.
    pub kids: ArrayVec<Option<Message>, 8>,
}

impl Model for Heads {
    ghost use Rattle.hem_fire.specs.Heads.{Heads as Seen};

    ghost Value = { Seen };

    ghost view = { λ a. record { request = a.request; parent = a.parent; kids = a.kids.items } };
}

/// Whether a message is there and has the id.
fn has_id(message: Option<Message>, id: MsgId) -> bool
    ensures { result ≡ has_id message id }
{
    match message {
        Some(message) => message.id == id,
        None => false,
    }
}

/// The children that the downlock awaits.
pub fn awaited_of(local: &Local) -> KidSet
    ensures { result ≡ awaited_of local.now }
{
    match local.down {
        Some(lock) => lock.awaited,
        None => KidSet(0),
    }
}

/// The value of a message, where there is one.
pub(crate) fn value_in(message: Option<Message>) -> Option<u64>
    ensures { result ≡ value_in message }
{
    message.map(|message| message.value)
}

impl Heads {
    /// Whether some child is awaited.
    fn awaits_some(&self, awaited: KidSet) -> bool
        ensures { result ≡ list_any (λ k. has_bit awaited.0 k.0) (enumerate_from 0 self.now.kids) }
    {
        self.kids
            .iter()
            .enumerate()
            .any(|(place, _)| awaited.has(place))
    }

    /// Whether the response of each awaited child is there and has the id.
    fn responses_there(&self, awaited: KidSet, id: MsgId) -> bool
        ensures { result ≡ list_all (λ k. has_id k.1 id) (heads_at awaited self.now) }
    {
        self.kids
            .iter()
            .enumerate()
            .filter(|(place, _)| awaited.has(*place))
            .all(|(_, head)| has_id(*head, id))
    }

    /// The value of the response of the least awaited child.
    pub(crate) fn first_response(&self, awaited: KidSet) -> Option<u64>
        ensures { result ≡ option_and_then (λ k. value_in k.1) (slice_get (heads_at awaited self.now) 0) }
    {
        for (place, head) in self.kids.iter().enumerate() {
            if awaited.has(place) {
                return value_in(*head);
            }
        }
        None
    }

    /// Whether the messages that a rule takes are there.
    pub(crate) fn takes_there(&self, take: Take, local: &Local) -> bool
        ensures { result ≡ takes_there take local.now self.now }
    {
        match take {
            Take::Me(id) => has_id(self.request, id),
            Take::Parent(id) => has_id(self.parent, id),
            Take::Kids(id) => {
                let awaited = awaited_of(local);
                self.awaits_some(awaited) && self.responses_there(awaited, id)
            }
            Take::Nothing => true,
        }
    }
}
