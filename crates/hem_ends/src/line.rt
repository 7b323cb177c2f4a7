//! All ends of an object on a line.

ghost use Rattle.std.specs.Prelude.{◌≡◌, ◌≤◌, length, [], None, false};
ghost use Rattle.hem_ends.specs.Ends.{look_of, head_of, goes_up_request, goes_up_response, IsPeeked, IsReserved, IsTaken, IsGiven, IsAsked, HasHead, HoldsSlot, IfThere, BothOrNeither, IsLooked, HasHeads, AreTaken, HoldsSlots, AreGiven};
ghost use Rattle.std.specs.Option.{option_map_or};

use crate::kids::{KidEnds, KidLook, look_at_all, put_if, put_to_all, take_from_all, take_if};
use arrayvec::ArrayVec;
use hem_base::{Carried, KidSet, List};
use hem_fire::To;
use hem_wire::{Net, Receiver, Rx, Sender, Tx};
use std::marker::Model;

/// The ends that an object has on a line.
#[derive(Drop)]
pub struct LineEnds<N: Net> {
    /// Where requests to the parent go; `None` at the root.
    pub up_requests: Option<Sender<N::Out>>,
    /// Where responses to the parent go; `None` at the root.
    pub up_responses: Option<Sender<N::Out>>,
    /// Where the parent's messages come from; `None` at the root.
    pub down: Option<Receiver<N::In>>,
    /// The ends of the edge to each child, in order.
    pub kids: List<KidEnds<N>>,
}

impl<N: Net> Model for LineEnds<N> {
    ghost use Rattle.hem_ends.specs.Ends.{Ends};

    ghost Value = { Ends };

    ghost view = { λ a. record { up_requests = a.up_requests; up_responses = a.up_responses; down = a.down; kids = a.kids } };
}

/// What an object knows of its edges on a line.
#[derive(Drop)]
pub struct Look {
    /// The first of the parent's messages, where one is known.
    pub parent: Option<Carried>,
    /// Whether a slot for a request to the parent is reserved.
    pub up_request: bool,
    /// Whether a slot for a response to the parent is reserved.
    pub up_response: bool,
    /// What is known of the edge to each child, in order.
    pub kids: ArrayVec<KidLook, 8>,
}

impl Model for Look {
    ghost use Rattle.hem_ends.specs.Ends.{Look as Seen};

    ghost Value = { Seen };

    ghost view = { λ a. record { parent = a.parent; up_request = a.up_request; up_response = a.up_response; kids = a.kids.items } };
}

impl Look {
    /// Nothing is known of any edge.
    pub fn new() -> Look
        ensures { result ≡ record { parent = None; up_request = false; up_response = false; kids = [] } }
    {
        Look {
            parent: None,
            up_request: false,
            up_response: false,
            kids: ArrayVec::new(),
        }
    }
}

/// The first known message of an end, where the end is there.
fn peek_there<I: Rx>(end: &mut Option<Receiver<I>>) -> Option<Carried>
    ensures looked { BothOrNeither IsPeeked end.old end.new }
    ensures seen { result ≡ option_map_or head_of end.new None }
{
    match end {
        Some(end) => end.peek(),
        None => None,
    }
}

/// Reserves a slot of an end, where the end is there and knows of a free one.
fn reserve_there<O: Tx>(end: &mut Option<Sender<O>>) -> bool
    ensures looked { BothOrNeither IsReserved end.old end.new }
    ensures seen { result ≡ option_map_or (λ giving. giving.reserved) end.new false }
    ensures asked { IfThere IsAsked end.new }
{
    match end {
        Some(end) => end.reserve(),
        None => false,
    }
}

/// Takes the first known message of an end, where the end is there and that is wanted.
fn take_there<I: Rx>(end: &mut Option<Receiver<I>>, wanted: bool)
    requires { IfThere (HasHead wanted) end.old }
    ensures { BothOrNeither (IsTaken wanted) end.old end.new }
{
    if let Some(end) = end {
        take_if(end, wanted);
    }
}

/// Puts a message into the reserved slot of an end, where the end is there and that is wanted.
fn put_there<O: Tx>(end: &mut Option<Sender<O>>, wanted: bool, c: Carried)
    requires { IfThere (HoldsSlot wanted) end.old }
    ensures { BothOrNeither (IsGiven wanted c) end.old end.new }
{
    if let Some(end) = end {
        put_if(end, wanted, c);
    }
}

/// Whether a message goes up as a request.
fn goes_up_request(to: To) -> bool
    ensures { result ≡ goes_up_request to }
{
    matches!(to, To::UpRequest)
}

/// Whether a message goes up as a response.
fn goes_up_response(to: To) -> bool
    ensures { result ≡ goes_up_response to }
{
    matches!(to, To::UpResponse)
}

impl<N: Net> LineEnds<N> {
    /// Puts into `look` what is known of all edges. It reserves a slot of each sending end that knows of a free one.
    pub fn look(&mut self, look: &mut Look)
        requires { length self.old.kids ≤ 8 }
        ensures looked { IsLooked self.old self.new }
        ensures seen { look.new ≡ look_of self.new }
    {
        look.parent = peek_there(&mut self.down);
        look.up_request = reserve_there(&mut self.up_requests);
        look.up_response = reserve_there(&mut self.up_responses);
        look_at_all(&mut self.kids, &mut look.kids);
    }

    /// Takes the parent's first message where that is wanted, the first request of the named child, and the first response
    /// of each child in the set.
    pub fn take(&mut self, parent: bool, me: Option<u8>, responses: KidSet)
        requires { HasHeads parent me responses self.old }
        ensures { AreTaken parent me responses self.old self.new }
    {
        take_there(&mut self.down, parent);
        take_from_all(&mut self.kids, me, responses);
    }

    /// Sends a message to where it goes.
    pub fn put(&mut self, to: To, c: Carried)
        requires { HoldsSlots to self.old }
        ensures { AreGiven to c self.old self.new }
    {
        put_there(&mut self.up_requests, goes_up_request(to), c);
        put_there(&mut self.up_responses, goes_up_response(to), c);
        put_to_all(&mut self.kids, to, c);
    }
}
