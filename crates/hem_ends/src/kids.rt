//! The ends of the edges to an object's children.

ghost use Rattle.std.specs.Prelude.{◌≡◌, ◌<◌, ◌≤◌, ℕ, Bool, true, length, map, slice_get, Some};
ghost use Rattle.hem_base.specs.Sets.{has_bit};
ghost use Rattle.hem_ends.specs.Ends.{Kid, kid_look, is_place, goes_down, IsTaken, IsGiven, HasHead, HoldsSlot, IsKidLooked, IsKidTaken, IsKidGiven, IsKidChanged, AreKids};

use arrayvec::ArrayVec;
use hem_base::{Carried, KidSet, List};
use hem_fire::To;
use hem_wire::{Net, Receiver, Rx, Sender, Tx};
use std::marker::Model;

/// The ends of the edge to a child on a line.
#[derive(Drop)]
pub struct KidEnds<N: Net> {
    /// Where the child's requests come from.
    pub requests: Receiver<N::In>,
    /// Where the child's responses come from.
    pub responses: Receiver<N::In>,
    /// Where messages to the child go.
    pub down: Sender<N::Out>,
}

impl<N: Net> Model for KidEnds<N> {
    ghost use Rattle.hem_ends.specs.Ends.{Kid};

    ghost Value = { Kid };

    ghost view = { λ a. record { requests = a.requests; responses = a.responses; down = a.down } };
}

/// What an object knows of the edge to a child.
#[derive(Clone, Copy, Debug, Default, PartialEq, Eq)]
pub struct KidLook {
    /// The first of the child's requests, where one is known.
    pub request: Option<Carried>,
    /// The first of the child's responses, where one is known.
    pub response: Option<Carried>,
    /// Whether a slot for a message to the child is reserved.
    pub is_open: bool,
}

/// Takes the first known message, where that is wanted.
pub(crate) fn take_if<I: Rx>(end: &mut Receiver<I>, wanted: bool)
    requires { HasHead wanted end.old }
    ensures { IsTaken wanted end.old end.new }
{
    if wanted {
        end.take();
    }
}

/// Puts a message into the reserved slot, where that is wanted.
pub(crate) fn put_if<O: Tx>(end: &mut Sender<O>, wanted: bool, c: Carried)
    requires { HoldsSlot wanted end.old }
    ensures { IsGiven wanted c end.old end.new }
{
    if wanted {
        end.put(c);
    }
}

impl<N: Net> KidEnds<N> {
    /// What is known of the edge. It reserves a slot, where one is free.
    fn look(&mut self) -> KidLook
        ensures looked { IsKidLooked self.old self.new }
        ensures seen { result ≡ kid_look self.new }
    {
        let request = self.requests.peek();
        let response = self.responses.peek();
        let is_open = self.down.reserve();
        KidLook {
            request,
            response,
            is_open,
        }
    }

    /// Takes the first request and the first response, where they are wanted.
    fn take(&mut self, request: bool, response: bool)
        requires request { HasHead request self.old.requests }
        requires response { HasHead response self.old.responses }
        ensures { IsKidTaken request response self.old self.new }
    {
        take_if(&mut self.requests, request);
        take_if(&mut self.responses, response);
    }

    /// Sends a message to the child, where that is wanted.
    fn put(&mut self, wanted: bool, c: Carried)
        requires { HoldsSlot wanted self.old.down }
        ensures { IsKidGiven wanted c self.old self.new }
    {
        put_if(&mut self.down, wanted, c);
    }
}

/// What is known of the edge to the child at a place.
fn look_at<N: Net>(kids: &mut List<KidEnds<N>>, place: usize) -> KidLook
    requires { place < length kids.old }
    ensures looked { IsKidChanged IsKidLooked place kids.old kids.new }
    ensures seen { (kid : Kid) → slice_get kids.new place ≡ Some kid → result ≡ kid_look kid }
{
    let kid = kids.at_mut(place);
    kid.look()
}

/// Puts into `looks` what is known of the edges to all children, in order.
pub(crate) fn look_at_all<N: Net>(kids: &mut List<KidEnds<N>>, looks: &mut ArrayVec<KidLook, 8>)
    requires { length kids.old ≤ 8 }
    ensures looked { AreKids (λ k. IsKidLooked) kids.old kids.new }
    ensures seen { looks.new.items ≡ map kid_look kids.new }
{
    looks.clear();
    for place in 0..kids.len() {
        looks.push(look_at(kids, place));
    }
}

/// Takes from the child at a place.
fn take_at<N: Net>(kids: &mut List<KidEnds<N>>, place: usize, request: bool, response: bool)
    requires there { place < length kids.old }
    requires request { (kid : Kid) → slice_get kids.old place ≡ Some kid → HasHead request kid.requests }
    requires response { (kid : Kid) → slice_get kids.old place ≡ Some kid → HasHead response kid.responses }
    ensures { IsKidChanged (IsKidTaken request response) place kids.old kids.new }
{
    let kid = kids.at_mut(place);
    kid.take(request, response);
}

/// Takes the first request of the named child, and the first response of each child in the set.
pub(crate) fn take_from_all<N: Net>(kids: &mut List<KidEnds<N>>, me: Option<u8>, responses: KidSet)
    requires request { (k : ℕ) (kid : Kid) → slice_get kids.old k ≡ Some kid → HasHead (is_place me k) kid.requests }
    requires responses { (k : ℕ) (kid : Kid) → slice_get kids.old k ≡ Some kid → HasHead (has_bit responses.0 k) kid.responses }
    ensures { AreKids (λ k. IsKidTaken (is_place me k) (has_bit responses.0 k)) kids.old kids.new }
{
    for place in 0..kids.len() {
        take_at(kids, place, is_place(me, place), responses.has(place));
    }
}

/// Sends a message to the child at a place, where that is wanted.
fn put_at<N: Net>(kids: &mut List<KidEnds<N>>, place: usize, wanted: bool, c: Carried)
    requires there { place < length kids.old }
    requires slot { (kid : Kid) → slice_get kids.old place ≡ Some kid → HoldsSlot wanted kid.down }
    ensures { IsKidChanged (IsKidGiven wanted c) place kids.old kids.new }
{
    let kid = kids.at_mut(place);
    kid.put(wanted, c);
}

/// Sends a message to each child to which it goes.
pub(crate) fn put_to_all<N: Net>(kids: &mut List<KidEnds<N>>, to: To, c: Carried)
    requires { (k : ℕ) (kid : Kid) → slice_get kids.old k ≡ Some kid → HoldsSlot (goes_down to k) kid.down }
    ensures { AreKids (λ k. IsKidGiven (goes_down to k) c) kids.old kids.new }
{
    for place in 0..kids.len() {
        put_at(kids, place, goes_down(to, place), c);
    }
}

/// Whether the named child is at this place.
fn is_place(me: Option<u8>, place: usize) -> bool
    ensures { result ≡ is_place me place }
{
    match me {
        Some(child) => usize::from(child) == place,
        None => false,
    }
}

/// Whether a message goes to the child at this place.
fn goes_down(to: To, place: usize) -> bool
    ensures { result ≡ goes_down to place }
{
    match to {
        To::Kid(child) => usize::from(child) == place,
        To::Kids(set) => set.has(place),
        To::Nobody | To::Answer | To::UpRequest | To::UpResponse => false,
    }
}
