//! Ends that contracts see as plain data.

ghost use Rattle.std.specs.Prelude.{◌≡◌, ◌+◌, ◌≤◌, ◌<◌, [], ◌∷◌, ◌++◌, length, IsTrue, IsFalse, slice_get};
ghost use mathlib.Core.List.{IsPrefix};
ghost use Rattle.hem_wire.specs.Channel.{open_slots, IsSettled};

use crate::ends::{Net, Rx, Tx};
use hem_base::Carried;
use std::marker::Model;

/// A sending end. A worker's contracts speak of it as plain data.
#[derive(Drop)]
pub struct Sender<O: Tx> {
    end: O,
}

impl<O: Tx> Model for Sender<O> {
    ghost use Rattle.hem_wire.specs.Seen.{Giving};

    ghost Value = { Giving };

    ghost view = { λ s. record { channel = O.channel s.end; sent = O.sent s.end; free = O.free s.end; reserved = O.reserved s.end } };
}

impl<O: Tx> Sender<O> {
    /// The end, seen so. It takes no memory.
    pub fn new(end: O) -> Sender<O>
        ensures channel { result.channel ≡ O.channel end }
        ensures sent { result.sent ≡ O.sent end }
        ensures free { result.free ≡ O.free end }
        ensures reserved { result.reserved ≡ O.reserved end }
    {
        Sender { end }
    }

    /// Reserves a slot, where one is reserved already or known to be free.
    pub fn reserve(&mut self) -> bool
        ensures channel { self.new.channel ≡ self.old.channel }
        ensures sent { self.new.sent ≡ self.old.sent }
        ensures answer { result ≡ self.new.reserved }
        ensures none_free { IsFalse result → self.new.free ≡ 0 }
        ensures held { IsTrue self.old.reserved → IsTrue result × (self.new.free ≡ self.old.free) }
        ensures forgets_none { open_slots self.old.free self.old.reserved ≤ open_slots self.new.free self.new.reserved }
    {
        self.end.reserve()
    }

    /// Puts a message into the reserved slot.
    pub fn put(&mut self, c: Carried)
        requires { IsTrue self.old.reserved }
        ensures channel { self.new.channel ≡ self.old.channel }
        ensures sent { self.new.sent ≡ self.old.sent ++ c ∷ [] }
        ensures given_up { IsFalse self.new.reserved }
        ensures forgets_none { self.old.free ≤ self.new.free }
    {
        self.end.put(c);
    }
}

/// A receiving end. A worker's contracts speak of it as plain data.
#[derive(Drop)]
pub struct Receiver<I: Rx> {
    end: I,
}

impl<I: Rx> Model for Receiver<I> {
    ghost use Rattle.hem_wire.specs.Seen.{Getting};

    ghost Value = { Getting };

    ghost view = { λ r. record { channel = I.channel r.end; received = I.received r.end; known = I.known r.end } };
}

impl<I: Rx> Receiver<I> {
    /// The end, seen so. It takes no memory.
    pub fn new(end: I) -> Receiver<I>
        ensures channel { result.channel ≡ I.channel end }
        ensures received { result.received ≡ I.received end }
        ensures known { result.known ≡ I.known end }
    {
        Receiver { end }
    }

    /// The first message that waits, where the end knows of one.
    pub fn peek(&mut self) -> Option<Carried>
        ensures channel { self.new.channel ≡ self.old.channel }
        ensures received { self.new.received ≡ self.old.received }
        ensures first { result ≡ slice_get self.new.known 0 }
        ensures forgets_none { IsPrefix self.old.known self.new.known }
    {
        self.end.peek()
    }

    /// Takes the first message that waits.
    pub fn take(&mut self) -> Carried
        requires { 0 < length self.old.known }
        ensures channel { self.new.channel ≡ self.old.channel }
        ensures received { self.new.received ≡ self.old.received ++ result ∷ [] }
        ensures forgets_none { IsPrefix self.old.known (result ∷ self.new.known) }
    {
        self.end.take()
    }
}

/// Settles the two ends of one channel: each then knows all that the other did.
pub fn settle<N: Net>(net: &mut N, tx: &mut Sender<N::Out>, rx: &mut Receiver<N::In>)
    requires { tx.old.channel ≡ rx.old.channel }
    ensures tx_channel { tx.new.channel ≡ tx.old.channel }
    ensures rx_channel { rx.new.channel ≡ rx.old.channel }
    ensures sent { tx.new.sent ≡ tx.old.sent }
    ensures received { rx.new.received ≡ rx.old.received }
    ensures reserved { tx.new.reserved ≡ tx.old.reserved }
    ensures settled { IsSettled tx.new.channel.slots tx.new.sent tx.new.free tx.new.reserved rx.new.received rx.new.known }
    ensures slots_kept { tx.old.free ≤ tx.new.free }
    ensures items_kept { IsPrefix rx.old.known rx.new.known }
{
    net.settle(&mut tx.end, &mut rx.end);
}
