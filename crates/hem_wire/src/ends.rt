//! What is known of the two ends of a channel.

ghost use Rattle.std.specs.Prelude.{◌≡◌, ℕ, ◌+◌, ◌≤◌, ◌<◌, Bool, true, false, List, [], ◌∷◌, ◌++◌, length, IsTrue, IsFalse, IfOk, slice_get};
ghost use mathlib.Core.List.{IsPrefix};
ghost use Rattle.hem_base.specs.declared.ids.Carried.{Carried as Item};
ghost use Rattle.hem_wire.specs.Channel.{Channel, open_slots, IsSettled};

use hem_base::{Carried, OutOfMemory};
use std::alloc::Global;

/// The end of a channel that sends. What the other end does it may learn at any call, and it has learned all of it where
/// both ends are settled.
pub trait Tx {
    /// Its channel, which no call changes.
    ghost channel: { Self → Channel };

    /// All that was put, oldest first.
    ghost sent: { Self → List Item };

    /// How many free slots it knows of, beside a reserved one.
    ghost free: { Self → ℕ };

    /// Whether a slot is reserved.
    ghost reserved: { Self → Bool };

    /// Whether nothing was asked of it since the last settle.
    ghost fresh: { Self → Bool };

    /// Reserves a slot, where one is reserved already or known to be free. A reserved slot stays so until `put` fills it.
    fn reserve(&mut self) -> bool
        ensures channel { channel self.new ≡ channel self.old }
        ensures sent { sent self.new ≡ sent self.old }
        ensures answer { result ≡ reserved self.new }
        ensures none_free { IsFalse result → free self.new ≡ 0 }
        ensures held { IsTrue (reserved self.old) → IsTrue result × (free self.new ≡ free self.old) }
        ensures exact { IsTrue (fresh self.old) → open_slots (free self.new) (reserved self.new) ≡ open_slots (free self.old) (reserved self.old) }
        ensures forgets_none { open_slots (free self.old) (reserved self.old) ≤ open_slots (free self.new) (reserved self.new) };

    /// Puts a message into the reserved slot.
    fn put(&mut self, c: Carried)
        requires { IsTrue (reserved self.old) }
        ensures channel { channel self.new ≡ channel self.old }
        ensures sent { sent self.new ≡ sent self.old ++ c ∷ [] }
        ensures given_up { IsFalse (reserved self.new) }
        ensures forgets_none { free self.old ≤ free self.new };
}

/// The end of a channel that receives. What the other end does it may learn at any call, and it has learned all of it
/// where both ends are settled.
pub trait Rx {
    /// Its channel, which no call changes.
    ghost channel: { Self → Channel };

    /// All that was taken, oldest first.
    ghost received: { Self → List Item };

    /// The messages that it knows to wait, oldest first.
    ghost known: { Self → List Item };

    /// Whether nothing was asked of it since the last settle.
    ghost fresh: { Self → Bool };

    /// The first message that waits, where the end knows of one.
    fn peek(&mut self) -> Option<Carried>
        ensures channel { channel self.new ≡ channel self.old }
        ensures received { received self.new ≡ received self.old }
        ensures first { result ≡ slice_get (known self.new) 0 }
        ensures exact { IsTrue (fresh self.old) → known self.new ≡ known self.old }
        ensures forgets_none { IsPrefix (known self.old) (known self.new) };

    /// Takes the first message that waits.
    fn take(&mut self) -> Carried
        requires { 0 < length (known self.old) }
        ensures channel { channel self.new ≡ channel self.old }
        ensures received { received self.new ≡ received self.old ++ result ∷ [] }
        ensures forgets_none { IsPrefix (known self.old) (result ∷ known self.new) };
}

/// What makes channels, and settles their ends once both are in one thread.
pub trait Net {
    type Out: Tx + Send + Drop;

    type In: Rx + Send + Drop;

    /// The two ends of a new channel with room for so many messages.
    fn pair(&mut self, alloc: Global, slots: usize) -> Result<(Self::Out, Self::In), OutOfMemory>
        requires { 0 < slots }
        ensures channel { IfOk result (λ r. Self.Out.channel r.0 ≡ Self.In.channel r.1) }
        ensures slots { IfOk result (λ r. (Self.Out.channel r.0).slots ≡ slots) }
        ensures sends { IfOk result (λ r. (Self.Out.sent r.0 ≡ []) × (Self.Out.reserved r.0 ≡ false) × (Self.Out.free r.0 ≡ slots)) }
        ensures receives { IfOk result (λ r. (Self.In.received r.1 ≡ []) × (Self.In.known r.1 ≡ [])) };

    /// Settles the two ends of one channel: each then knows all that the other did. So `peek`, asked first after it, is
    /// `None` exactly where nothing waits, and `reserve` is false exactly where the channel is full.
    fn settle(&mut self, tx: &mut Self::Out, rx: &mut Self::In)
        requires { Self.Out.channel tx.old ≡ Self.In.channel rx.old }
        ensures tx_channel { Self.Out.channel tx.new ≡ Self.Out.channel tx.old }
        ensures rx_channel { Self.In.channel rx.new ≡ Self.In.channel rx.old }
        ensures sent { Self.Out.sent tx.new ≡ Self.Out.sent tx.old }
        ensures received { Self.In.received rx.new ≡ Self.In.received rx.old }
        ensures reserved { Self.Out.reserved tx.new ≡ Self.Out.reserved tx.old }
        ensures settled { IsSettled (Self.Out.channel tx.new).slots (Self.Out.sent tx.new) (Self.Out.free tx.new) (Self.Out.reserved tx.new) (Self.In.received rx.new) (Self.In.known rx.new) }
        ensures fresh { IsTrue (Self.Out.fresh tx.new) × IsTrue (Self.In.fresh rx.new) }
        ensures slots_kept { Self.Out.free tx.old ≤ Self.Out.free tx.new }
        ensures items_kept { IsPrefix (Self.In.known rx.old) (Self.In.known rx.new) };
}
