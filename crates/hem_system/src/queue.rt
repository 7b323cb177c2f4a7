//! A list of messages that is taken from its front.

ghost use Rattle.std.specs.Prelude.{◌≡◌, [], ◌∷◌, ◌++◌, drop, cond, slice_get, true, IsTrue, IfOk, OnOk};

use hem_base::{Message, OutOfMemory};
use std::alloc::Global;
use std::marker::Model;

/// A list of messages that is taken from its front, each in constant time. The first `taken` are gone; where all are
/// gone none is kept.
#[derive(Drop)]
pub(crate) struct Queue {
    items: Vec<Message>,
    taken: usize,
}

impl Model for Queue {
    ghost use Rattle.std.specs.Prelude.{drop, nat_lt, ◌==◌, ◌||◌, IsTrue, length, vec_len, vec_capacity};
    ghost use Rattle.hem_system.specs.Queues.{Queue as Listed};

    ghost Value = { Listed };

    ghost view = { λ q. record { messages = drop q.taken q.items.items; room = nat_lt (vec_len q.items) (vec_capacity q.items) } };

    ghost invariant = { λ q. IsTrue (q.taken == 0 || nat_lt q.taken (length q.items.items)) };
}

impl Queue {
    /// The empty list. It takes no memory.
    pub(crate) fn new(alloc: Global) -> Queue
        ensures { result.messages ≡ [] }
    {
        Queue {
            items: Vec::new(alloc),
            taken: 0,
        }
    }

    /// The list of these messages.
    pub(crate) fn from_slice(alloc: Global, messages: &[Message]) -> Result<Queue, OutOfMemory>
        ensures { IfOk result (λ queue. queue.messages ≡ messages.now) }
    {
        let items = Vec::from_slice(alloc, messages)?;
        Ok(Queue { items, taken: 0 })
    }

    /// The messages that are left, in order.
    pub(crate) fn as_slice(&self) -> &[Message]
        ensures { result.now ≡ self.now.messages }
    {
        &self.items.as_slice()[self.taken..]
    }

    /// The first message, where there is one.
    pub(crate) fn first(&self) -> Option<Message>
        ensures { result ≡ slice_get self.now.messages 0 }
    {
        self.as_slice().first().copied()
    }

    /// Makes room for one message more, where that is wanted. Where it takes too much memory nothing changes.
    #[inline(always)]
    pub(crate) fn make_room(&mut self, wanted: bool) -> Result<(), OutOfMemory>
        ensures same { self.new.messages ≡ self.old.messages }
        ensures room { OnOk result (IsTrue (cond wanted self.new.room true)) }
    {
        if wanted {
            self.items.reserve(1)?;
        }
        Ok(())
    }

    /// Takes the first message, where there is one, and keeps the room.
    #[inline(never)]
    fn take(&mut self)
        ensures left { self.new.messages ≡ drop 1 self.old.messages }
        ensures room { self.old.room ≡ true → self.new.room ≡ true }
    {
        let some_left = self.items.len() - self.taken > 1;
        if some_left {
            self.taken += 1;
        } else {
            self.items.clear();
            self.taken = 0;
        }
    }

    /// Puts a message at the end.
    #[inline(never)]
    fn push(&mut self, message: Message)
        requires { self.old.room ≡ true }
        ensures { self.new.messages ≡ self.old.messages ++ message ∷ [] }
    {
        // There is room, so this isn't refused.
        let _ = self.items.push(message);
    }

    /// Takes the first message where that is wanted, and then puts one at the end where that is wanted.
    #[inline(always)]
    pub(crate) fn change(&mut self, takes: bool, sends: bool, message: Message)
        requires { IsTrue (cond sends self.old.room true) }
        ensures { self.new.messages ≡ drop (cond takes 1 0) self.old.messages ++ cond sends (message ∷ []) [] }
    {
        if takes {
            self.take();
        }
        if sends {
            self.push(message);
        }
    }
}
