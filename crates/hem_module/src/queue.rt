//! A list of messages that is taken from its front.

ghost use Rattle.std.specs.Prelude.{◌≡◌, [], ◌∷◌, ◌++◌, ◌-◌, drop, take, length, slice_get, IfOk, OnOk, OnErr};

use hem_base::{Message, OutOfMemory};
use std::alloc::Global;
use std::marker::Model;

/// A list of messages that is taken from its front, each in constant time. The first `taken` are gone; where all are
/// gone none is kept.
#[derive(Debug, Drop)]
pub(crate) struct Queue {
    items: Vec<Message>,
    taken: usize,
}

impl Model for Queue {
    ghost use Rattle.std.specs.Prelude.{List, drop, ◌≤◌, length};
    ghost use Rattle.hem_base.specs.declared.ids.Message.{Message};

    ghost Value = { List Message };

    ghost view = { λ q. drop q.taken q.items.items };

    ghost invariant = { λ q. q.taken ≤ length q.items.items };
}

impl Queue {
    /// The empty list. It takes no memory.
    pub(crate) fn new(alloc: Global) -> Queue
        ensures { result ≡ [] }
    {
        Queue {
            items: Vec::new(alloc),
            taken: 0,
        }
    }

    /// The list of these messages.
    pub(crate) fn from_slice(alloc: Global, messages: &[Message]) -> Result<Queue, OutOfMemory>
        ensures { IfOk result (λ queue. queue ≡ messages.now) }
    {
        let items = Vec::from_slice(alloc, messages)?;
        Ok(Queue { items, taken: 0 })
    }

    /// The messages that are left, in order.
    pub(crate) fn as_slice(&self) -> &[Message]
        ensures { result.now ≡ self.now }
    {
        &self.items.as_slice()[self.taken..]
    }

    /// Takes the first message, where there is one.
    pub(crate) fn take(&mut self)
        ensures { self.new ≡ drop 1 self.old }
    {
        let some_left = self.items.len() - self.taken > 1;
        if some_left {
            self.taken += 1;
        } else {
            self.items.clear();
            self.taken = 0;
        }
    }

    /// Puts a message at the end. Where memory is wanted the list stays as it was.
    pub(crate) fn push(&mut self, message: Message) -> Result<(), OutOfMemory>
        ensures ok { OnOk result (self.new ≡ self.old ++ message ∷ []) }
        ensures err { OnErr result (self.new ≡ self.old) }
    {
        self.items.push(message)?;
        Ok(())
    }

    /// Takes the last message back, where there is one.
    pub(crate) fn take_back(&mut self)
        ensures { self.new ≡ take (length self.old - 1) self.old }
    {
        if self.items.len() > self.taken {
            self.items.pop();
        }
    }
}
