//! The numbers that the messages of one list carry.

ghost use Rattle.std.specs.Prelude.{◌≡◌, [], ◌∷◌, ◌++◌, drop, slice_get, OnOk};

use hem_base::OutOfMemory;
use std::alloc::Global;
use std::collections::VecDeque;
use std::marker::Model;

/// The numbers that the messages of one list carry, head first. A message carries the number of the transaction of the
/// firing that sent it.
#[derive(Drop)]
pub(crate) struct NumberQueue {
    numbers: VecDeque<usize>,
}

impl Model for NumberQueue {
    ghost use Rattle.std.specs.Prelude.{ℕ, List};

    ghost Value = { List ℕ };

    ghost view = { λ q. q.numbers.items };
}

impl NumberQueue {
    /// No message. It takes no memory.
    pub(crate) fn new(alloc: Global) -> NumberQueue
        ensures { result ≡ [] }
    {
        NumberQueue {
            numbers: VecDeque::new(alloc),
        }
    }

    /// The first message's number, where there is a message.
    pub(crate) fn first(&self) -> Option<usize>
        ensures { result ≡ slice_get self.now 0 }
    {
        self.numbers.front().copied()
    }

    /// Takes the first message, where there is one.
    pub(crate) fn take(&mut self)
        ensures { self.new ≡ drop 1 self.old }
    {
        let _number = self.numbers.pop_front();
    }

    /// Puts a message with that number at the end.
    pub(crate) fn put(&mut self, number: usize) -> Result<(), OutOfMemory>
        ensures { OnOk result (self.new ≡ self.old ++ number ∷ []) }
    {
        self.numbers.push_back(number)?;
        Ok(())
    }
}
