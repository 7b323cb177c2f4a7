//! What is still to come.

ghost use Rattle.std.specs.Prelude.{◌≡◌, ◌<◌, ◌≤◌, [], ◌++◌, length, drop, slice_get, OnOk, Some, IsTrue, ◌↔◌};

use crate::Symbol;
use hem_base::OutOfMemory;
use std::alloc::Global;
use std::marker::Model;

/// The symbols that are still to come, the next one first.
#[derive(Debug, Drop)]
pub struct Stack<T, I> {
    items: Vec<Symbol<T, I>>,
}

impl<T, I> Model for Stack<T, I> {
    ghost use Rattle.std.specs.Prelude.{List as Sequence, reverse};
    ghost use Rattle.hem_text.specs.declared.symbol.Symbol.{Symbol};

    ghost Value = { Sequence (Symbol T I) };

    ghost view = { λ s. reverse s.items.items };
}

impl<T: Copy, I: Copy> Stack<T, I> {
    pub fn new(alloc: Global) -> Stack<T, I>
        ensures { result ≡ [] }
    {
        Stack {
            items: Vec::new(alloc),
        }
    }

    pub fn len(&self) -> usize
        ensures { result ≡ length self.now }
    {
        self.items.len()
    }

    pub fn is_empty(&self) -> bool
        ensures { IsTrue result ↔ (self.now ≡ []) }
    {
        self.items.is_empty()
    }

    /// The symbol at a place, from the next one on.
    pub fn at(&self, place: usize) -> Symbol<T, I>
        requires { place < length self.now }
        ensures { slice_get self.now place ≡ Some result }
    {
        let last = self.items.len() - 1;
        self.items[last - place]
    }

    /// Lets go of the first symbols.
    pub fn pass(&mut self, count: usize)
        requires { count ≤ length self.old }
        ensures { self.new ≡ drop count self.old }
    {
        let left = self.items.len() - count;
        self.items.truncate(left);
    }

    /// Puts symbols in front.
    pub fn put(&mut self, symbols: &[Symbol<T, I>]) -> Result<(), OutOfMemory>
        ensures { OnOk result (self.new ≡ symbols.now ++ self.old) }
    {
        for i in 0..symbols.len() {
            self.items.push(symbols[symbols.len() - 1 - i])?;
        }
        Ok(())
    }
}
