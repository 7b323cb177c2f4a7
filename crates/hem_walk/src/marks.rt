//! Sets of positions.

ghost use Rattle.std.specs.Prelude.{◌≡◌, ◌<◌, ◌+◌, ◌/◌, ℕ, ◌==◌, ◌&&◌, ◌||◌, not, length, IfOk, IfSome, IfNone};
ghost use Rattle.hem_walk.specs.Marks.{is_in, HasBelow, IsNextIn, NoneFrom, IsLowest, NoBitFrom};

use hem_base::OutOfMemory;
use std::alloc::Global;
use std::marker::Model;

/// A set of positions, seen as its words: position n is bit n modulo 64 of word n / 64. Each of them fits a `usize`.
#[derive(Drop)]
pub(crate) struct Marks {
    words: Vec<u64>,
}

impl Model for Marks {
    ghost use Rattle.std.specs.Prelude.{ℕ, ◌≤◌, List, length};

    ghost Value = { List ℕ };

    ghost view = { λ m. m.words.items };

    ghost invariant = { λ m. length m.words.items ≤ 288230376151711744 };
}

/// The lowest bit of a word from one on.
fn lowest_bit(word: u64, from: usize) -> Option<usize>
    requires { from < 64 }
    ensures some { IfSome result (IsLowest word from) }
    ensures none { IfNone result (NoBitFrom word from) }
{
    let left = word & (u64::MAX << from);
    if left == 0 {
        None
    } else {
        Some(left.trailing_zeros() as usize)
    }
}

impl Marks {
    /// A set with all positions below the count.
    pub(crate) fn all(alloc: Global, count: usize) -> Result<Marks, OutOfMemory>
        ensures all { IfOk result (HasBelow count) }
        ensures size { IfOk result (λ marks. length marks ≡ count / 64 + 1) }
    {
        let words = vec![in alloc; u64::MAX; count / 64 + 1]?;
        Ok(Marks { words })
    }

    pub(crate) fn insert(&mut self, n: usize)
        requires { n / 64 < length self.old }
        ensures members { (m : ℕ) → is_in self.new m ≡ (m == n || is_in self.old m) }
        ensures size { length self.new ≡ length self.old }
    {
        self.words[n / 64] |= 1 << (n % 64);
    }

    pub(crate) fn remove(&mut self, n: usize)
        requires { n / 64 < length self.old }
        ensures members { (m : ℕ) → is_in self.new m ≡ (not (m == n) && is_in self.old m) }
        ensures size { length self.new ≡ length self.old }
    {
        self.words[n / 64] &= !(1 << (n % 64));
    }

    /// The first position of the set from one on.
    pub(crate) fn next(&self, from: usize) -> Option<usize>
        ensures some { IfSome result (IsNextIn self.now from) }
        ensures none { IfNone result (NoneFrom self.now from) }
    {
        let mut first = from % 64;
        for place in from / 64..self.words.len() {
            if let Some(bit) = lowest_bit(self.words[place], first) {
                return Some(64 * place + bit);
            }
            first = 0;
        }
        None
    }
}
