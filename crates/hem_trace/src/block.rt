//! Blocks of a history.

use hem_base::{Firing, List};
use std::marker::Model;

/// A block: the number of its transaction, which is the place of the transaction's first firing in the history, and its
/// firings in order.
#[derive(Debug, Drop)]
pub struct Block {
    pub number: usize,
    pub firings: List<Firing>,
}

impl Model for Block {
    ghost use Rattle.hem_trace.specs.Blocks.{Block as Described};

    ghost Value = { Described };

    ghost view = { λ b. record { number = b.number; firings = b.firings } };
}
