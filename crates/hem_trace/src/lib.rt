//! Histories: their events, the numbers of their transactions, their blocks and orders.
#![tactic(auto)]

mod block;
mod laws;

pub use block::Block;
pub use laws::numbers_are_those_of_senders;
