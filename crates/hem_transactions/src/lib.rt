//! The numbers of a history's transactions, found as the history is replayed.
#![tactic(auto)]

mod history;
mod lane;
mod line;
mod lines;
mod queue;
mod replay;

pub use history::transactions;
pub use replay::{NumberedRun, numbered_replay};
