//! What an object keeps of a line: its guards and values, and what a firing sets, locks and frees. No call takes memory.
#![tactic(auto)]

mod assign;
mod guard;
mod kids;
mod local;
mod state;

pub use local::Local;
pub use state::{By, Lock, View};
