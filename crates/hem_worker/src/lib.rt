//! An object on all its lines: its firings there, and what they are of the whole.
#![tactic(auto)]

mod edge;
mod laws;
mod rounds;
mod worker;

pub use edge::settle_edge;
pub use laws::{stuck_lines_are_hindered, turns_lengthen_parts};
pub use worker::Worker;
