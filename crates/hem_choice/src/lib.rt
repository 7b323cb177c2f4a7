//! Which firing an object makes next on a line, from what it keeps and what it knows of its edges.
#![tactic(auto)]

mod choice;
mod firsts;
mod stamps;

pub use choice::{Choice, Sight};
