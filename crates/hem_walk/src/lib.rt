//! One thread to the end: the one history that a single thread makes from a seed.
#![tactic(auto)]

mod firsts;
mod marks;
mod near;
mod ready;
mod turns;
mod whole;
mod working;

pub use firsts::is_open;
pub use whole::{Walked, walk};
