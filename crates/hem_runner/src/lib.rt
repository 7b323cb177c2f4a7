//! All workers of a crew: their rounds, the settling of their edges, and whole runs.
#![tactic(auto)]

mod journals;
mod pairs;
mod rounds;
mod running;
mod settle;
mod tallies;
mod turns;
mod whole;

pub use running::{Ran, run};
pub use tallies::{Tally, tally_run};
