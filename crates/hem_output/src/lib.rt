//! The one builder for texts that the program writes: printed protocols, reports, JSON and modules.
#![tactic(auto)]

mod output;

pub use output::Output;
