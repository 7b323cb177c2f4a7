//! What an object has of the channels on one line: their ends, seen together.
#![tactic(auto)]

mod edge;
mod kids;
mod line;

pub use edge::settle_edge;
pub use kids::{KidEnds, KidLook};
pub use line::{LineEnds, Look};
