//! An object on one line: it looks at its ends, chooses a firing and makes it, turn after turn.
#![tactic(auto)]

mod online;

pub use online::{Burst, OnLine, Place};
