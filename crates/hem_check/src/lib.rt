//! The discipline of protocols: the checker, and what it refuses. No call takes memory.
#![tactic(auto)]

mod accepted;
mod checking;
mod first;
mod laws;
mod refusal;

pub use accepted::Accepted;
pub use checking::check;
pub use laws::{disciplined_protocols_are_templated_and_stable, first_broken_rules_are_exact};
pub use refusal::Refusal;
