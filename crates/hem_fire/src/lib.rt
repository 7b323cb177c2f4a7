//! One firing of a rule at one object. No call takes memory.
#![tactic(auto)]

mod heads;
mod locks;
mod lookup;
mod outs;
mod plan;
mod sends;
mod view;

pub use heads::{Heads, awaited_of};
pub use locks::needs_hold;
pub use outs::{Outs, To};
pub use plan::{Plan, can};
