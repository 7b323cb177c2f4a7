//! Abstract states, and what may take the guard of a waiting request away. No call takes memory.
#![tactic(auto)]

mod breach;
mod change;
mod clash;
mod fields;
mod guard;
mod kids;
mod laws;
mod stability;
mod state;
mod turn;

pub use breach::Breach;
pub use change::after;
pub use guard::guard_at;
pub use laws::{
    abstract_guards_are_exact, abstract_sets_are_exact, partners_keep_requests,
    stable_rules_are_never_broken,
};
pub use stability::unstable;
pub use state::Abstract;
