//! Modules of guarded rules over registers and queues, and what a step of one does.
#![tactic(auto)]

mod changes;
mod modules;
mod plan;
mod queue;
mod rules;
mod state;
mod step;
#[cfg(test)]
mod tests;
mod turns;

pub use modules::Modules;
pub use rules::{Act, Action, ModAtom, ModClause, ModRule, ModValue};
pub use state::ModState;
pub use step::{ModFault, mod_can, mod_step};
pub use turns::{Played, play};
