//! Modules and plays as texts.
#![tactic(auto)]

mod actions;
mod law;
mod modules;
mod names;
mod plays;
mod rules;
mod tests;

pub use law::reads_back;
pub use modules::modules_text;
pub use plays::play_text;
