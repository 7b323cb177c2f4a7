//! Whole states: an object's local state and lists on every line, one firing of a history, and the replay of a history.
#![tactic(auto)]

mod cell;
mod children;
mod event;
mod fault;
mod firing;
mod history;
mod lane;
mod laws;
mod lists;
mod possible;
mod queue;
mod quiet;
mod starting;
mod system;

pub use event::Event;
pub use fault::StepFault;
pub use history::{ReplayFault, replay};
pub use lane::Lane;
pub use laws::{
    firings_change_their_own, firings_look_at_taken_heads, lists_have_one_taker_and_sender,
    runs_end_once,
};
pub use system::System;
