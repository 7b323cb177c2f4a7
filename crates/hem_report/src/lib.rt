//! The texts of answers: blocks, states, which firing isn't possible, and whether a protocol is accepted.
#![tactic(auto)]

mod abstracts;
mod accepted;
mod blocks;
mod fields;
mod firings;
mod journals;
mod lists;
mod locals;
mod locks;
mod names;
mod refusals;
mod states;

pub use accepted::accepted_text;
pub use blocks::{blocks_text, blocks_text_behind};
pub use firings::illegal_text;
pub use journals::{end_word_text, journal_text};
pub use refusals::refusal_text;
pub use states::{state_text, word_text};
