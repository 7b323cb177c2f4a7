//! The grammar of protocols: the tokens by what they mean, the items, and the words.
#![tactic(auto)]

mod terminals;
mod words;

pub use terminals::{AssignPart, AtomPart, Item, Part, RulePart, SendPart, Terminal};
pub use words::{class_word, hold_word, origin_word, side_word};
