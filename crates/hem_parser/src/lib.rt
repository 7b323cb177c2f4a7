//! The reader of protocols.
#![tactic(auto)]

mod assign;
mod atom;
mod draft;
mod firsts;
mod language;
mod last;
mod part;
mod reading;
mod rule_part;
mod send;
mod sets;
mod shipped_text;
mod words;
mod written;

pub use reading::protocol;
