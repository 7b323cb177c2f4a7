//! Protocols as texts.
#![tactic(auto)]

mod guards;
mod law;
mod names;
mod protocol;
mod rules;
mod sends;

pub use law::reads_back;
pub use protocol::protocol_text;
