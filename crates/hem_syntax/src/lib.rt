//! Protocols as plain values, their look-ups, and what every protocol keeps.
#![tactic(auto)]

mod names;
mod protocol;
mod rule;

pub use names::{Named, Names};
pub use protocol::{KindPart, Protocol};
pub use rule::{Assign, Atom, Class, Hold, Need, Origin, Rule, SendTo, Side, Take, Value};
