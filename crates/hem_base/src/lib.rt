//! What every other crate speaks of: ids, messages, firings, names, lists, reserved words, and the traits of the outside.
#![tactic(auto)]

mod ids;
mod list;
mod name;
mod outside;
mod words;

pub use ids::{
    Carried, Firing, KidSet, Kind, LineId, Message, MsgId, ObjectId, RuleId, Stamped, Status8,
    StatusSet,
};
pub use list::List;
pub use name::Name;
pub use outside::{Failed, Gate, OutOfMemory, Sink, Source};
pub use words::{Reserved, Sign, is_reserved, is_word_text, sign_bytes, word_bytes};
