//! The reader of histories.
#![tactic(auto)]

mod draft;
mod limits;
mod reading;

pub use draft::{HistoryDraft, Item, Terminal};
pub use reading::read_history;
