//! The readers of modules and of what their queues are fed.
#![tactic(auto)]

mod draft;
mod effects;
mod feed;
mod finish;
mod key;
mod language;
mod limits;
mod reading;
mod tokens;

pub use draft::Draft;
pub use feed::{Fed, FeedDraft, FeedItem, FeedTerminal, read_feed};
pub use reading::read_modules;
pub use tokens::{Item, Terminal, TestRole, ValuePart};
