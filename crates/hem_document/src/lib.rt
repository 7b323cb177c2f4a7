//! Documents: the reading of as many parts as a job wants, and the setting up of a tree and a work.
#![tactic(auto)]

mod documents;
mod laws;
mod playing;
mod reading;
mod setting_up;

pub use documents::{Document, PlayDocument, TreeDocument, WorkDocument};
pub use laws::{documents_are_read_once, setups_have_one_fault};
pub use playing::read_play_document;
pub use reading::{read_document, read_protocol_document, read_tree_document, read_work_document};
pub use setting_up::{Lawful, set_up};
