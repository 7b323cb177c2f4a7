//! Trees of objects: the reader of a tree's text, and lawful trees with their queries.
#![tactic(auto)]

mod draft;
mod limits;
mod objects;
mod raw;
mod setup;
mod tree;

pub use draft::{Item, Terminal, TreeDraft};
pub use raw::{RawNode, RawTree, read_tree};
pub use setup::{SetupCause, SetupError, SetupFault};
pub use tree::Tree;
