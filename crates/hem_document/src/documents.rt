//! Documents, each with the parts that a job wants.

use hem_base::{Firing, List};
use hem_modtext::Fed;
use hem_module::Modules;
use hem_syntax::Protocol;
use hem_tree::RawTree;
use hem_work::RawWork;

/// A protocol and a tree, of which it isn't known yet whether it is lawful.
#[derive(Drop)]
pub struct TreeDocument {
    pub protocol: Protocol,
    pub tree: RawTree,
}

/// A protocol, a tree and a work, of which it isn't known yet whether they are lawful.
#[derive(Drop)]
pub struct WorkDocument {
    pub protocol: Protocol,
    pub tree: RawTree,
    pub work: RawWork,
}

/// A protocol, a tree and a work, and a history over them.
#[derive(Drop)]
pub struct Document {
    pub setup: WorkDocument,
    pub history: List<Firing>,
}

/// Modules, and what their queues are fed.
#[derive(Drop)]
pub struct PlayDocument {
    pub modules: Modules,
    pub feed: List<Fed>,
}
