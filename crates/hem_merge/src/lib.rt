//! The journals of many objects, merged into the history that the merge law speaks of.
#![tactic(auto)]

mod merging;
#[cfg(test)]
mod tests;

pub use merging::merge;
