//! Trees and works as texts.
#![tactic(auto)]

mod tree;
mod work;

pub use tree::tree_text;
pub use work::work_text;
