//! The translation of a protocol on a tree to modules.
#![tactic(auto)]

mod actions;
mod amounts;
mod clauses;
mod layout;
mod line_image;
mod locks;
mod modules;
mod names;
mod objects;
mod rules;
mod sends;
mod site;
mod starts;
mod tables;
mod targets;

pub use line_image::image;
pub use modules::emit;
