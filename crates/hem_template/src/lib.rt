//! The template of a rule, or the first clause of the discipline that the rule fails. No call takes memory.
#![tactic(auto)]

mod class;
mod clause;
mod fitting;
mod level;
mod names;
mod row;
mod scope;
mod shape;
mod template_name;

pub use clause::Clause;
pub use fitting::template;
pub use row::{Row, Sending, Taking, row_of};
pub use template_name::TemplateName;
