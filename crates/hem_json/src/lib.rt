//! The JSON form of a text of the program.
#![tactic(auto)]

mod form;
#[cfg(test)]
mod tests;

pub use form::json;
