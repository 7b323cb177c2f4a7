//! Tests of the image of a line in the modules that are emitted.
#![tactic(auto)]

#[cfg(test)]
mod tests;
