//! Tests of whole runs: of workers that run at the same time, as a gate shows, and of a work over each net.
#![tactic(auto)]

#[cfg(test)]
mod meeting;
#[cfg(test)]
mod tests;
