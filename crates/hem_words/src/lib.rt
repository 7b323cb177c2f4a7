//! The words after the program's name, and what they ask for: a job, and the form of its answer.
#![tactic(auto)]

mod command;
mod job;
mod laws;
mod numbers;

pub use job::{Asked, Job, job_of};
pub use laws::words_ask_for_one_job;
