//! The jobs, and the words that ask for them and for the form of their answers.

ghost use Rattle.std.specs.Prelude.{◌≡◌, map, string_bytes, Some, codes, IfOk, MatchOption};
ghost use Rattle.hem_words.specs.declared.job.Job.{Job};
ghost use Rattle.hem_words.specs.Job.{IsJobOf, AsksFor, IsGood};

use crate::command::{Given, read_words};
use crate::numbers::{count_of, most_of, seed_of};
use hem_base::OutOfMemory;
use std::alloc::Global;

/// What the program is asked to do.
#[derive(Clone, Copy, Debug, PartialEq, Eq)]
pub enum Job {
    /// To say whether a protocol is disciplined, by the word `check`.
    Check,
    /// To print a history by transactions, by the word `group`.
    Group,
    /// To go on by a thread for each object to the end, by the word `run`. With a count so many generated requests come after
    /// those of the document.
    Run { count: Option<u32>, seed: u64 },
    /// To go on by one thread to the end, by the word `walk`. With a count so many generated requests come after those of
    /// the document.
    Walk { count: Option<u32>, seed: u64 },
    /// To translate a protocol on a tree to modules, by the word `emit`.
    Emit,
    /// To play modules for so many firings at most, by the word `play`.
    Play { most: u32 },
    /// To print a document with so many generated requests after its own, by the word `make`.
    Make { count: u32, seed: u64 },
}

/// What the program is asked for: a job, and whether its answer is to be in JSON form.
#[derive(Clone, Copy, Debug, PartialEq, Eq)]
pub struct Asked {
    pub job: Job,
    pub json: bool,
}

/// The job of a word that takes no option.
fn plain(given: &Given<'_>, job: Job) -> Option<Job>
    ensures check { given.now.job ≡ Some (codes "check") → job ≡ Job.Check → MatchOption result ((j : Job) → ¬ IsJobOf given.now j) (IsJobOf given.now) }
    ensures group { given.now.job ≡ Some (codes "group") → job ≡ Job.Group → MatchOption result ((j : Job) → ¬ IsJobOf given.now j) (IsJobOf given.now) }
    ensures emit { given.now.job ≡ Some (codes "emit") → job ≡ Job.Emit → MatchOption result ((j : Job) → ¬ IsJobOf given.now j) (IsJobOf given.now) }
{
    match (given.count, given.seed) {
        (None, None) => Some(job),
        _ => None,
    }
}

/// A run with these options: a seed stands only where there is a count.
fn run(given: &Given<'_>) -> Option<Job>
    ensures { (given.now.job ≡ Some (codes "run")) → MatchOption result ((j : Job) → ¬ IsJobOf given.now j) (IsJobOf given.now) }
{
    match (given.count, given.seed) {
        (Some(text), seed) => Some(Job::Run {
            count: Some(count_of(text)?),
            seed: seed_of(seed)?,
        }),
        (None, None) => Some(Job::Run {
            count: None,
            seed: 1,
        }),
        (None, Some(_)) => None,
    }
}

/// A walk with these options.
fn walk(given: &Given<'_>) -> Option<Job>
    ensures { (given.now.job ≡ Some (codes "walk")) → MatchOption result ((j : Job) → ¬ IsJobOf given.now j) (IsJobOf given.now) }
{
    let seed = seed_of(given.seed)?;
    match given.count {
        Some(text) => Some(Job::Walk {
            count: Some(count_of(text)?),
            seed,
        }),
        None => Some(Job::Walk { count: None, seed }),
    }
}

/// A play with these options.
fn play(given: &Given<'_>) -> Option<Job>
    ensures { (given.now.job ≡ Some (codes "play")) → MatchOption result ((j : Job) → ¬ IsJobOf given.now j) (IsJobOf given.now) }
{
    match given.seed {
        None => Some(Job::Play {
            most: most_of(given.count)?,
        }),
        Some(_) => None,
    }
}

/// A making with these options.
fn make(given: &Given<'_>) -> Option<Job>
    ensures { (given.now.job ≡ Some (codes "make")) → MatchOption result ((j : Job) → ¬ IsJobOf given.now j) (IsJobOf given.now) }
{
    Some(Job::Make {
        count: count_of(given.count?)?,
        seed: seed_of(given.seed)?,
    })
}

/// The job that the texts ask for.
fn job_given(given: &Given<'_>) -> Option<Job>
    ensures { MatchOption result ((job : Job) → ¬ IsJobOf given.now job) (IsJobOf given.now) }
{
    match given.job? {
        "check" => plain(given, Job::Check),
        "group" => plain(given, Job::Group),
        "run" => run(given),
        "walk" => walk(given),
        "emit" => plain(given, Job::Emit),
        "play" => play(given),
        "make" => make(given),
        _ => None,
    }
}

/// What the texts and the flag ask for.
fn asked_for(given: &Given<'_>) -> Option<Asked>
    ensures { MatchOption result ((job : Job) → ¬ IsJobOf given.now job) (λ asked. IsJobOf given.now asked.job × (asked.json ≡ given.now.json)) }
{
    Some(Asked {
        job: job_given(given)?,
        json: given.json,
    })
}

/// What the words ask for: the words after the program's name.
pub fn job_of(alloc: Global, words: &[String]) -> Result<Option<Asked>, OutOfMemory>
    ensures { IfOk result (λ asked. MatchOption asked (¬ IsGood (map string_bytes words.now)) (AsksFor (map string_bytes words.now))) }
{
    match read_words(alloc, words)? {
        Some(given) => Ok(asked_for(&given)),
        None => Ok(None),
    }
}
