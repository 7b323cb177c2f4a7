//! The command line, as `clap` takes it.

ghost use Rattle.std.specs.Prelude.{◌≡◌, false, map, string_bytes, option_map, IfOk, IfSome, MatchOption};
ghost use Rattle.clap.specs.Words.{app_of, rule_of};
ghost use Rattle.hem_words.specs.CommandLine.{job_alone, command_line, required_word, option_named, flag_named, is_there, AreTaken, given_in};

use clap::error::ErrorKind;
use clap::{Arg, ArgAction, Command};
use hem_base::OutOfMemory;
use std::alloc::{AllocError, Global};
use std::marker::Model;

/// The texts that words give: of the job, and of each option that is there; and whether the flag is there.
#[derive(Drop)]
pub(crate) struct Given<'a> {
    pub(crate) job: Option<&'a str>,
    pub(crate) count: Option<&'a str>,
    pub(crate) seed: Option<&'a str>,
    pub(crate) json: bool,
}

impl<'a> Model for Given<'a> {
    ghost use Rattle.std.specs.Prelude.{option_map};
    ghost use Rattle.hem_words.specs.CommandLine.{Given as Described};

    ghost Value = { Described };

    ghost view = { λ g. record { job = option_map (λ s. s.now) g.job; count = option_map (λ s. s.now) g.count; seed = option_map (λ s. s.now) g.seed; json = g.json } };
}

/// The word that must stand.
fn required_word<'a>(alloc: Global, name: &'a str) -> Arg<'a>
    ensures rule { rule_of result ≡ required_word name.now }
    ensures local { result.global ≡ false }
{
    Arg::new(alloc, name).required(true).action(ArgAction::Set)
}

/// An option with one value.
fn option_named<'a>(alloc: Global, name: &'a str) -> Arg<'a>
    ensures rule { rule_of result ≡ option_named name.now }
    ensures local { result.global ≡ false }
{
    Arg::new(alloc, name).long(name).action(ArgAction::Set)
}

/// A flag, an option without a value.
fn flag_named<'a>(alloc: Global, name: &'a str) -> Arg<'a>
    ensures rule { rule_of result ≡ flag_named name.now }
    ensures local { result.global ≡ false }
{
    Arg::new(alloc, name).long(name).action(ArgAction::SetTrue)
}

/// The command line without its options: `JOB`.
fn job_alone<'a>(alloc: Global) -> Result<Command<'a>, AllocError>
    ensures { IfOk result (λ c. app_of c ≡ job_alone) }
{
    Command::new(alloc, "hem")
        .no_binary_name(true)
        .disable_help_flag(true)
        .disable_version_flag(true)
        .arg(required_word(alloc, "JOB"))
}

/// The command line: `JOB [--json] [--count N] [--seed N]`.
fn command_line<'a>(alloc: Global) -> Result<Command<'a>, AllocError>
    ensures { IfOk result (λ c. app_of c ≡ command_line) }
{
    job_alone(alloc)?
        .arg(flag_named(alloc, "json"))?
        .arg(option_named(alloc, "count"))?
        .arg(option_named(alloc, "seed"))
}

/// Whether the flag is there, by the text that the matches have for it.
fn is_there(flag: Option<&str>) -> bool
    ensures { result ≡ is_there (option_map (λ s. s.now) flag.entry) }
{
    match flag {
        Some(text) => text == "true",
        None => false,
    }
}

/// The texts that the words give, where the command line takes them.
pub(crate) fn read_words<'a>(
    alloc: Global,
    words: &'a [String],
) -> Result<Option<Given<'a>>, OutOfMemory>
    ensures taken { IfOk result (λ given. MatchOption given (¬ AreTaken (map string_bytes words.now)) (λ _. AreTaken (map string_bytes words.now))) }
    ensures given { IfOk result (λ given. IfSome given (λ g. g ≡ given_in (map string_bytes words.now))) }
{
    let command = command_line(alloc)?;
    match command.try_get_matches_from(words) {
        Ok(matches) => Ok(Some(Given {
            job: matches.get_str("JOB"),
            count: matches.get_str("count"),
            seed: matches.get_str("seed"),
            json: is_there(matches.get_str("json")),
        })),
        Err(e) if e.kind() == ErrorKind::OutOfMemory => Err(OutOfMemory),
        Err(_) => Ok(None),
    }
}
