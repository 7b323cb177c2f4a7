//! The answer to the words and to a whole input.

ghost use Rattle.std.specs.Prelude.{◌≡◌, ◌+◌, ◌≤◌, ℕ, map, length, string_bytes, IfOk};
ghost use Rattle.std.specs.Io.KnownBytes.{IsAtEnd};
ghost use Rattle.hem_base.specs.Streams.{Rose, grown};
ghost use Rattle.hem_cli.specs.Answer.{most_bytes, IsJobAnswer, IsAnswerInForm};
ghost use Rattle.hem_cli.specs.Form.{in_form};
ghost use Rattle.hem_words.specs.Job.{IsGood};
ghost use Rattle.hem_cli.specs.Outcome.{Says, IsAfterReading};
ghost use Rattle.hem_cli.specs.declared.status.Status.{Status};

use crate::Status;
use crate::checking::checked;
use crate::emitting::emit_from;
use crate::form::in_form;
use crate::grouping::grouped;
use crate::making::make;
use crate::playing::play_from;
use crate::reply::{Reply, reply_of};
use crate::running::{Maker, end_from};
use hem_base::{Gate, OutOfMemory, Source};
use hem_io::{ReadEnd, read_all};
use hem_words::{Asked, Job, job_of};
use std::alloc::Global;
use std::thread::Threads;

/// The most bytes of input.
pub(crate) const MOST_BYTES: usize = 33_554_432;

const USAGE: &str = "usage: hem JOB [--json] [--count N] [--seed N]\n";

/// The answer of a job to a whole input.
fn job_reply<R: Threads + Sync, G: Gate>(
    rt: &R,
    alloc: Global,
    gate: &G,
    job: Job,
    bytes: &[u8],
) -> Result<Reply, OutOfMemory>
    requires { length bytes.now ≤ most_bytes }
    ensures { IfOk result (λ r. IsJobAnswer job bytes.now r.status (string_bytes r.text)) }
{
    match job {
        Job::Check => checked(alloc, bytes),
        Job::Group => grouped(rt, alloc, bytes),
        Job::Run { count, seed } => end_from(rt, alloc, gate, Maker::Workers, count, seed, bytes),
        Job::Walk { count, seed } => {
            end_from(
                rt,
                alloc,
                gate,
                Maker::OneThread { seed },
                count,
                seed,
                bytes,
            )
        }
        Job::Emit => emit_from(alloc, bytes),
        Job::Play { most } => play_from(alloc, most, bytes),
        Job::Make { count, seed } => make(alloc, count, seed, bytes),
    }
}

/// The answer to a whole input of what is asked for.
fn asked_reply<R: Threads + Sync, G: Gate>(
    rt: &R,
    alloc: Global,
    gate: &G,
    asked: Asked,
    bytes: &[u8],
) -> Result<Reply, OutOfMemory>
    requires { length bytes.now ≤ most_bytes }
    ensures answers { IfOk result (λ r. IsAnswerInForm asked bytes.now r.status (string_bytes r.text)) }
    ensures after { IfOk result (λ r. IsAfterReading r.status) }
{
    let reply = job_reply(rt, alloc, gate, asked.job, bytes)?;
    in_form(alloc, asked.json, reply)
}

/// The reply of a status with a promised text, in the form that is asked for.
fn reply_to(alloc: Global, asked: Asked, status: Status, text: &str) -> Result<Reply, OutOfMemory>
    ensures status { IfOk result (λ r. r.status ≡ status) }
    ensures text { IfOk result (λ r. string_bytes r.text ≡ in_form asked.json status text.now) }
{
    let reply = reply_of(alloc, status, text)?;
    in_form(alloc, asked.json, reply)
}

/// The answer to the words and to what the source has left.
pub(crate) fn answer<R: Threads + Sync, S: Source, G: Gate>(
    rt: &R,
    alloc: Global,
    words: &[String],
    source: &mut S,
    gate: &G,
) -> Result<Reply, OutOfMemory>
    ensures says { IfOk result (λ r. Says (map string_bytes words.now) (S.left source.old) (S.faults source.old) (S.faults source.new) r.status (string_bytes r.text)) }
    ensures unread { ¬ IsGood (map string_bytes words.now) → source.new ≡ source.old }
    ensures read { IfOk result (λ r. IsAfterReading r.status → IsAtEnd (S.left source.new)) }
    ensures read_fault { IfOk result (λ r. r.status ≡ Status.ReadFault → Rose (S.faults source.old) (S.faults source.new)) }
    ensures read_fault_within { IfOk result (λ r. r.status ≡ Status.ReadFault → (n : ℕ) × (n ≤ most_bytes) × (S.taken source.new ≡ grown (S.taken source.old) n)) }
    ensures too_long { IfOk result (λ r. r.status ≡ Status.TooLong → S.taken source.new ≡ grown (S.taken source.old) (most_bytes + 1)) }
    ensures later { S.faults source.old ≤ S.faults source.new }
    ensures same { S.setup source.new ≡ S.setup source.old }
{
    let asked = match job_of(alloc, words)? {
        Some(asked) => asked,
        None => return reply_of(alloc, Status::Usage, USAGE),
    };
    match read_all(alloc, source, MOST_BYTES) {
        Ok(bytes) => asked_reply(rt, alloc, gate, asked, &bytes),
        Err(ReadEnd::Fault) => reply_to(alloc, asked, Status::ReadFault, "read fault\n"),
        Err(ReadEnd::TooLong) => reply_to(alloc, asked, Status::TooLong, "too long\n"),
        Err(ReadEnd::OutOfMemory) => Err(OutOfMemory),
    }
}
