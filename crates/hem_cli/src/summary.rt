//! What a run with generated requests comes to.

ghost use Rattle.std.specs.Prelude.{◌≡◌, ◌<◌, [], length, slice_index_or, string_bytes, IfOk, IfSome};
ghost use Rattle.hem_bound.specs.Sums.{total};
ghost use Rattle.hem_bound.specs.Starts.{requests_in};
ghost use Rattle.hem_work.specs.Work.{requests_of};
ghost use Rattle.hem_system.specs.Quiet.{is_quiet};
ghost use Rattle.hem_runner.specs.Tally.{answers_at, answers_on, answers_in};
ghost use Rattle.hem_cli.specs.Summary.{tally_text};

use hem_base::{LineId, ObjectId, OutOfMemory};
use hem_report::end_word_text;
use hem_runner::Tally;
use hem_system::{Lane, System};
use hem_tree::Tree;
use hem_work::Work;
use std::alloc::Global;

/// How many requests a line has. More than 64 bits of them have no room in memory, and no number here.
fn requests_on(tree: &Tree, work: &Work, line: u32) -> Option<u64>
    ensures { IfSome result (λ n. n ≡ total (length tree.now) (λ o. length (requests_of work.now line o))) }
{
    let mut count: u64 = 0;
    for object in 0..tree.objects() {
        let requests = work.requests(ObjectId(object), LineId(line)).len() as u64;
        count = count.checked_add(requests)?;
    }
    Some(count)
}

/// How many requests a work has.
fn requests_in(tree: &Tree, work: &Work) -> Option<u64>
    ensures { IfSome result (λ n. n ≡ requests_in tree.now work.now) }
{
    let mut count: u64 = 0;
    for line in 0..work.lines() {
        count = count.checked_add(requests_on(tree, work, line)?)?;
    }
    Some(count)
}

/// How many answers an object has on a line.
fn answers_at(s: &System, line: usize, object: usize) -> u64
    requires line { line < length s.now }
    requires object { object < length (slice_index_or s.now line []) }
    ensures { result ≡ answers_at s.now line object }
{
    s.list_at(line, object, Lane::Answers).len() as u64
}

/// How many answers a line has.
fn answers_on(s: &System, line: usize) -> Option<u64>
    requires { line < length s.now }
    ensures { IfSome result (λ n. n ≡ answers_on s.now line) }
{
    let mut count: u64 = 0;
    for object in 0..s.objects(line) {
        count = count.checked_add(answers_at(s, line, object))?;
    }
    Some(count)
}

/// How many answers a state has.
fn answers_in(s: &System) -> Option<u64>
    ensures { IfSome result (λ n. n ≡ answers_in s.now) }
{
    let mut count: u64 = 0;
    for line in 0..s.lines() {
        count = count.checked_add(answers_on(s, line)?)?;
    }
    Some(count)
}

/// What a run comes to, by the state in which it ends.
pub(crate) fn tally_of(end: &System) -> Option<Tally>
    ensures quiet { IfSome result (λ t. t.quiet ≡ is_quiet end.now) }
    ensures answers { IfSome result (λ t. t.answers ≡ answers_in end.now) }
{
    Some(Tally {
        quiet: end.quiet(),
        answers: answers_in(end)?,
    })
}

/// The text of what a run comes to: the word, how many requests the work has, and how many answers there are at the end.
pub(crate) fn summary_text(
    alloc: Global,
    tree: &Tree,
    work: &Work,
    tally: Tally,
) -> Result<String, OutOfMemory>
    ensures { IfOk result (λ s. string_bytes s ≡ tally_text tree.now work.now tally.quiet tally.answers) }
{
    let word = end_word_text(tally.quiet);
    let requests = requests_in(tree, work).ok_or(OutOfMemory)?;
    let answers = tally.answers;
    Ok(format!(in alloc; "{word}requests {requests}\nanswers {answers}\n")?)
}
