//! What a run comes to, read off its workers at its end.

ghost use Rattle.std.specs.Prelude.{◌≡◌, IfOk, IfSome};
ghost use Rattle.std.specs.List.{list_all};
ghost use Rattle.hem_check.specs.Discipline.{IsDisciplined};
ghost use Rattle.hem_work.specs.Lawful.{IsLawfulWork};
ghost use Rattle.hem_runner.specs.Tally.{IsTally, is_at_rest, all_at_rest, answered_by, all_answered};

use crate::whole::crew_at_end;
use hem_base::{Gate, Kind, OutOfMemory};
use hem_check::Accepted;
use hem_syntax::Protocol;
use hem_tree::Tree;
use hem_turns::OnLine;
use hem_wire::Net;
use hem_work::Work;
use hem_worker::Worker;
use std::alloc::Global;
use std::thread::Threads;

/// What a run comes to.
#[derive(Clone, Copy)]
pub struct Tally {
    /// Whether its end is quiet: no list but the answers has a message, and no lock is held.
    pub quiet: bool,
    /// How many answers there are at its end, on all lines.
    pub answers: u64,
}

/// Whether an object is at rest on a line: it holds no lock, and no request is left.
fn is_at_rest<N: Net>(line: &OnLine<N>) -> bool
    ensures { result ≡ is_at_rest line.now }
{
    line.local.up.is_none() && line.local.down.is_none() && line.requests.len() <= line.taken
}

/// What one object comes to on all its lines: whether it is at rest there, and its answers. More than 64 bits of answers
/// have no room in memory, and no number here.
fn finished<N: Net>(worker: Worker<N>) -> Option<Tally>
    ensures quiet { IfSome result (λ t. t.quiet ≡ list_all is_at_rest worker.lines) }
    ensures answers { IfSome result (λ t. t.answers ≡ answered_by worker.lines) }
{
    let mut quiet = true;
    let mut answers: u64 = 0;
    for line in worker.finish().into_vec() {
        quiet &= is_at_rest(&line);
        answers = answers.checked_add(line.answers.len() as u64)?;
    }
    Some(Tally { quiet, answers })
}

/// What all objects of a crew come to.
fn tally_of<N: Net>(crew: Vec<Worker<N>>) -> Option<Tally>
    ensures quiet { IfSome result (λ t. t.quiet ≡ all_at_rest crew.items) }
    ensures answers { IfSome result (λ t. t.answers ≡ all_answered crew.items) }
{
    let mut quiet = true;
    let mut answers: u64 = 0;
    for worker in crew {
        let one = finished(worker)?;
        quiet &= one.quiet;
        answers = answers.checked_add(one.answers)?;
    }
    Some(Tally { quiet, answers })
}

/// The same as `tally_run`, of a protocol that is known to be disciplined.
fn tally_work<R: Threads + Sync, N: Net + Send, G: Gate>(
    rt: &R,
    alloc: Global,
    p: &Protocol,
    tree: &Tree,
    work: &Work,
    net: &mut N,
    gate: &G,
) -> Result<Tally, OutOfMemory>
    requires disciplined { IsDisciplined p.now }
    requires lawful { IsLawfulWork p.now tree.now work.now }
    ensures { IfOk result (λ t. IsTally p.now tree.now work.now t.quiet t.answers) }
{
    // That the protocol is one, and the tree lawful.
    let _part = p.part(Kind::Root);
    let _objects = tree.objects();
    let crew = crew_at_end(rt, alloc, p, tree, work, net, gate)?;
    tally_of(crew).ok_or(OutOfMemory)
}

/// Runs a work to its end as `run` does, and tells what that comes to. No journal is merged and no state is built for it:
/// where no lock is held nothing is under way, so what the workers hold of their own lines is enough.
pub fn tally_run<R: Threads + Sync, N: Net + Send, G: Gate>(
    rt: &R,
    alloc: Global,
    a: &Accepted,
    tree: &Tree,
    work: &Work,
    net: &mut N,
    gate: &G,
) -> Result<Tally, OutOfMemory>
    requires lawful { IsLawfulWork a.now tree.now work.now }
    ensures { IfOk result (λ t. IsTally a.now tree.now work.now t.quiet t.answers) }
{
    tally_work(rt, alloc, a.protocol(), tree, work, net, gate)
}
