//! Runs of a whole work by a crew of workers.

ghost use Rattle.std.specs.Prelude.{◌≡◌, ◌≤◌, ◌+◌, ◌*◌, length, IfOk};
ghost use Rattle.hem_check.specs.Discipline.{IsDisciplined};
ghost use Rattle.hem_work.specs.Lawful.{IsLawfulWork};
ghost use Rattle.hem_system.specs.State.{State, Runs, start};
ghost use Rattle.hem_system.specs.Ended.{Within, Ended};
ghost use Rattle.hem_bound.specs.Starts.{requests_in};
ghost use Rattle.hem_runner.specs.Runs.{AreLastJournals, IsWholeHistory, IsRun};

use crate::journals::take_journals;
use crate::whole::crew_at_end;
use hem_base::{Firing, Gate, Kind, List, OutOfMemory, Stamped};
use hem_check::Accepted;
use hem_merge::merge;
use hem_syntax::Protocol;
use hem_system::{ReplayFault, System, replay};
use hem_tree::Tree;
use hem_wire::Net;
use hem_work::Work;
use std::alloc::Global;
use std::thread::Threads;

/// What the workers made: their journal, and the state to which it leads.
#[derive(Drop)]
pub struct Ran {
    pub journal: List<Firing>,
    pub system: System,
}

/// The journals of a crew that ran to its end, merged into its history.
fn merged(
    alloc: Global,
    p: &Protocol,
    tree: &Tree,
    work: &Work,
    journals: &[List<Stamped>],
) -> Result<Vec<Firing>, OutOfMemory>
    requires disciplined { IsDisciplined p.now }
    requires lawful { IsLawfulWork p.now tree.now work.now }
    requires last { AreLastJournals p.now tree.now work.now journals.now }
    ensures { IfOk result (λ history. IsWholeHistory p.now tree.now work.now history.items) }
{
    // That the protocol is one, and the tree lawful.
    let _part = p.part(Kind::Root);
    let _objects = tree.objects();
    merge(alloc, journals)
}

/// Has a crew run to its end, and merges its journals.
fn history_of<R: Threads + Sync, N: Net + Send, G: Gate>(
    rt: &R,
    alloc: Global,
    p: &Protocol,
    tree: &Tree,
    work: &Work,
    net: &mut N,
    gate: &G,
) -> Result<Vec<Firing>, OutOfMemory>
    requires disciplined { IsDisciplined p.now }
    requires lawful { IsLawfulWork p.now tree.now work.now }
    ensures { IfOk result (λ history. IsWholeHistory p.now tree.now work.now history.items) }
{
    let mut crew = crew_at_end(rt, alloc, p, tree, work, net, gate)?;
    let journals = take_journals(alloc, work.lines(), crew.as_mut_slice())?;
    merged(alloc, p, tree, work, journals.as_slice())
}

/// The state to which a history leads.
fn state_after(
    alloc: Global,
    p: &Protocol,
    tree: &Tree,
    work: &Work,
    history: &[Firing],
) -> Result<System, OutOfMemory>
    requires { IsWholeHistory p.now tree.now work.now history.now }
    ensures { IfOk result (λ system. Runs p.now tree.now (start p.now tree.now work.now) history.now system) }
{
    match replay(alloc, p, tree, work, history) {
        Ok(system) => Ok(system),
        Err(ReplayFault::OutOfMemory) => Err(OutOfMemory),
        Err(ReplayFault::Illegal { .. }) => unreachable!(),
    }
}

/// The same as `run`, of a protocol that is known to be disciplined.
fn run_work<R: Threads + Sync, N: Net + Send, G: Gate>(
    rt: &R,
    alloc: Global,
    p: &Protocol,
    tree: &Tree,
    work: &Work,
    net: &mut N,
    gate: &G,
) -> Result<Ran, OutOfMemory>
    requires disciplined { IsDisciplined p.now }
    requires lawful { IsLawfulWork p.now tree.now work.now }
    ensures { IfOk result (λ r. IsRun p.now tree.now work.now r.journal r.system) }
{
    let history = history_of(rt, alloc, p, tree, work, net, gate)?;
    let system = state_after(alloc, p, tree, work, history.as_slice())?;
    Ok(Ran {
        journal: List::from_vec(history),
        system,
    })
}

/// Runs a work to its end: a worker for each object, on threads of their own, joined by channels of the net. The journal has
/// the firings of all workers in the order of stamp, line and object. It is a history from the start of the work to an end,
/// within the bound on self firings.
pub fn run<R: Threads + Sync, N: Net + Send, G: Gate>(
    rt: &R,
    alloc: Global,
    a: &Accepted,
    tree: &Tree,
    work: &Work,
    net: &mut N,
    gate: &G,
) -> Result<Ran, OutOfMemory>
    requires lawful { IsLawfulWork a.now tree.now work.now }
    ensures runs { IfOk result (λ r. Runs a.now tree.now (start a.now tree.now work.now) r.journal r.system) }
    ensures within { IfOk result (λ r. Within a.now tree.now r.journal work.now.self_count) }
    ensures ended { IfOk result (λ r. Ended a.now tree.now r.journal r.system work.now.self_count) }
    ensures few { IfOk result (λ r. length r.journal ≤ 3 * length tree.now * (requests_in tree.now work.now + work.now.lines * (length tree.now * work.now.self_count))) }
{
    // That the tree is lawful.
    let _objects = tree.objects();
    run_work(rt, alloc, a.protocol(), tree, work, net, gate)
}
