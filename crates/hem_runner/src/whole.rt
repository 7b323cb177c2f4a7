//! Turns of a crew, until one in which no worker fires.

ghost use Rattle.std.specs.Prelude.{◌≡◌, ◌<◌, nat_lt, IfOk, OnOk};
ghost use Rattle.hem_check.specs.Discipline.{IsDisciplined};
ghost use Rattle.hem_work.specs.Lawful.{IsLawfulWork};
ghost use Rattle.hem_system.specs.State.{start};
ghost use Rattle.hem_crew.specs.Crew.{IsCrew};
ghost use Rattle.hem_runner.specs.Settles.{IsCrewOf};
ghost use Rattle.hem_runner.specs.Rounds.{IsTurnOfAll, IsAtEnd};
ghost use Rattle.hem_runner.specs.Runs.{channel_slots};

use crate::rounds::{reserve_all, round_all};
use crate::settle::settle_all;
use hem_base::{Gate, Kind, OutOfMemory};
use hem_syntax::Protocol;
use hem_tree::Tree;
use hem_wire::Net;
use hem_wiring::make_crew;
use hem_work::Work;
use hem_worker::Worker;
use std::alloc::Global;
use std::thread::Threads;

/// How many slots each channel has.
const CHANNEL_SLOTS: usize = 4;

/// How many firings there is room for at once, on all lines of all objects together.
const ROOM: u64 = 262_144;

/// How many firings a round allows a worker at least, and at most.
const LEAST_BURST: u64 = 16;

const MOST_BURST: u64 = 1_024;

/// From how many firings in a round on it goes over threads.
const WORTH_THREADS: u64 = 4_096;

/// One turn more than a work within the limits has firings.
const MOST_TURNS: u64 = 38_400_001;

/// How many times a worker may fire in a round.
fn burst_of(tree: &Tree, work: &Work) -> u64
    ensures { 0 < result }
{
    let positions = u64::from(tree.objects()) * u64::from(work.lines());
    (ROOM / positions.max(1)).max(LEAST_BURST).min(MOST_BURST)
}

/// Settles all edges, makes room, and has a round of all workers. Tells how many times they fired.
fn turn_once<R: Threads + Sync, N: Net + Send, G: Gate>(
    rt: &R,
    p: &Protocol,
    tree: &Tree,
    net: &mut N,
    gate: &G,
    burst: u64,
    at_once: bool,
    crew: &mut [Worker<N>],
) -> Result<u64, OutOfMemory>
    requires burst { 0 < burst }
    requires crew { IsCrewOf tree.now crew.old }
    ensures { IfOk result (λ fired. IsTurnOfAll p.now tree.now burst (nat_lt 0 fired) crew.old crew.new) }
{
    settle_all(net, tree, crew);
    reserve_all(crew, burst as usize)?;
    Ok(round_all(rt, p, gate, burst, at_once, crew))
}

/// Turns until one in which no worker fires, and then settles all edges once more. The first goes over threads, and each
/// after one with many firings.
fn run_crew<R: Threads + Sync, N: Net + Send, G: Gate>(
    rt: &R,
    p: &Protocol,
    tree: &Tree,
    work: &Work,
    net: &mut N,
    gate: &G,
    crew: &mut [Worker<N>],
) -> Result<(), OutOfMemory>
    requires disciplined { IsDisciplined p.now }
    requires lawful { IsLawfulWork p.now tree.now work.now }
    requires crew { IsCrew p.now tree.now (start p.now tree.now work.now) work.now.self_count channel_slots crew.old }
    ensures { OnOk result (IsAtEnd p.now tree.now (start p.now tree.now work.now) work.now.self_count channel_slots crew.new) }
{
    // That the protocol is one, and the tree lawful.
    let _part = p.part(Kind::Root);
    let burst = burst_of(tree, work);
    let _objects = tree.objects();
    let mut before = 0;
    for turn in 0..MOST_TURNS {
        let at_once = turn == 0 || before >= WORTH_THREADS;
        let fired = turn_once(rt, p, tree, net, gate, burst, at_once, crew)?;
        if fired == 0 {
            settle_all(net, tree, crew);
            return Ok(());
        }
        before = fired;
    }
    settle_all(net, tree, crew);
    unreachable!()
}

/// Makes a crew and has it run to its end.
pub(crate) fn crew_at_end<R: Threads + Sync, N: Net + Send, G: Gate>(
    rt: &R,
    alloc: Global,
    p: &Protocol,
    tree: &Tree,
    work: &Work,
    net: &mut N,
    gate: &G,
) -> Result<Vec<Worker<N>>, OutOfMemory>
    requires disciplined { IsDisciplined p.now }
    requires lawful { IsLawfulWork p.now tree.now work.now }
    ensures { IfOk result (λ crew. IsAtEnd p.now tree.now (start p.now tree.now work.now) work.now.self_count channel_slots crew.items) }
{
    let mut crew = make_crew(alloc, p, tree, work, net, CHANNEL_SLOTS)?;
    run_crew(rt, p, tree, work, net, gate, crew.as_mut_slice())?;
    Ok(crew)
}
