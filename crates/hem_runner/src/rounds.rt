//! A round of all workers, and the room for it.

ghost use Rattle.std.specs.Prelude.{◌≡◌, ◌<◌, nat_lt, length, OnOk};
ghost use Rattle.hem_worker.specs.Workers.{IsChangedAt, AreChanged, HasRoom};
ghost use Rattle.hem_crew.specs.Rounds.{IsTurn, IsRoundOfAll};
ghost use Rattle.hem_runner.specs.Rounds.{IsRoomier, AllHaveRoom};

use crate::turns::turn_all;
use hem_base::{Gate, OutOfMemory};
use hem_syntax::Protocol;
use hem_wire::Net;
use hem_worker::Worker;
use std::thread::Threads;

/// Makes room for so many firings on each line of the worker at a place.
fn reserve_at<N: Net>(crew: &mut [Worker<N>], at: usize, burst: usize) -> Result<(), OutOfMemory>
    requires { at < length crew.old }
    ensures { OnOk result (IsChangedAt (IsRoomier burst) at crew.old crew.new) }
{
    crew[at].reserve(burst)
}

/// Makes room for so many firings on each line of each worker.
pub(crate) fn reserve_all<N: Net>(crew: &mut [Worker<N>], burst: usize) -> Result<(), OutOfMemory>
    ensures { OnOk result (AreChanged (λ o. IsRoomier burst) crew.old crew.new) }
{
    for at in 0..crew.len() {
        reserve_at(crew, at, burst)?;
    }
    Ok(())
}

/// A round of all workers: each fires at most so many times, all at once on threads of their own, or one after another on
/// this thread. Each passes the gate after each of its firings. Tells how many times they fired in all.
pub(crate) fn round_all<R: Threads + Sync, N: Net + Send, G: Gate>(
    rt: &R,
    p: &Protocol,
    gate: &G,
    burst: u64,
    at_once: bool,
    crew: &mut [Worker<N>],
) -> u64
    requires burst { 0 < burst }
    requires room { AllHaveRoom burst crew.old }
    ensures { IsRoundOfAll p.now (nat_lt 0 result) crew.old crew.new }
{
    let turn = |worker: &mut Worker<N>| -> u64
        requires { (0 < burst) × HasRoom burst worker.old.lines }
        ensures { IsTurn p.entry.now (nat_lt 0 result) worker.old worker.new }
    { worker.round(p, gate, burst) };
    turn_all(rt, &turn, at_once, crew)
}
