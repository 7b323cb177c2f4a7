//! One call for each element of a slice, over threads or on one.

ghost use Rattle.std.specs.Prelude.{◌≡◌, ◌<◌, ◌≤◌, All, length};
ghost use Rattle.std.specs.Thread.{IsSend, IsSync};
ghost use Rattle.hem_runner.specs.Turned.{AcceptsIt, TurnsInto, Turned};

use std::thread::{Threads, join_mut};

/// Calls `turn` on each element, all at once on threads of their own, or one after another on this one. Answers the sum of
/// what the calls answered, or the greatest number where the sum is past it.
#[cycle(halves)]
pub fn turn_all<R: Threads + Sync, W: Send, F: Fn(&mut W) -> u64 + Sync>(
    rt: &R,
    turn: &F,
    at_once: bool,
    elements: &mut [W],
) -> u64
    requires { All (AcceptsIt F.Fn turn.now) elements.old }
    ensures { Turned F.Fn turn.now elements.old elements.new result }
{
    let count = elements.len();
    if count == 0 {
        return 0;
    }
    if count == 1 {
        return turn_one(turn, &mut elements[0]);
    }
    let (front, back) = elements.split_at_mut(count / 2);
    let (a, b) = both_halves(rt, turn, at_once, front, back);
    a.saturating_add(b)
}

/// The same of two halves.
#[cycle(halves)]
fn both_halves<R: Threads + Sync, W: Send, F: Fn(&mut W) -> u64 + Sync>(
    rt: &R,
    turn: &F,
    at_once: bool,
    front: &mut [W],
    back: &mut [W],
) -> (u64, u64)
    requires some_front { 0 < length front.old }
    requires some_back { 0 < length back.old }
    requires front { All (AcceptsIt F.Fn turn.now) front.old }
    requires back { All (AcceptsIt F.Fn turn.now) back.old }
    ensures front { Turned F.Fn turn.now front.old front.new result.0 }
    ensures back { Turned F.Fn turn.now back.old back.new result.1 }
{
    if !at_once {
        let a = turn_all(rt, turn, at_once, front);
        let b = turn_all(rt, turn, at_once, back);
        return (a, b);
    }
    let mut first = || -> u64
        requires { IsSync R.row × IsSync F.row × IsSend W.row × All (AcceptsIt F.Fn turn.now) front.now }
        ensures { Turned F.Fn turn.entry.now front.entry.now front.exit.now result }
    { turn_all(rt, turn, true, front) };
    let mut second = || -> u64
        requires { IsSync R.row × IsSync F.row × IsSend W.row × All (AcceptsIt F.Fn turn.now) back.now }
        ensures { Turned F.Fn turn.entry.now back.entry.now back.exit.now result }
    { turn_all(rt, turn, true, back) };
    let (a, b) = join_mut(rt, &mut first, &mut second);
    (a, b)
}

/// One call.
fn turn_one<W, F: Fn(&mut W) -> u64>(turn: &F, element: &mut W) -> u64
    requires { AcceptsIt F.Fn turn.now element.old }
    ensures { TurnsInto F.Fn turn.now element.old result element.new }
{
    turn(element)
}
