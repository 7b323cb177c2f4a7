//! A round of firings over all lines of an object.

ghost use Rattle.std.specs.Prelude.{◌≡◌, ◌^◌, ◌<◌, ◌≤◌, ℕ, [], length, slice_get, Some, OnOk};
ghost use Rattle.hem_turns.specs.OnLine.{OnLine as Seen, HaveFired};
ghost use Rattle.hem_worker.specs.Workers.{IsChangedAt, AreChanged, IsSameButRoom, IsJournalTaken, HasRoom};
ghost use Rattle.hem_worker.specs.Rounds.{IsRoundOf};

use hem_base::{Gate, LineId, List, ObjectId, OutOfMemory, Stamped};
use hem_ends::Look;
use hem_syntax::Protocol;
use hem_turns::{Burst, OnLine, Place};
use hem_wire::Net;
use std::alloc::Global;
use std::mem;

/// Makes room for so many firings on the line at a place.
fn reserve_at<N: Net>(
    lines: &mut List<OnLine<N>>,
    at: usize,
    burst: usize,
) -> Result<(), OutOfMemory>
    requires { at < length lines.old }
    ensures same { IsChangedAt IsSameButRoom at lines.old lines.new }
    ensures room { OnOk result ((line : Seen) → slice_get lines.new at ≡ Some line → burst ≤ line.room) }
{
    let line = lines.at_mut(at);
    line.reserve(burst)
}

/// Makes room for so many firings on each line.
pub(crate) fn reserve_all<N: Net>(
    lines: &mut List<OnLine<N>>,
    burst: usize,
) -> Result<(), OutOfMemory>
    ensures same { AreChanged (λ l. IsSameButRoom) lines.old lines.new }
    ensures room { OnOk result (HasRoom burst lines.new) }
{
    for at in 0..lines.len() {
        reserve_at(lines, at, burst)?;
    }
    Ok(())
}

/// Fires at most so many times on the line at a place.
fn fire_at<N: Net, G: Gate>(
    lines: &mut List<OnLine<N>>,
    at: usize,
    p: &Protocol,
    children: &[ObjectId],
    place: Place,
    gate: &G,
    burst: Burst,
    look: &mut Look,
) -> u64
    requires there { at < length lines.old }
    requires few { at < 2 ^ 32 }
    requires kids { (line : Seen) → slice_get lines.old at ≡ Some line → length line.ends.kids ≤ 8 }
    requires room { (line : Seen) → slice_get lines.old at ≡ Some line → burst.most ≤ line.room }
    ensures most { result ≤ burst.most }
    ensures fired { IsChangedAt (HaveFired p.now place.kind place.self_count (record { 0 = at }) place.object children.now result burst.most) at lines.old lines.new }
{
    let line = lines.at_mut(at);
    line.fire_many(p, children, place, LineId(at as u32), gate, burst, look)
}

/// Fires at most so many times, on one line after another.
pub(crate) fn fire_all<N: Net, G: Gate>(
    lines: &mut List<OnLine<N>>,
    p: &Protocol,
    children: &[ObjectId],
    place: Place,
    gate: &G,
    burst: Burst,
) -> u64
    requires few { length lines.old < 2 ^ 32 }
    requires kids { (l : ℕ) (line : Seen) → slice_get lines.old l ≡ Some line → length line.ends.kids ≤ 8 }
    requires room { HasRoom burst.most lines.old }
    ensures { IsRoundOf p.now place.kind place.self_count place.object children.now burst.most result lines.old lines.new }
{
    let mut look = Look::new();
    let mut fired = 0;
    for at in 0..lines.len() {
        let left = Burst {
            before: burst.before.saturating_add(fired),
            most: burst.most - fired,
        };
        fired += fire_at(lines, at, p, children, place, gate, left, &mut look);
    }
    fired
}

/// Takes the entries of a journal out. It takes no memory.
fn taken(alloc: Global, journal: &mut Vec<Stamped>) -> List<Stamped>
    ensures journal { result ≡ journal.old.items }
    ensures empty { journal.new.items ≡ [] }
{
    List::from_vec(mem::replace(journal, Vec::new(alloc)))
}

/// Takes the journal of the line at a place out. It takes no memory.
pub(crate) fn take_journal_at<N: Net>(
    lines: &mut List<OnLine<N>>,
    at: usize,
    alloc: Global,
) -> List<Stamped>
    requires { at < length lines.old }
    ensures { IsChangedAt (IsJournalTaken result) at lines.old lines.new }
{
    let line = lines.at_mut(at);
    taken(alloc, &mut line.journal)
}
