//! The transactions that are ready, and the counts of what the others wait for.

ghost use Rattle.std.specs.Prelude.{◌≡◌, ℕ, ◌==◌, ◌-◌, ◌<◌, ◌≤◌, ◌&&◌, ◌||◌, length, slice_index, slice_set, IfOk, OnOk, true};
ghost use Rattle.hem_law.specs.Orders.{stands_in};
ghost use Rattle.hem_regroup.specs.Ready.{is_ready, times, IsReleased};

use hem_base::OutOfMemory;
use std::alloc::Global;
use std::collections::BTreeSet;

/// Those to which no link leads.
pub(crate) fn first_ready(
    alloc: Global,
    left: &[usize],
    counts: &[usize],
) -> Result<BTreeSet<usize>, OutOfMemory>
    requires { (u : ℕ) → stands_in left.now u ≡ true → u < length counts.now }
    ensures { IfOk result (λ ready. (u : ℕ) → is_ready ready u ≡ (stands_in left.now u && slice_index counts.now u == 0)) }
{
    let mut ready = BTreeSet::new(alloc);
    for number in left {
        if counts[*number] == 0 {
            ready.insert(*number)?;
        }
    }
    Ok(ready)
}

/// Counts a transaction down, and makes it ready at 0.
fn lower(
    counts: &mut Vec<usize>,
    ready: &mut BTreeSet<usize>,
    number: usize,
) -> Result<(), OutOfMemory>
    requires within { number < length counts.old.items }
    requires some { 0 < slice_index counts.old.items number }
    ensures counts { counts.new.items ≡ slice_set counts.old.items number (slice_index counts.old.items number - 1) }
    ensures ready { OnOk result ((u : ℕ) → is_ready ready.new u ≡ (is_ready ready.old u || (u == number && slice_index counts.new.items number == 0))) }
{
    counts[number] -= 1;
    if counts[number] == 0 {
        ready.insert(number)?;
    }
    Ok(())
}

/// Counts down those to which the links of a transaction lead, and makes those ready that come to 0.
pub(crate) fn release(
    nexts: &[usize],
    counts: &mut Vec<usize>,
    ready: &mut BTreeSet<usize>,
) -> Result<(), OutOfMemory>
    requires { (u : ℕ) → times nexts.now u ≤ slice_index counts.old.items u }
    ensures { OnOk result (IsReleased nexts.now counts.old.items ready.old counts.new.items ready.new) }
{
    for next in nexts {
        lower(counts, ready, *next)?;
    }
    Ok(())
}
