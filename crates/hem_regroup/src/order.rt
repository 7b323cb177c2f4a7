//! The order of transactions.

ghost use Rattle.std.specs.Prelude.{◌≡◌, ℕ, ◌<◌, length, true, IfOk};
ghost use Rattle.hem_law.specs.Orders.{stands_in};
ghost use Rattle.hem_regroup.specs.Members.{precedes, IsWhole};
ghost use Rattle.hem_regroup.specs.Turns.{turns};
ghost use Rattle.hem_regroup.specs.Ready.{Ascends};

use crate::graph::Graph;
use crate::member::Member;
use crate::ready::{first_ready, release};
use hem_base::OutOfMemory;
use std::alloc::Global;

/// The transactions left in their order: at each turn the one of least number that none of the others precedes, until
/// there is none. All numbers are below the count, and the members are the firings of all transactions in their normal order.
pub(crate) fn printed_order(
    alloc: Global,
    count: usize,
    left: &[usize],
    members: &[Member],
) -> Result<Vec<usize>, OutOfMemory>
    requires ascends { Ascends left.now }
    requires below { (u : ℕ) → stands_in left.now u ≡ true → u < count }
    requires whole { IsWhole members.now left.now }
    ensures { IfOk result (λ out. out.items ≡ turns (length left.now) (precedes members.now) left.now) }
{
    let Graph { nexts, mut counts } = Graph::of(alloc, count, members)?;
    let followers = nexts.into_vec();
    let mut ready = first_ready(alloc, left, counts.as_slice())?;
    let mut out = Vec::with_capacity(alloc, left.len())?;
    for _turn in 0..left.len() {
        match ready.pop_first() {
            None => return Ok(out),
            Some(number) => {
                out.push(number)?;
                release(followers[number].as_slice(), &mut counts, &mut ready)?;
            }
        }
    }
    Ok(out)
}
