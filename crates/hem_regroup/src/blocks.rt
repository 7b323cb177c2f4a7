//! The blocks of transactions in their order.

ghost use Rattle.std.specs.Prelude.{◌≡◌, ℕ, ◌<◌, [], length, slice_index_or, true, map, IfOk};
ghost use Rattle.hem_law.specs.Orders.{stands_in};
ghost use Rattle.hem_tree.specs.Tree.{below};
ghost use Rattle.hem_regroup.specs.Members.{IsBelow};
ghost use Rattle.hem_regroup.specs.Out.{AreOnce};
ghost use Rattle.hem_regroup.specs.Printed.{firings_in, block_among, blocks_of};
ghost use Rattle.hem_regroup.specs.Ranks.{started};

use crate::lists::{append, empty_lists, take_out};
use crate::member::Member;
use crate::order::printed_order;
use hem_base::{Firing, List, OutOfMemory};
use hem_trace::Block;
use std::alloc::Global;

/// The firings of each of so many transactions, in the order of the members.
fn group(alloc: Global, count: usize, members: &[Member]) -> Result<List<List<Firing>>, OutOfMemory>
    requires { IsBelow count members.now }
    ensures size { IfOk result (λ groups. length groups ≡ count) }
    ensures firings { IfOk result (λ groups. (t : ℕ) → slice_index_or groups t [] ≡ firings_in members.now t) }
{
    let mut groups = empty_lists(alloc, count)?;
    for member in members {
        append(&mut groups, member.number, member.firing)?;
    }
    Ok(groups)
}

/// The blocks of transactions, of the number and the firings of each.
fn all_blocks(
    alloc: Global,
    starts: &[usize],
    order: &[usize],
    mut groups: List<List<Firing>>,
) -> Result<Vec<Block>, OutOfMemory>
    requires once { AreOnce order.now }
    requires below { (u : ℕ) → stands_in order.now u ≡ true → u < length groups }
    requires each { length groups ≡ length starts.now }
    ensures { IfOk result (λ blocks. blocks.items ≡ map (started starts.now) (map (block_among groups) order.now)) }
{
    let mut blocks = Vec::with_capacity(alloc, order.len())?;
    for rank in order {
        let firings = take_out(alloc, &mut groups, *rank);
        blocks.push(Block {
            number: starts[*rank],
            firings,
        })?;
    }
    Ok(blocks)
}

/// The numbers below a number.
fn all_below(alloc: Global, count: usize) -> Result<Vec<usize>, OutOfMemory>
    ensures { IfOk result (λ numbers. numbers.items ≡ below count) }
{
    let mut numbers = Vec::with_capacity(alloc, count)?;
    for number in 0..count {
        numbers.push(number)?;
    }
    Ok(numbers)
}

/// The blocks of all transactions, in their order. The members are those of these transactions in their normal order, each
/// with its transaction's rank as its number.
pub(crate) fn blocks_in_order(
    alloc: Global,
    starts: &[usize],
    members: &[Member],
) -> Result<Vec<Block>, OutOfMemory>
    requires { IsBelow (length starts.now) members.now }
    ensures { IfOk result (λ blocks. blocks.items ≡ map (started starts.now) (blocks_of members.now (below (length starts.now)))) }
{
    let count = starts.len();
    let left = all_below(alloc, count)?;
    let order = printed_order(alloc, count, left.as_slice(), members)?;
    let groups = group(alloc, count, members)?;
    all_blocks(alloc, starts, order.as_slice(), groups)
}
