//! The blocks of ranked firings.

ghost use Rattle.std.specs.Prelude.{◌≡◌, length, map, IfOk};
ghost use Rattle.hem_tree.specs.Tree.{below};
ghost use Rattle.hem_regroup.specs.Normal.{normal_members, AreBelow};
ghost use Rattle.hem_regroup.specs.Printed.{blocks_of};
ghost use Rattle.hem_regroup.specs.Ranks.{started};

use crate::blocks::blocks_in_order;
use crate::firings::Firings;
use crate::normal::normal_order;
use hem_base::OutOfMemory;
use hem_trace::Block;
use std::alloc::Global;

/// The blocks of the transactions of firings that have their ranks as numbers, in the printed order. Each transaction's
/// number is told.
pub(crate) fn blocks_of_ranked(
    alloc: Global,
    starts: &[usize],
    all: &Firings,
) -> Result<Vec<Block>, OutOfMemory>
    requires { AreBelow (length starts.now) all.now }
    ensures { IfOk result (λ blocks. blocks.items ≡ map (started starts.now) (blocks_of (normal_members all.now) (below (length starts.now)))) }
{
    let members = normal_order(alloc, starts.len(), all)?;
    blocks_in_order(alloc, starts, members.as_slice())
}
