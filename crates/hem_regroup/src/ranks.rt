//! The ranks of transactions.

ghost use Rattle.std.specs.Prelude.{◌≡◌, ℕ, ◌+◌, ◌<◌, ◌≤◌, List, length, slice_index, IfOk, OnOk};
ghost use Rattle.hem_regroup.specs.Ranks.{AreFirst, AreRanks, AreRankedTo};

use hem_base::OutOfMemory;
use std::alloc::Global;

/// The transactions of a history by rank, the one of least number first. Tables by rank have a row for each transaction,
/// and not for each firing.
#[derive(Drop)]
pub(crate) struct Ranks {
    /// Of each transaction its number.
    pub(crate) starts: Vec<usize>,
    /// Of each firing the rank of its transaction.
    pub(crate) ranks: Vec<usize>,
}

/// Puts the rank of the number at a place into its place. Before it the ranks stand.
fn rank_next(
    starts: &mut Vec<usize>,
    ranks: &mut Vec<usize>,
    place: usize,
) -> Result<(), OutOfMemory>
    requires within { place < length ranks.old.items }
    requires least { slice_index ranks.old.items place ≤ place }
    ensures { OnOk result ((numbers : List ℕ) → AreFirst numbers → AreRankedTo numbers place starts.old.items ranks.old.items → AreRankedTo numbers (place + 1) starts.new.items ranks.new.items) }
{
    let number = ranks[place];
    if number == place {
        ranks[place] = starts.len();
        starts.push(place)?;
        Ok(())
    } else {
        ranks[place] = ranks[number];
        Ok(())
    }
}

impl Ranks {
    /// The ranks of firings that have these numbers, in the room of the numbers.
    pub(crate) fn of(alloc: Global, numbers: Vec<usize>) -> Result<Ranks, OutOfMemory>
        requires { AreFirst numbers.items }
        ensures { IfOk result (λ it. AreRanks numbers.items it.starts.items it.ranks.items) }
    {
        let mut starts = Vec::new(alloc);
        let mut ranks = numbers;
        for place in 0..ranks.len() {
            rank_next(&mut starts, &mut ranks, place)?;
        }
        Ok(Ranks { starts, ranks })
    }
}
