//! Merging journals by stamp, line and object.

ghost use Rattle.std.specs.Prelude.{◌≡◌, ◌++◌, [], List, length, map, flat_map, take, IfOk, OnOk, IsPermutation};
ghost use Rattle.hem_base.specs.declared.ids.Stamped.{Stamped as Entry};
ghost use Rattle.hem_syntax.specs.Protocol.{Protocol};
ghost use Rattle.hem_tree.specs.Tree.{Tree};
ghost use Rattle.hem_system.specs.State.{State};
ghost use Rattle.hem_law.specs.Printed.{IsFresh};
ghost use Rattle.hem_parts.specs.Parts.{Parts};
ghost use Rattle.hem_parts.specs.Tied.{AreTied};
ghost use Rattle.hem_parts.specs.Merged.{IsSorted, stamped_of, all_made, journal};
ghost use Rattle.hem_merge.specs.Journals.{all_of, IsMerged};

use hem_base::{Firing, List, OutOfMemory, Stamped};
use std::alloc::Global;

/// How many firings all journals have.
fn count_of(journals: &[List<Stamped>]) -> usize {
    let mut count: usize = 0;
    for journal in journals {
        count = count.saturating_add(journal.len());
    }
    count
}

/// The firings of all journals, one journal after another.
fn gathered(alloc: Global, journals: &[List<Stamped>]) -> Result<Vec<Stamped>, OutOfMemory>
    ensures { IfOk result (λ all. all.items ≡ all_of journals.now) }
{
    let mut all = Vec::with_capacity(alloc, count_of(journals))?;
    for journal in journals {
        all.extend_from_slice(journal.as_slice())?;
    }
    Ok(all)
}

/// Sorts stamped firings by stamp, line and object. It takes time in proportion to their number times the logarithm of
/// the number of rising pieces in which they stand.
fn sorted(mut all: Vec<Stamped>) -> Result<Vec<Stamped>, OutOfMemory>
    ensures same { IfOk result (λ v. IsPermutation all.items v.items) }
    ensures sorted { IfOk result (λ v. IsSorted (λ s. s) v.items) }
{
    all.sort_by_key(|stamped| {
        (
            stamped.stamp,
            stamped.firing.line.0,
            stamped.firing.object.0,
        )
    })?;
    Ok(all)
}

/// The firings of stamped ones, in their order.
fn firings_of(alloc: Global, all: &[Stamped]) -> Result<Vec<Firing>, OutOfMemory>
    ensures { IfOk result (λ history. map (λ s. s.firing) all.now ≡ history.items) }
{
    let mut history = Vec::with_capacity(alloc, all.len())?;
    for stamped in all {
        history.push(stamped.firing)?;
    }
    Ok(history)
}

/// The firings of all journals in the order of stamp, line and object, each as often as in the journals.
/// A journal is the list of one object's stamped firings on one line, with rising stamps. Where the journals are those of
/// tied parts, this is their one history.
pub fn merge(alloc: Global, journals: &[List<Stamped>]) -> Result<Vec<Firing>, OutOfMemory>
    ensures merged { IfOk result (λ history. IsMerged journals.now history.items) }
    ensures history { IfOk result (λ history. (p : Protocol) (tree : Tree) (old : State) (parts : Parts) (new : State) → IsFresh tree old → AreTied p tree old parts new → all_of journals.now ≡ map stamped_of (all_made (length old) (length tree) parts) → history.items ≡ map (λ s. s.firing) (journal (length old) (length tree) parts)) }
{
    let all = sorted(gathered(alloc, journals)?)?;
    let history = firings_of(alloc, all.as_slice())?;
    Ok(history)
}
