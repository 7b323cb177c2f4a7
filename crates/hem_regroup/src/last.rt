//! The last transaction at each object.

ghost use Rattle.std.specs.Prelude.{◌≡◌, ◌==◌, ◌<◌, ℕ, [], length, slice_index_or, None, Some, cond, IfOk, OnOk};
ghost use Rattle.hem_regroup.specs.declared.member.Member.{Member as Described};
ghost use Rattle.hem_regroup.specs.Members.{same_place};
ghost use Rattle.hem_regroup.specs.Last.{number_at};

use crate::member::Member;
use hem_base::{List, OutOfMemory};
use std::alloc::Global;
use std::mem;

/// For each object of a line the number of the last member there, in a table that grows as members come.
#[derive(Drop)]
pub(crate) struct LastNumbers {
    lines: List<List<Option<usize>>>,
}

/// Makes the table so long that it has a line.
fn reach_line(
    alloc: Global,
    lines: &mut List<List<Option<usize>>>,
    line: usize,
) -> Result<(), OutOfMemory>
    ensures long { OnOk result (line < length lines.new) }
    ensures same { OnOk result ((l : ℕ) → slice_index_or lines.new l [] ≡ slice_index_or lines.old l []) }
{
    while lines.len() <= line {
        lines.push(List::new(alloc))?;
    }
    Ok(())
}

/// Makes a line so long that it has an object.
fn reach_object(numbers: &mut List<Option<usize>>, object: usize) -> Result<(), OutOfMemory>
    ensures long { OnOk result (object < length numbers.new) }
    ensures same { OnOk result ((o : ℕ) → slice_index_or numbers.new o None ≡ slice_index_or numbers.old o None) }
{
    while numbers.len() <= object {
        numbers.push(None)?;
    }
    Ok(())
}

/// Puts a number at an object, and gives the one that was there.
fn replace_at(
    numbers: &mut List<Option<usize>>,
    object: usize,
    number: usize,
) -> Result<Option<usize>, OutOfMemory>
    ensures last { IfOk result (λ last. last ≡ slice_index_or numbers.old object None) }
    ensures now { OnOk result ((o : ℕ) → slice_index_or numbers.new o None ≡ cond (object == o) (Some number) (slice_index_or numbers.old o None)) }
{
    reach_object(numbers, object)?;
    let last = numbers.at_mut(object);
    Ok(mem::replace(last, Some(number)))
}

impl LastNumbers {
    /// No member yet.
    pub(crate) fn new(alloc: Global) -> LastNumbers
        ensures { (member : Described) → number_at result member ≡ None }
    {
        LastNumbers {
            lines: List::new(alloc),
        }
    }

    /// Takes a member, and gives the number of the last one at its place before it.
    pub(crate) fn replace(
        &mut self,
        alloc: Global,
        member: Member,
    ) -> Result<Option<usize>, OutOfMemory>
        ensures last { IfOk result (λ last. last ≡ number_at self.old member) }
        ensures now { OnOk result ((other : Described) → number_at self.new other ≡ cond (same_place member other) (Some member.number) (number_at self.old other)) }
    {
        let line = member.firing.line.0 as usize;
        reach_line(alloc, &mut self.lines, line)?;
        let numbers = self.lines.at_mut(line);
        replace_at(numbers, member.firing.object.0 as usize, member.number)
    }
}
