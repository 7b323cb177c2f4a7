//! The journals of a crew.

ghost use Rattle.std.specs.Prelude.{◌≡◌, ◌<◌, ◌≤◌, ◌++◌, ◌∷◌, [], map, ℕ, length, slice_get, Some, IfOk, OnOk};
ghost use Rattle.hem_worker.specs.Workers.{Worker as Seen, IsChangedAt, AreChanged};
ghost use Rattle.hem_crew.specs.Crew.{journal_on, journals_of};
ghost use Rattle.hem_runner.specs.Runs.{IsLineTaken};

use hem_base::{List, OutOfMemory, Stamped};
use hem_wire::Net;
use hem_worker::Worker;
use std::alloc::Global;

/// Takes the journal of a line out of a worker.
fn take_one<N: Net>(alloc: Global, line: usize, worker: &mut Worker<N>) -> List<Stamped>
    requires { line < length worker.old.lines }
    ensures journal { result ≡ journal_on line worker.old }
    ensures taken { IsLineTaken line worker.old worker.new }
{
    worker.take_journal(alloc, line)
}

/// The same of the worker at a place.
fn take_at<N: Net>(alloc: Global, line: usize, crew: &mut [Worker<N>], at: usize) -> List<Stamped>
    requires inside { at < length crew.old }
    requires line { (w : Seen) → slice_get crew.old at ≡ Some w → line < length w.lines }
    ensures journal { (w : Seen) → slice_get crew.old at ≡ Some w → result ≡ journal_on line w }
    ensures taken { IsChangedAt (IsLineTaken line) at crew.old crew.new }
{
    take_one(alloc, line, &mut crew[at])
}

/// Takes the journals of a line out of all workers, and puts them at the end, object after object.
fn take_line<N: Net>(
    alloc: Global,
    line: usize,
    crew: &mut [Worker<N>],
    journals: &mut List<List<Stamped>>,
) -> Result<(), OutOfMemory>
    requires { (o : ℕ) (w : Seen) → slice_get crew.old o ≡ Some w → line < length w.lines }
    ensures journals { OnOk result (journals.new ≡ journals.old ++ map (journal_on line) crew.old) }
    ensures taken { OnOk result (AreChanged (λ o. IsLineTaken line) crew.old crew.new) }
{
    for at in 0..crew.len() {
        let journal = take_at(alloc, line, crew, at);
        journals.push(journal)?;
    }
    Ok(())
}

/// Takes all journals out of a crew: line after line, and on each line object after object.
pub(crate) fn take_journals<N: Net>(
    alloc: Global,
    lines: u32,
    crew: &mut [Worker<N>],
) -> Result<List<List<Stamped>>, OutOfMemory>
    requires { (o : ℕ) (w : Seen) → slice_get crew.old o ≡ Some w → length w.lines ≡ lines }
    ensures { IfOk result (λ journals. journals ≡ journals_of lines crew.old) }
{
    let mut journals = List::new(alloc);
    for line in 0..lines {
        take_line(alloc, line as usize, crew, &mut journals)?;
    }
    Ok(journals)
}
