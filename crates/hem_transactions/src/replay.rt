//! Replaying a history with the numbers of its transactions.

ghost use Rattle.std.specs.Prelude.{◌≡◌, [], length, IfOk, IfErr};
ghost use Rattle.hem_system.specs.State.{start, Runs};
ghost use Rattle.hem_system.specs.Faults.{IsReplayFault};
ghost use Rattle.hem_trace.specs.History.{events};
ghost use Rattle.hem_trace.specs.Tags.{no_tags, numbers_of};
ghost use Rattle.hem_transactions.specs.Carried.{HaveLists, Carry};

use crate::line::LineNumbers;
use crate::lines::{follow, no_messages};
use hem_base::{Firing, List, OutOfMemory};
use hem_syntax::Protocol;
use hem_system::{ReplayFault, StepFault, System};
use hem_tree::Tree;
use hem_work::Work;
use std::alloc::Global;

/// A history that was replayed.
#[derive(Drop)]
pub struct NumberedRun {
    /// The state to which the history leads.
    pub end: System,
    /// Of each firing the number of its transaction: the place in the history, from 0, of the transaction's first firing.
    pub numbers: Vec<usize>,
}

impl NumberedRun {
    /// The numbers alone.
    pub fn into_numbers(self) -> Vec<usize>
        ensures { result.items ≡ self.numbers.items }
    {
        self.numbers
    }
}

/// No numbers, with room for so many.
fn no_numbers(alloc: Global, room: usize) -> Result<List<usize>, OutOfMemory>
    ensures { IfOk result (λ numbers. numbers ≡ []) }
{
    let numbers = Vec::with_capacity(alloc, room)?;
    Ok(List::from_vec(numbers))
}

/// Makes the firings of the history in order, from a state in which no message is on its way.
fn replay_from(
    alloc: Global,
    mut system: System,
    mut lines: List<LineNumbers>,
    p: &Protocol,
    tree: &Tree,
    history: &[Firing],
) -> Result<NumberedRun, ReplayFault>
    requires size { length lines ≡ length system }
    requires lists { HaveLists tree.now lines }
    requires none { Carry no_tags lines }
    ensures runs { IfOk result (λ run. Runs p.now tree.now system history.now run.end) }
    ensures numbers { IfOk result (λ run. run.numbers.items ≡ numbers_of tree.now (events p.now tree.now system history.now)) }
    ensures refused { IfErr result (IsReplayFault p.now tree.now system history.now) }
{
    let mut numbers = no_numbers(alloc, history.len())?;
    for (place, firing) in history.iter().enumerate() {
        match system.step(p, tree, *firing) {
            Ok(event) => {
                let number = follow(&mut lines, tree, &event, place)?;
                numbers.push(number)?;
            }
            Err(StepFault::NotEnabled) => {
                return Err(ReplayFault::Illegal {
                    place,
                    state: system,
                });
            }
            Err(StepFault::OutOfMemory) => return Err(ReplayFault::OutOfMemory),
        }
    }
    Ok(NumberedRun {
        end: system,
        numbers: numbers.into_vec(),
    })
}

/// Makes the firings of the history in order, from the start, and tells the number of each firing's transaction: where it
/// takes nothing or a processor's request its own place, and else the number of the firing that sent what it takes, of
/// several messages the least awaited child's. It takes time linear in the history.
pub fn numbered_replay(
    alloc: Global,
    p: &Protocol,
    tree: &Tree,
    work: &Work,
    history: &[Firing],
) -> Result<NumberedRun, ReplayFault>
    ensures runs { IfOk result (λ run. Runs p.now tree.now (start p.now tree.now work.now) history.now run.end) }
    ensures numbers { IfOk result (λ run. run.numbers.items ≡ numbers_of tree.now (events p.now tree.now (start p.now tree.now work.now) history.now)) }
    ensures refused { IfErr result (IsReplayFault p.now tree.now (start p.now tree.now work.now) history.now) }
{
    let system = System::start(alloc, p, tree, work)?;
    let lines = no_messages(alloc, work.lines(), tree)?;
    replay_from(alloc, system, lines, p, tree, history)
}
