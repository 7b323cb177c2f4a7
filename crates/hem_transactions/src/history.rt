//! The transactions of a history.

ghost use Rattle.std.specs.Prelude.{◌≡◌, ℕ, take, IfOk};
ghost use Rattle.hem_system.specs.State.{State, start, Runs};
ghost use Rattle.hem_trace.specs.History.{events};
ghost use Rattle.hem_trace.specs.Tags.{numbers_of};
ghost use Rattle.hem_trace.specs.Laws.{AreNumbersBySenders};
ghost use Rattle.hem_serial.specs.Histories.{IsHistory, ListsAreShort};
ghost use Rattle.hem_transactions.specs.Transactions.{FireAtMostThrice};

use crate::replay::numbered_replay;
use hem_base::{Firing, OutOfMemory};
use hem_syntax::Protocol;
use hem_system::ReplayFault;
use hem_tree::Tree;
use hem_work::Work;
use std::alloc::Global;

/// The number of each firing's transaction, in a history that runs from the start: `numbers` is the definition, by numbers
/// that go along with messages, and `by_senders` says the same by who sent what a firing takes. Where the protocol is
/// disciplined, after every prefix of the history each list between an object and its parent is short, and each
/// transaction fires at most three times at an object of a line.
pub fn transactions(
    alloc: Global,
    p: &Protocol,
    tree: &Tree,
    work: &Work,
    history: &[Firing],
) -> Result<Vec<usize>, OutOfMemory>
    requires { (s : State) × Runs p.now tree.now (start p.now tree.now work.now) history.now s }
    ensures numbers { IfOk result (λ numbers. numbers.items ≡ numbers_of tree.now (events p.now tree.now (start p.now tree.now work.now) history.now)) }
    ensures by_senders { IfOk result (λ numbers. AreNumbersBySenders tree.now (events p.now tree.now (start p.now tree.now work.now) history.now) numbers.items) }
    ensures lists_stay_short { (s : State) (n : ℕ) → IsHistory p.now tree.now work.now history.now s → (mid : State) × Runs p.now tree.now (start p.now tree.now work.now) (take n history.now) mid × ListsAreShort mid }
    ensures few_firings { IfOk result (λ numbers. (s : State) → IsHistory p.now tree.now work.now history.now s → FireAtMostThrice history.now numbers.items) }
{
    match numbered_replay(alloc, p, tree, work, history) {
        Ok(run) => Ok(run.into_numbers()),
        Err(ReplayFault::OutOfMemory) => Err(OutOfMemory),
        Err(ReplayFault::Illegal { place: _, state: _ }) => { unreachable!("the history runs") }
    }
}
