//! The blocks of a history in the printed order.

ghost use Rattle.std.specs.Prelude.{◌≡◌, ℕ, IfOk};
ghost use Rattle.hem_system.specs.State.{State, Runs, start};
ghost use Rattle.hem_trace.specs.Blocks.{IsSerial, SameFirings, firings_of};
ghost use Rattle.hem_law.specs.Orders.{PrecedenceRanks};
ghost use Rattle.hem_numbered.specs.Together.{StandTogether, StandAtMostThrice};
ghost use Rattle.hem_serial.specs.Histories.{printed_blocks, normal_order, normal_entries, normal_rows};
ghost use Rattle.hem_regroup.specs.declared.regrouping.RegroupFault.TheVariants.{OutOfMemory as Memory};
ghost use Rattle.hem_regroup.specs.Histories.{ParentsAndChildrenAgree};

use crate::known::known;
use crate::replayed::{Regrouped, replay_and_regroup};
use hem_base::{Firing, OutOfMemory};
use hem_check::Accepted;
use hem_system::ReplayFault;
use hem_trace::Block;
use hem_tree::Tree;
use hem_work::Work;
use std::alloc::Global;
use std::thread::Threads;

/// Why a history isn't regrouped. Transactions never wait for each other in a circle, so that each comes out.
#[derive(Clone, Copy, Debug, PartialEq, Eq)]
pub enum RegroupFault {
    OutOfMemory,
}

impl From<OutOfMemory> for RegroupFault {
    ghost from_gives = { λ _ e. e ≡ Memory };

    fn from(_e: OutOfMemory) -> RegroupFault {
        RegroupFault::OutOfMemory
    }
}

/// The blocks of a history in the printed order: the firings of each transaction in the normal order, and the transactions
/// so that none stands after one that it precedes. The clauses say of the history that is handed in what the laws of
/// `hem_serial` say of every history of a disciplined protocol.
pub fn regroup<R: Threads + Sync>(
    rt: &R,
    alloc: Global,
    a: &Accepted,
    tree: &Tree,
    work: &Work,
    history: &[Firing],
) -> Result<Vec<Block>, RegroupFault>
    requires { (s : State) × Runs a.now tree.now (start a.now tree.now work.now) history.now s }

    // The blocks, one after another, are a history to the same state, each one whole transaction, with the same firings.
    ensures printed_order { IfOk result (λ blocks. blocks.items ≡ printed_blocks a.now tree.now work.now history.now) }
    ensures serial { (s : State) → Runs a.now tree.now (start a.now tree.now work.now) history.now s → IfOk result (λ blocks. IsSerial a.now tree.now (start a.now tree.now work.now) blocks.items s) }
    ensures same_firings { IfOk result (λ blocks. SameFirings history.now (firings_of blocks.items)) }
    ensures same_state { (s : State) → Runs a.now tree.now (start a.now tree.now work.now) history.now s → IfOk result (λ blocks. Runs a.now tree.now (start a.now tree.now work.now) (firings_of blocks.items) s) }

    // The normal order runs to the same state; in it transactions stand together at each object, at most three firings
    // long, parents and children agree, and no transactions precede one another in a circle.
    ensures normal_order_runs { (s : State) → Runs a.now tree.now (start a.now tree.now work.now) history.now s → Runs a.now tree.now (start a.now tree.now work.now) (normal_order a.now tree.now work.now history.now) s }
    ensures transactions_stand_together { (l : ℕ) → StandTogether (normal_rows a.now tree.now work.now history.now l) }
    ensures at_most_thrice { (l : ℕ) → StandAtMostThrice (normal_rows a.now tree.now work.now history.now l) }
    ensures parents_and_children_agree { ParentsAndChildrenAgree tree.now (normal_rows a.now tree.now work.now history.now) }
    ensures no_circle { PrecedenceRanks (normal_entries a.now tree.now work.now history.now) }
{
    known(a, tree);
    match replay_and_regroup(rt, alloc, a, tree, work, history) {
        Ok(Regrouped { end: _, blocks }) => Ok(blocks),
        Err(ReplayFault::OutOfMemory) => Err(RegroupFault::OutOfMemory),
        Err(ReplayFault::Illegal { place: _, state: _ }) => unreachable!("the history runs"),
    }
}
