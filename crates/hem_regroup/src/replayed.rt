//! Histories that are replayed and regrouped at once.

ghost use Rattle.std.specs.Prelude.{◌≡◌, IfOk, IfErr};
ghost use Rattle.hem_system.specs.State.{start, Runs};
ghost use Rattle.hem_system.specs.Faults.{IsReplayFault};
ghost use Rattle.hem_trace.specs.Blocks.{IsSerial, SameFirings, firings_of};
ghost use Rattle.hem_serial.specs.Histories.{printed_blocks};
ghost use Rattle.hem_regroup.specs.Histories.{IsNumberedHistory};

use crate::firings::Firings;
use crate::known::known;
use crate::ranked::blocks_of_ranked;
use crate::ranks::Ranks;
use hem_base::{Firing, OutOfMemory};
use hem_check::Accepted;
use hem_syntax::Protocol;
use hem_system::{ReplayFault, System};
use hem_trace::Block;
use hem_transactions::{NumberedRun, numbered_replay};
use hem_tree::Tree;
use hem_work::Work;
use std::alloc::Global;
use std::thread::Threads;

/// A history that was replayed and regrouped.
#[derive(Drop)]
pub struct Regrouped {
    /// The state to which the history leads.
    pub end: System,
    /// Its blocks in the printed order.
    pub blocks: Vec<Block>,
}

/// The blocks of a history whose transactions have these numbers.
fn blocks_of_history(
    alloc: Global,
    p: &Protocol,
    tree: &Tree,
    history: &[Firing],
    numbers: Vec<usize>,
) -> Result<Vec<Block>, OutOfMemory>
    requires { IsNumberedHistory p.now tree.now history.now numbers.items }
    ensures { (it : IsNumberedHistory p.now tree.now history.now numbers.items) → IfOk result (λ blocks. blocks.items ≡ printed_blocks p.now tree.now it.work history.now) }
{
    let Ranks { starts, ranks } = Ranks::of(alloc, numbers)?;
    let all = Firings::of(alloc, p, tree, history, ranks.as_slice())?;
    blocks_of_ranked(alloc, starts.as_slice(), &all)
}

/// Replays a history, and regroups it: each firing is made once. `Illegal` tells the first firing that isn't possible. The
/// blocks, one after another, are a history from the start to the state to which the history leads, each one whole
/// transaction, and have the firings of the history, each as often.
pub fn replay_and_regroup<R: Threads + Sync>(
    _rt: &R,
    alloc: Global,
    a: &Accepted,
    tree: &Tree,
    work: &Work,
    history: &[Firing],
) -> Result<Regrouped, ReplayFault>
    ensures runs { IfOk result (λ r. Runs a.now tree.now (start a.now tree.now work.now) history.now r.end) }
    ensures printed_order { IfOk result (λ r. r.blocks.items ≡ printed_blocks a.now tree.now work.now history.now) }
    ensures serial { IfOk result (λ r. IsSerial a.now tree.now (start a.now tree.now work.now) r.blocks.items r.end) }
    ensures same_firings { IfOk result (λ r. SameFirings history.now (firings_of r.blocks.items)) }
    ensures refused { IfErr result (IsReplayFault a.now tree.now (start a.now tree.now work.now) history.now) }
{
    known(a, tree);
    let p = a.protocol();
    let NumberedRun { end, numbers } = numbered_replay(alloc, p, tree, work, history)?;
    let blocks = blocks_of_history(alloc, p, tree, history, numbers)?;
    Ok(Regrouped { end, blocks })
}
