//! Replaying a history.

ghost use Rattle.std.specs.Prelude.{◌≡◌, IfOk, IfErr};
ghost use Rattle.hem_system.specs.declared.history.ReplayFault.TheVariants.{OutOfMemory as Memory};
ghost use Rattle.hem_system.specs.State.{start, Runs};
ghost use Rattle.hem_system.specs.Faults.{IsReplayFault};

use crate::fault::StepFault;
use crate::system::System;
use hem_base::{Firing, OutOfMemory};
use hem_syntax::Protocol;
use hem_tree::Tree;
use hem_work::Work;
use std::alloc::Global;

/// Why a history isn't replayed.
#[derive(Drop)]
pub enum ReplayFault {
    /// The firings before this place are possible, and lead to this state. The firing at this place isn't possible in it.
    Illegal { place: usize, state: System },
    OutOfMemory,
}

impl From<OutOfMemory> for ReplayFault {
    ghost from_gives = { λ _ e. e ≡ Memory };

    fn from(_e: OutOfMemory) -> ReplayFault {
        ReplayFault::OutOfMemory
    }
}

/// Makes the firings of the history in order, from this state.
fn replay_from(
    mut system: System,
    p: &Protocol,
    tree: &Tree,
    history: &[Firing],
) -> Result<System, ReplayFault>
    ensures ok { IfOk result (λ now. Runs p.now tree.now system history.now now) }
    ensures illegal { IfErr result (IsReplayFault p.now tree.now system history.now) }
{
    for (place, firing) in history.iter().enumerate() {
        match system.step(p, tree, *firing) {
            Ok(_event) => {}
            Err(StepFault::NotEnabled) => {
                return Err(ReplayFault::Illegal {
                    place,
                    state: system,
                });
            }
            Err(StepFault::OutOfMemory) => return Err(ReplayFault::OutOfMemory),
        }
    }
    Ok(system)
}

/// Makes the firings of the history in order, from the start.
pub fn replay(
    alloc: Global,
    p: &Protocol,
    tree: &Tree,
    work: &Work,
    history: &[Firing],
) -> Result<System, ReplayFault>
    ensures ok { IfOk result (λ system. Runs p.now tree.now (start p.now tree.now work.now) history.now system) }
    ensures illegal { IfErr result (IsReplayFault p.now tree.now (start p.now tree.now work.now) history.now) }
{
    let system = System::start(alloc, p, tree, work)?;
    replay_from(system, p, tree, history)
}
