//! The step of a rule.

ghost use Rattle.std.specs.Prelude.{◌≡◌, ◌<◌, ◌↔◌, length, slice_get, false, Some, Err, IfSome, OnOk, OnErr};
ghost use Rattle.std.specs.List.{list_all};
ghost use Rattle.hem_module.specs.Step.{clause_holds};
ghost use Rattle.hem_module.specs.Places.{clause_of};
ghost use Rattle.hem_module.specs.States.{held_of, can_fire, stepped, Steps, can_at};

use crate::changes::{lose_all, send_all, write_all};
use crate::modules::Modules;
use crate::plan::Plan;
use crate::rules::{ModClause, ModRule};
use crate::state::ModState;
use hem_base::OutOfMemory;
use std::alloc::Global;

/// Why a rule makes no step.
#[derive(Clone, Copy, Debug, PartialEq, Eq)]
pub enum ModFault {
    /// A clause of the rule doesn't hold.
    NotEnabled,
    /// There was no memory left.
    OutOfMemory,
}

/// Whether one of a clause's tests holds.
fn clause_holds(s: &ModState, clause: &ModClause) -> bool
    ensures { result ≡ clause_holds (held_of s.now) (clause_of clause.now) }
{
    s.any_holds(clause.atoms.as_slice())
}

/// Whether all clauses hold.
fn all_hold(s: &ModState, clauses: &[ModClause]) -> bool
    ensures { result ≡ list_all (λ c. clause_holds (held_of s.now) (clause_of c)) clauses.now }
{
    clauses.iter().all(|clause| clause_holds(s, clause))
}

/// Whether every clause of a rule holds. It takes no memory.
pub(crate) fn can(rule: &ModRule, s: &ModState) -> bool
    ensures { result ≡ can_fire s.now rule.now }
{
    all_hold(s, rule.clauses.as_slice())
}

/// Makes what a rule does, whether or not it can fire. Where memory is wanted the state stays as it was.
pub(crate) fn make(alloc: Global, rule: &ModRule, s: &mut ModState) -> Result<(), OutOfMemory>
    ensures ok { OnOk result (s.new ≡ stepped s.old rule.now) }
    ensures err { OnErr result (s.new ≡ s.old) }
{
    let plan = Plan::of(alloc, rule.actions.as_slice(), s)?;
    send_all(&mut s.queues, plan.sends.as_slice())?;
    lose_all(&mut s.queues, plan.losses.as_slice());
    write_all(&mut s.regs, plan.writes.as_slice());
    Ok(())
}

/// Whether the rule at a place, from 0, can fire: whether every clause of it holds. It takes no memory.
pub fn mod_can(m: &Modules, rule: usize, s: &ModState) -> bool
    requires { rule < length m.now.rules }
    ensures { result ≡ can_at m.now rule s.now }
{
    can(&m.rules()[rule], s)
}

/// Lets the rule at a place, from 0, fire. All tests and numbers are read from the state before. Where a clause doesn't
/// hold, or memory is wanted, the state stays as it was.
pub fn mod_step(alloc: Global, m: &Modules, rule: usize, s: &mut ModState) -> Result<(), ModFault>
    requires { rule < length m.now.rules }
    ensures ok { OnOk result (Steps m.now rule s.old s.new) }
    ensures refused { (result ≡ Err ModFault.NotEnabled) ↔ (can_at m.now rule s.old ≡ false) }
    ensures err { OnErr result (s.new ≡ s.old) }
{
    let rule = &m.rules()[rule];
    if !can(rule, s) {
        return Err(ModFault::NotEnabled);
    }
    match make(alloc, rule, s) {
        Ok(()) => Ok(()),
        Err(_) => Err(ModFault::OutOfMemory),
    }
}
