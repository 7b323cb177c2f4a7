//! The checker.

ghost use Rattle.std.specs.Prelude.{◌≡◌, ◌↔◌, Ok, Some, option_map, IfOk, IfErr};
ghost use Rattle.hem_check.specs.Discipline.{IsDisciplined, first_broken};
ghost use Rattle.hem_check.specs.Refused.{refusal_of};

use crate::first::first_broken;
use crate::{Accepted, Refusal};
use hem_syntax::Protocol;

/// Takes a protocol exactly where it is disciplined: each rule meets all eight clauses. Else it gives the protocol back
/// with the first rule in text order, root before mid before leaf, that breaks a clause, and the first clause that this
/// rule breaks. It takes no memory.
pub fn check(p: Protocol) -> Result<Accepted, Refusal>
    ensures exact { (result ≡ Ok p) ↔ IsDisciplined p }
    ensures accepted { IfOk result (λ a. a ≡ p) }
    ensures refused { IfErr result (λ r. option_map (refusal_of p) (first_broken p) ≡ Some r) }
{
    match first_broken(&p) {
        None => Ok(Accepted::make(p)),
        Some(found) => Err(Refusal {
            kind: found.kind,
            rule: found.rule,
            clause: found.clause,
            breach: found.breach,
            back: p,
        }),
    }
}
