//! Refusals of protocols.

use hem_abstract::Breach;
use hem_base::{Kind, RuleId};
use hem_syntax::Protocol;
use hem_template::Clause;

/// Why a protocol isn't disciplined: its first rule in text order that breaks a clause, with the first clause that the
/// rule breaks.
#[derive(Drop)]
pub struct Refusal {
    /// The kind of the rule.
    pub kind: Kind,
    /// The name of the rule.
    pub rule: RuleId,
    /// The first clause that the rule breaks.
    pub clause: Clause,
    /// For `Clause::Stable`, and for no other clause, the first partner that breaks the rule, with the least state.
    pub breach: Option<Breach>,
    /// The protocol, as it was given.
    pub back: Protocol,
}
