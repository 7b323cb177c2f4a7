//! Breaches of stability.

use crate::Abstract;
use hem_base::RuleId;

/// What takes the guard or the value of a waiting request away.
#[derive(Drop)]
pub struct Breach {
    /// The rule that sent the request.
    pub up: RuleId,
    /// The rule that answers the parent meanwhile, or that passes the parent's request on.
    pub down: RuleId,
    /// The rule that then answers the parent, where `down` passes the parent's request on.
    pub second: Option<RuleId>,
    /// The abstract state before that.
    pub at: Abstract,
}
