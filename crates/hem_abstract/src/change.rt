//! Changes of abstract states.

ghost use Rattle.std.specs.Prelude.{◌≡◌};
ghost use Rattle.hem_abstract.specs.Partners.{after};

use crate::Abstract;
use crate::fields::fields_after;
use crate::kids::kids_after;
use hem_base::StatusSet;
use hem_syntax::Assign;

/// The abstract state after a rule's sets, where the children with these statuses are the targets. A set of the targets
/// takes their statuses out and puts its own in; the sets of the value and of the requester change nothing.
pub fn after(at: &Abstract, sets: &[Assign], targets: StatusSet) -> Abstract
    ensures { result ≡ after at.now sets.now targets }
{
    Abstract {
        fields: fields_after(at.fields.as_slice(), sets),
        kids: kids_after(at.kids, sets, targets),
    }
}
