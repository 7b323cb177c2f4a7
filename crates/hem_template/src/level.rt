//! The first clause: the root has no parent, and a leaf has no children.

ghost use Rattle.std.specs.Prelude.{◌≡◌};
ghost use Rattle.hem_template.specs.Template.{level_fits};

use hem_base::Kind;
use hem_syntax::{Rule, SendTo, Take};

/// Whether a rule of the root leaves its parent out, and one of a leaf the children.
pub(crate) fn level_fits(kind: Kind, rule: &Rule) -> bool
    ensures { result ≡ level_fits kind rule.now }
{
    match kind {
        Kind::Root => {
            !matches!(rule.take, Take::Parent(_)) && !matches!(rule.send, SendTo::Parent(_, _))
        }
        Kind::Mid => true,
        Kind::Leaf => {
            !matches!(rule.take, Take::Kids(_))
                && !matches!(rule.send, SendTo::Kids(_, _, _) | SendTo::Others(_, _, _))
        }
    }
}
