//! Guards in abstract states.

ghost use Rattle.std.specs.Prelude.{◌≡◌};
ghost use Rattle.hem_abstract.specs.Abstract.{atom_at, guard_at};

use crate::Abstract;
use crate::kids::{all_in, some_in};
use hem_base::MsgId;
use hem_syntax::Atom;

/// Whether a condition holds in an abstract state, for an asked id.
fn atom_at(at: &Abstract, asked: Option<MsgId>, atom: Atom) -> bool
    ensures { result ≡ atom_at at.now asked atom }
{
    match atom {
        Atom::Field(field, set) => match at.fields.get(usize::from(field)) {
            Some(status) => set.has(*status),
            None => false,
        },
        Atom::KidsAll(set) => all_in(at.kids, set),
        Atom::KidsAny(set) => some_in(at.kids, set),
        Atom::Asked(id) => match asked {
            Some(asked) => asked == id,
            None => false,
        },
        Atom::Me(_) | Atom::OthersAll(_) | Atom::OthersAny(_) => false,
    }
}

/// Whether a guard holds in an abstract state, where the request that the lock keeps has the asked id. A condition on the
/// requester or on the children but the requester holds in no abstract state.
pub fn guard_at(guard: &[Atom], at: &Abstract, asked: Option<MsgId>) -> bool
    ensures { result ≡ guard_at guard.now at.now asked }
{
    guard.iter().all(|atom| atom_at(at, asked, *atom))
}
