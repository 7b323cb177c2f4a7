//! Sets of children.

ghost use Rattle.std.specs.Prelude.{◌≡◌, ◌<◌, ◌+◌, ◌^◌, ◌&&◌, not, cond, length};
ghost use Rattle.hem_base.specs.Sets.{bits_where};
ghost use Rattle.hem_object.specs.Guard.{has, is_requester};
ghost use Rattle.hem_object.specs.Targets.{kid_is_in, targets_of};

use crate::View;
use crate::guard::is_requester;
use crate::local::Local;
use hem_base::{KidSet, Status8, StatusSet};
use hem_syntax::SendTo;

/// The set of children below a place, and with it the child at that place where it is wanted.
fn with_kid(kids: u16, place: usize, wanted: bool) -> u16
    requires place { place < 16 }
    requires below { kids < 2 ^ place }
    ensures { result ≡ kids + cond wanted (2 ^ place) 0 }
{
    if wanted { kids | 1 << place } else { kids }
}

/// Whether an entry is in the set, and not the requester's.
fn is_other_in(set: StatusSet, status: Status8, view: &View, place: usize) -> bool
    ensures { result ≡ (has set status && not (is_requester view.now place)) }
{
    set.has(status) && !is_requester(view, place)
}

impl Local {
    /// The children whose entry is in the set.
    fn kids_in(&self, set: StatusSet) -> KidSet
        ensures { result ≡ record { 0 = bits_where (kid_is_in self.now set) (length self.now.dir) } }
    {
        let mut kids = 0;
        for (place, status) in self.dir.iter().enumerate() {
            kids = with_kid(kids, place, set.has(*status));
        }
        KidSet(kids)
    }

    /// The children but the requester whose entry is in the set.
    fn others_in(&self, set: StatusSet, view: &View) -> KidSet
        ensures { result ≡ record { 0 = bits_where (λ k. kid_is_in self.now set k && not (is_requester view.now k)) (length self.now.dir) } }
    {
        let mut kids = 0;
        for (place, status) in self.dir.iter().enumerate() {
            kids = with_kid(kids, place, is_other_in(set, *status, view, place));
        }
        KidSet(kids)
    }

    /// The children that a firing sends to: for a send to `kids` or `others`, those of them whose entry is in the
    /// send's set, and for any other send nobody.
    pub fn targets(&self, to: &SendTo, view: &View) -> KidSet
        ensures { result ≡ targets_of to.now self.now view.now }
    {
        match *to {
            SendTo::Kids(set, _, _) => self.kids_in(set),
            SendTo::Others(set, _, _) => self.others_in(set, view),
            _ => KidSet(0),
        }
    }
}
