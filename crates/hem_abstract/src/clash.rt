//! The search for the least abstract state in which a turn breaks a waiting request.

ghost use Rattle.std.specs.Prelude.{◌≡◌, ◌+◌, ◌≤◌, ◌<◌, ◌++◌, length};
ghost use Rattle.hem_abstract.specs.Stable.{field_lists};
ghost use Rattle.std.specs.Prelude.{None};
ghost use Rattle.hem_abstract.specs.First.{first_with};
ghost use Rattle.hem_abstract.specs.FieldSets.{kept_by_all, any_fields};
ghost use Rattle.hem_abstract.specs.Search.{clash_of, clash_kids, clash_at};

use crate::Abstract;
use crate::fields::{FieldSets, copied, longer};
use crate::kids::least_kids;
use crate::turn::{Turn, sends_val, sets_val};
use hem_base::{Kind, Status8, StatusSet};
use hem_syntax::Rule;
use std::marker::Model;

/// How a turn clashes with a waiting request, by fields and children apart. Guards and changes are of the fields and of
/// the children apart too, so that the least state has the first fields, and for them the least statuses of children.
#[derive(Drop)]
pub(crate) struct Clash {
    /// The fields at which both can be.
    both: FieldSets,
    /// The fields after which the request's guard still holds.
    stays: FieldSets,
    /// Whether the turn sets the value that the request sends to another one.
    new_val: bool,
    /// The least statuses of the children at which both can be.
    any: Option<StatusSet>,
    /// The least of these after which the request's guard is lost.
    lost: Option<StatusSet>,
}

impl Model for Clash {
    ghost use Rattle.hem_abstract.specs.Search.{Clash as Seen};

    ghost Value = { Seen };

    ghost view = { λ c. record { both = c.both; stays = c.stays; new_val = c.new_val; any = c.any; lost = c.lost } };
}

/// The fields at which a request with this guard waits.
fn waiting(up: &Rule, fields: usize) -> FieldSets
    requires { fields ≤ 3 }
    ensures { result ≡ kept_by_all None up.now.guard (any_fields fields) }
{
    let mut waiting = FieldSets::any(fields);
    waiting.keep_by_all(None, up.guard.as_slice());
    waiting
}

impl Clash {
    /// How a turn clashes with a waiting request in a kind with so many fields and statuses.
    pub(crate) fn of(up: &Rule, turn: &Turn, kind: Kind, fields: usize, statuses: u8) -> Clash
        requires fields { fields ≤ 3 }
        requires statuses { statuses < 8 }
        ensures { result ≡ clash_of up.now turn.now kind fields statuses }
    {
        let guard = up.guard.as_slice();
        let mut both = waiting(up, fields);
        both.keep_by_all(None, turn.first);
        both.keep_by_all(turn.asked, turn.second);
        let mut stays = waiting(up, fields);
        stays.lead_by_all(turn.sets);
        Clash {
            both,
            stays,
            new_val: sends_val(up) && sets_val(turn.sets),
            any: least_kids(guard, turn, false, kind, statuses),
            lost: least_kids(guard, turn, true, kind, statuses),
        }
    }

    /// The least statuses of the children with which a list of fields is broken.
    fn kids_with(&self, fields: &[Status8]) -> Option<StatusSet>
        ensures { result ≡ clash_kids self.now fields.now }
    {
        if !self.both.allows(fields) {
            return None;
        }
        if self.new_val || !self.stays.allows(fields) {
            self.any
        } else {
            self.lost
        }
    }

    /// The least abstract state with these fields that is broken.
    fn state_with(&self, fields: &[Status8]) -> Option<Abstract>
        requires { length fields.now ≤ 3 }
        ensures { result ≡ clash_at self.now fields.now }
    {
        match self.kids_with(fields) {
            Some(kids) => Some(Abstract {
                fields: copied(fields),
                kids,
            }),
            None => None,
        }
    }

    /// The least abstract state that is broken, of those that have these fields first, and then so many more.
    pub(crate) fn least(&self, statuses: u8, first: &[Status8], more: usize) -> Option<Abstract>
        requires { length first.now + more ≤ 3 }
        ensures { result ≡ first_with (λ rest. clash_at self.now (first.now ++ rest)) (field_lists more statuses) }
    {
        if more == 0 {
            return self.state_with(first);
        }
        for status in 0..statuses {
            let fields = longer(first, Status8(status));
            if let Some(found) = self.least(statuses, fields.as_slice(), more - 1) {
                return Some(found);
            }
        }
        None
    }
}
