//! What guards ask of the statuses of children, and what sets make of them.

ghost use Rattle.std.specs.Prelude.{◌≡◌, ◌+◌, ◌^◌, ◌<◌, ◌≤◌, ◌-◌, ◌==◌, ◌&&◌, ◌||◌, not, cond, map, suc, find, Some, None};
ghost use Rattle.hem_object.specs.Guard.{has};
ghost use Rattle.hem_tree.specs.Tree.{below};
ghost use Rattle.hem_abstract.specs.Stable.{kid_sets};
ghost use Rattle.hem_abstract.specs.Parts.{all_kids_in, some_kid_in, kids_meet, kids_hold, moved, kid_after, kids_after, kids_clash, kids_stay, kids_lose};

use crate::turn::Turn;
use hem_base::{Kind, Status8, StatusSet};
use hem_syntax::{Assign, Atom};

/// Whether the statuses of the children are all in the set.
pub(crate) fn all_in(kids: StatusSet, set: StatusSet) -> bool
    ensures { result ≡ all_kids_in kids set }
{
    kids.0 & set.0 == kids.0
}

/// Whether some status of the children is in the set.
pub(crate) fn some_in(kids: StatusSet, set: StatusSet) -> bool
    ensures { result ≡ some_kid_in kids set }
{
    kids.0 & set.0 != 0
}

/// What a condition asks of the children.
fn meets(kids: StatusSet, atom: Atom) -> bool
    ensures { result ≡ kids_meet kids atom }
{
    match atom {
        Atom::KidsAll(set) => all_in(kids, set),
        Atom::KidsAny(set) => some_in(kids, set),
        _ => true,
    }
}

/// What a guard asks of the children.
fn hold(guard: &[Atom], kids: StatusSet) -> bool
    ensures { result ≡ kids_hold guard.now kids }
{
    guard.iter().all(|atom| meets(kids, *atom))
}

/// The set of statuses below one, and with it that status where it is wanted.
fn with_status(bits: u8, status: u8, wanted: bool) -> u8
    requires place { status < 8 }
    requires below { bits < 2 ^ status }
    ensures { result ≡ bits + cond wanted (2 ^ status) 0 }
{
    if wanted { bits | 1 << status } else { bits }
}

/// Whether a status occurs once those of the targets went over into one.
fn occurs_after(kids: StatusSet, targets: StatusSet, to: Status8, status: Status8) -> bool
    ensures { result ≡ ((has kids status && not (has targets status)) || status.0 == to.0) }
{
    (kids.has(status) && !targets.has(status)) || status == to
}

/// The statuses of the children after those of the targets went over into one.
fn moved(kids: StatusSet, targets: StatusSet, to: Status8) -> StatusSet
    ensures { result ≡ moved kids targets to }
{
    let mut bits = 0;
    for status in 0..8 {
        bits = with_status(
            bits,
            status,
            occurs_after(kids, targets, to, Status8(status)),
        );
    }
    StatusSet(bits)
}

/// The statuses of the children after a set.
fn after_one(kids: StatusSet, set: Assign, targets: StatusSet) -> StatusSet
    ensures { result ≡ kid_after targets set kids }
{
    match set {
        Assign::Targets(status) => moved(kids, targets, status),
        _ => kids,
    }
}

/// The statuses of the children after a rule's sets.
pub(crate) fn kids_after(kids: StatusSet, sets: &[Assign], targets: StatusSet) -> StatusSet
    ensures { result ≡ kids_after targets sets.now kids }
{
    let mut kids = kids;
    for set in sets {
        kids = after_one(kids, *set, targets);
    }
    kids
}

/// Whether a waiting request with this guard and the turn can both be, as far as the children say.
fn clash(up: &[Atom], turn: &Turn, kids: StatusSet) -> bool
    ensures { result ≡ kids_clash up.now turn.now kids }
{
    hold(up, kids)
        && hold(turn.first, kids)
        && (!turn.passes_on || some_in(turn.targets, kids))
        && hold(turn.second, kids)
}

/// Whether the request's guard holds after the turn, as far as the children say.
fn stay(up: &[Atom], turn: &Turn, kids: StatusSet) -> bool
    ensures { result ≡ kids_stay up.now turn.now kids }
{
    hold(up, kids_after(kids, turn.sets, turn.targets))
}

/// Whether both can be, and where a loss is sought, the request's guard is lost then.
fn lose(up: &[Atom], turn: &Turn, losing: bool, kids: StatusSet) -> bool
    ensures { result ≡ kids_lose up.now turn.now losing kids }
{
    clash(up, turn, kids) && !(losing && stay(up, turn, kids))
}

/// The least of the sets that aren't empty.
fn least_inner(up: &[Atom], turn: &Turn, losing: bool, statuses: u8) -> Option<StatusSet>
    requires { statuses < 8 }
    ensures { result ≡ find (kids_lose up.now turn.now losing) (map (λ k. record { 0 = suc k }) (below (2 ^ statuses - 1))) }
{
    for number in 1..1 << statuses {
        let kids = StatusSet(number);
        if lose(up, turn, losing, kids) {
            return Some(kids);
        }
    }
    None
}

/// The least statuses of children of the kind at which both can be, and where a loss is sought, the request's guard is
/// lost after the turn.
pub(crate) fn least_kids(
    up: &[Atom],
    turn: &Turn,
    losing: bool,
    kind: Kind,
    statuses: u8,
) -> Option<StatusSet>
    requires { statuses < 8 }
    ensures { result ≡ find (kids_lose up.now turn.now losing) (kid_sets kind statuses) }
{
    match kind {
        Kind::Leaf => {
            let nobody = StatusSet(0);
            if lose(up, turn, losing, nobody) {
                Some(nobody)
            } else {
                None
            }
        }
        Kind::Root | Kind::Mid => least_inner(up, turn, losing, statuses),
    }
}
