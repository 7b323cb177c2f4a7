//! The normal order of a history's firings.

ghost use Rattle.std.specs.Prelude.{cond, ◌∷◌, ◌≡◌, ◌≢◌, ℕ, ◌+◌, ◌<◌, nat_lt, ◌&&◌, [], ◌++◌, length, Some, slice_get, slice_index_or, IfOk, OnOk};
ghost use Rattle.hem_regroup.specs.Normal.{member_at, shown, kept, anchor, normal_members, AreBelow, IsPlacing};

use crate::firings::Firings;
use crate::lists::{append, empty_lists, take_out};
use crate::member::Member;
use crate::numbered::Numbered;
use crate::tops::all_anchors;
use hem_base::{List, OutOfMemory};
use std::alloc::Global;

/// The member of a numbered firing.
fn member_at(x: Numbered) -> Member
    ensures { result ≡ member_at x }
{
    Member {
        number: x.number,
        firing: x.firing,
    }
}

/// Whether the firing at a place is moved to the anchor of its transaction.
fn is_moved(anchor: usize, place: usize, x: Numbered) -> bool
    ensures { result ≡ (x.upward && nat_lt place anchor) }
{
    x.upward && place < anchor
}

/// Holds the firing at a place back, or puts it after the others: at an anchor those that were held back come before it.
fn place_one(
    alloc: Global,
    members: &mut Vec<Member>,
    held: &mut List<List<Member>>,
    anchor: usize,
    place: usize,
    x: Numbered,
) -> Result<(), OutOfMemory>
    requires { x.number < length held.old }
    ensures members { OnOk result (members.new.items ≡ members.old.items ++ shown anchor place x (slice_index_or held.old x.number [])) }
    ensures there { OnOk result (place ≢ anchor → slice_get held.new x.number ≡ Some (slice_index_or held.old x.number [] ++ kept anchor place x)) }
    ensures others { OnOk result ((t : ℕ) → t ≢ x.number → slice_get held.new t ≡ slice_get held.old t) }
    ensures size { length held.new ≡ length held.old }
{
    if is_moved(anchor, place, x) {
        append(held, x.number, member_at(x))
    } else {
        if place == anchor {
            let those = take_out(alloc, held, x.number);
            members.extend_from_slice(those.as_slice())?;
        }
        members.push(member_at(x))?;
        Ok(())
    }
}

/// Places the firing at a place.
fn place_next(
    alloc: Global,
    members: &mut Vec<Member>,
    held: &mut List<List<Member>>,
    anchors: &[usize],
    all: &Firings,
    place: usize,
) -> Result<(), OutOfMemory>
    requires within { place < length all.now }
    requires below { AreBelow (length anchors.now) all.now }
    requires size { length held.old ≡ length anchors.now }
    requires anchors { (n : ℕ) → n < length anchors.now → slice_index_or anchors.now n 0 ≡ anchor all.now n }
    requires placing { IsPlacing all.now place members.old.items held.old }
    ensures placing { OnOk result (IsPlacing all.now (place + 1) members.new.items held.new) }
    ensures size { length held.new ≡ length held.old }
{
    let x = all.at(place);
    place_one(alloc, members, held, anchors[x.number], place, x)
}

/// The firings in their normal order: each upward request that stands before its transaction's anchor is moved to just
/// before it. The firings are of so many transactions.
pub(crate) fn normal_order(
    alloc: Global,
    count: usize,
    all: &Firings,
) -> Result<Vec<Member>, OutOfMemory>
    requires { AreBelow count all.now }
    ensures { IfOk result (λ members. members.items ≡ normal_members all.now) }
{
    let anchors = all_anchors(alloc, count, all)?;
    let mut held = empty_lists(alloc, count)?;
    let mut members = Vec::with_capacity(alloc, all.len())?;
    for place in 0..all.len() {
        place_next(
            alloc,
            &mut members,
            &mut held,
            anchors.as_slice(),
            all,
            place,
        )?;
    }
    Ok(members)
}
