//! The highest object of each transaction, and its anchor there.

ghost use Rattle.std.specs.Prelude.{◌≡◌, ℕ, ◌<◌, length, map, None, Some, slice_index_or, slice_set, IfOk};
ghost use Rattle.hem_regroup.specs.Normal.{is_above, upper, top_at, top_from, place_of, anchor, AreBelow};

use crate::firings::Firings;
use crate::numbered::Numbered;
use hem_base::OutOfMemory;
use std::alloc::Global;

/// Where the first of a transaction's firings at its highest object stands.
#[derive(Clone, Copy, Debug, PartialEq, Eq)]
struct Top {
    level: u32,
    object: u32,
    place: usize,
}

/// Whether one stands at an object of less level, or of the same level and of less number.
fn is_above(a: Top, b: Top) -> bool
    ensures { result ≡ is_above a b }
{
    a.level < b.level || (a.level == b.level && a.object < b.object)
}

/// The one above of two, and of two at the same object the first.
fn upper(later: Option<Top>, first: Top) -> Top
    ensures { result ≡ upper later first }
{
    match later {
        Some(top) if is_above(top, first) => top,
        _ => first,
    }
}

/// Where a firing at a place stands.
fn top_at(place: usize, x: Numbered) -> Top
    ensures { result ≡ top_at place x }
{
    Top {
        level: x.level,
        object: x.firing.object.0,
        place,
    }
}

/// The place of a top, 0 without one.
fn place_of(top: Option<Top>) -> usize
    ensures { result ≡ place_of top }
{
    match top {
        Some(top) => top.place,
        None => 0,
    }
}

/// Puts the firing at a place before those that stand later.
fn raise(tops: &mut Vec<Option<Top>>, place: usize, x: Numbered)
    requires { x.number < length tops.old.items }
    ensures { tops.new.items ≡ slice_set tops.old.items x.number (Some (upper (slice_index_or tops.old.items x.number None) (top_at place x))) }
{
    tops[x.number] = Some(upper(tops[x.number], top_at(place, x)));
}

/// Of each of so many transactions where the first of its firings at its highest object stands.
fn all_tops(alloc: Global, count: usize, all: &Firings) -> Result<Vec<Option<Top>>, OutOfMemory>
    requires { AreBelow count all.now }
    ensures size { IfOk result (λ tops. length tops.items ≡ count) }
    ensures tops { IfOk result (λ tops. (n : ℕ) → n < count → slice_index_or tops.items n None ≡ top_from 0 all.now n) }
{
    let mut tops = vec![in alloc; None; count]?;
    for back in 0..all.len() {
        let place = all.len() - 1 - back;
        raise(&mut tops, place, all.at(place));
    }
    Ok(tops)
}

/// The places of tops.
fn places(alloc: Global, tops: &[Option<Top>]) -> Result<Vec<usize>, OutOfMemory>
    ensures { IfOk result (λ places. places.items ≡ map place_of tops.now) }
{
    let mut places = Vec::with_capacity(alloc, tops.len())?;
    for top in tops {
        places.push(place_of(*top))?;
    }
    Ok(places)
}

/// The place of each transaction's anchor, by the transaction's number. The tops are let go before other tables are
/// made, which then stand in their room.
pub(crate) fn all_anchors(
    alloc: Global,
    count: usize,
    all: &Firings,
) -> Result<Vec<usize>, OutOfMemory>
    requires { AreBelow count all.now }
    ensures size { IfOk result (λ anchors. length anchors.items ≡ count) }
    ensures anchors { IfOk result (λ anchors. (n : ℕ) → n < count → slice_index_or anchors.items n 0 ≡ anchor all.now n) }
{
    let tops = all_tops(alloc, count, all)?;
    places(alloc, tops.as_slice())
}
