//! The stamp of a firing.

ghost use Rattle.std.specs.Prelude.{◌≡◌, nat_lt, not, cond, IfSome, IfNone, Some, None, ◌<◌, ◌≤◌};
ghost use Rattle.hem_choice.specs.Choices.{greatest, greatest_stamp, stamp_in, request_of, response_stamps, stamp_after};

use hem_base::{Carried, KidSet};
use hem_ends::{KidLook, Look};
use hem_fire::Outs;

/// No firing has a greater stamp.
const GREATEST_STAMP: u64 = 4_611_686_018_427_387_904;

/// The stamp of a message, 0 where there is none.
fn stamp_in(carried: Option<Carried>) -> u64
    ensures { result ≡ stamp_in carried }
{
    match carried {
        Some(carried) => carried.stamp,
        None => 0,
    }
}

/// The stamp of a message that is taken, and else 0.
fn stamp_if(taken: bool, carried: Option<Carried>) -> u64
    ensures { result ≡ cond taken (stamp_in carried) 0 }
{
    if taken { stamp_in(carried) } else { 0 }
}

/// The greatest stamp of the first responses of these children, 0 where there is none.
fn response_stamp(kids: &[KidLook], set: KidSet) -> u64
    ensures { result ≡ greatest (response_stamps set kids.now) }
{
    let mut greatest = 0;
    for (place, kid) in kids.iter().enumerate() {
        greatest = greatest.max(stamp_if(set.has(place), kid.response));
    }
    greatest
}

/// The first request of the named child, where one is named and a request is known.
pub(crate) fn request_of(look: &Look, me: Option<u8>) -> Option<Carried>
    ensures { result ≡ request_of look.now me }
{
    match look.kids.get(usize::from(me?)) {
        Some(kid) => kid.request,
        None => None,
    }
}

/// 1 plus the greatest of the last stamp and of the stamps of the messages that a firing takes, where that isn't past the
/// greatest stamp.
pub(crate) fn stamp_after(last: u64, look: &Look, me: Option<u8>, outs: &Outs) -> Option<u64>
    ensures { result ≡ cond (not (nat_lt greatest_stamp (stamp_after last look.now me outs.now))) (Some (stamp_after last look.now me outs.now)) None }
{
    let request = stamp_if(outs.taken_request, request_of(look, me));
    let parent = stamp_if(outs.taken_parent, look.parent);
    let responses = response_stamp(look.kids.as_slice(), outs.taken_kids);
    let greatest = last.max(request.max(parent.max(responses)));
    if greatest < GREATEST_STAMP {
        Some(greatest + 1)
    } else {
        None
    }
}
