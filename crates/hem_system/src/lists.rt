//! What a firing does to the lists of one object.

ghost use Rattle.std.specs.Prelude.{◌≡◌, ◌==◌, false, OnOk};
ghost use Rattle.std.specs.Option.{option_map_or};
ghost use Rattle.hem_system.specs.Cells.{seen};
ghost use Rattle.hem_system.specs.Lists.{takes_at, reaches_at, changed_at, sends_below, meets_below, HasRoom, is_changed_at};

use crate::cell::Cell;
use crate::lane::Lane;
use hem_base::{Firing, OutOfMemory};
use hem_fire::{Outs, To};

/// Where an object stands to the one that fires.
#[derive(Clone, Copy)]
pub(crate) enum Stand {
    /// It is the one that fires.
    Own,
    /// It is this child of the one that fires, with so many children before it.
    Child { object: usize, place: usize },
}

/// Whether a firing names this child.
fn names(firing: Firing, object: usize) -> bool
    ensures { result ≡ option_map_or (λ child. child.0 == object) firing.me false }
{
    match firing.me {
        Some(child) => child.0 as usize == object,
        None => false,
    }
}

/// Whether a firing takes the head of a list.
#[inline(always)]
fn takes(firing: Firing, outs: &Outs, at: Stand, lane: Lane) -> bool
    ensures { result ≡ takes_at firing outs.now at lane }
{
    match (at, lane) {
        (Stand::Own, Lane::Down) => outs.taken_parent,
        (Stand::Own, Lane::Requests) => outs.taken_request && firing.me.is_none(),
        (Stand::Child { object, place: _ }, Lane::UpRequests) => {
            outs.taken_request && names(firing, object)
        }
        (Stand::Child { object: _, place }, Lane::UpResponses) => outs.taken_kids.has(place),
        _ => false,
    }
}

/// Whether a firing sends to a list.
#[inline(always)]
fn reaches(to: To, at: Stand, lane: Lane) -> bool
    ensures { result ≡ reaches_at to at lane }
{
    match (to, at, lane) {
        (To::Answer, Stand::Own, Lane::Answers)
        | (To::UpRequest, Stand::Own, Lane::UpRequests)
        | (To::UpResponse, Stand::Own, Lane::UpResponses) => true,
        (To::Kid(kid), Stand::Child { object: _, place }, Lane::Down) => {
            place == usize::from(kid)
        }
        (To::Kids(kids), Stand::Child { object: _, place }, Lane::Down) => kids.has(place),
        _ => false,
    }
}

/// Whether a firing sends down.
pub(crate) fn sends_below(to: To) -> bool
    ensures { result ≡ sends_below to }
{
    matches!(to, To::Kid(_) | To::Kids(_))
}

/// Whether a firing takes from a child or sends to one.
pub(crate) fn meets_below(firing: Firing, outs: &Outs) -> bool
    ensures { result ≡ meets_below firing outs.now }
{
    outs.taken_request && firing.me.is_some() || outs.taken_kids.0 != 0 || sends_below(outs.to)
}

/// Whether a firing may take from an object's lists or send to them. Of a child each such list is looked at.
pub(crate) fn is_changed(firing: Firing, outs: &Outs, at: Stand) -> bool
    ensures { result ≡ is_changed_at firing outs.now at }
{
    match at {
        Stand::Own => true,
        Stand::Child {
            object: _,
            place: _,
        } => {
            takes(firing, outs, at, Lane::UpRequests)
                || takes(firing, outs, at, Lane::UpResponses)
                || reaches(outs.to, at, Lane::Down)
        }
    }
}

impl Cell {
    /// Makes room in the list that a firing reaches. Where that takes too much memory no list changes.
    #[inline(always)]
    pub(crate) fn make_room(&mut self, to: To, at: Stand) -> Result<(), OutOfMemory>
        ensures same { seen self.new ≡ seen self.old }
        ensures room { OnOk result (HasRoom (reaches_at to at) self.new) }
    {
        self.up_requests
            .make_room(reaches(to, at, Lane::UpRequests))?;
        self.up_responses
            .make_room(reaches(to, at, Lane::UpResponses))?;
        self.down.make_room(reaches(to, at, Lane::Down))?;
        self.requests.make_room(reaches(to, at, Lane::Requests))?;
        self.answers.make_room(reaches(to, at, Lane::Answers))
    }

    /// Takes the heads that a firing takes, and appends the message that it sends.
    #[inline(always)]
    pub(crate) fn change(&mut self, firing: Firing, outs: &Outs, at: Stand)
        requires { HasRoom (reaches_at outs.now.to at) self.old }
        ensures { seen self.new ≡ changed_at firing outs.now at (seen self.old) }
    {
        self.up_requests.change(
            takes(firing, outs, at, Lane::UpRequests),
            reaches(outs.to, at, Lane::UpRequests),
            outs.message,
        );
        self.up_responses.change(
            takes(firing, outs, at, Lane::UpResponses),
            reaches(outs.to, at, Lane::UpResponses),
            outs.message,
        );
        self.down.change(
            takes(firing, outs, at, Lane::Down),
            reaches(outs.to, at, Lane::Down),
            outs.message,
        );
        self.requests.change(
            takes(firing, outs, at, Lane::Requests),
            reaches(outs.to, at, Lane::Requests),
            outs.message,
        );
        self.answers.change(
            takes(firing, outs, at, Lane::Answers),
            reaches(outs.to, at, Lane::Answers),
            outs.message,
        );
    }
}
