//! What an object has of one line, and its turns there.

ghost use Rattle.std.specs.Prelude.{◌≡◌, ◌^◌, ◌+◌, ◌-◌, ◌<◌, ◌≤◌, ◌∷◌, ◌++◌, [], true, cond, length, vec_len, vec_capacity, slice_get, IsTrue, IsFalse, IfOk, OnOk, OnErr};
ghost use Rattle.hem_system.specs.Ended.{takes_nothing};
ghost use Rattle.hem_turns.specs.OnLine.{IsReady, IsFired, HasFired, HaveFired, IsIdle, IsSeen, sight_of, named_by, firing_by, is_answer};

use hem_base::{Carried, Firing, Gate, Kind, LineId, Message, ObjectId, OutOfMemory, Stamped};
use hem_choice::{Choice, Sight};
use hem_ends::{LineEnds, Look};
use hem_fire::To;
use hem_object::Local;
use hem_syntax::{Protocol, Take};
use hem_wire::Net;
use std::alloc::Global;
use std::marker::Model;

/// What an object has of one line: its local state, its processor's requests of which the first are taken, its answers, its
/// channel ends, its journal with the last stamp in it, and how many self firings it made.
#[derive(Drop)]
pub struct OnLine<N: Net> {
    pub local: Local,
    pub requests: Vec<Message>,
    pub taken: usize,
    pub answers: Vec<Message>,
    pub ends: LineEnds<N>,
    pub journal: Vec<Stamped>,
    pub last: u64,
    pub selfs: u32,
}

impl<N: Net> Model for OnLine<N> {
    ghost use Rattle.std.specs.Prelude.{◌-◌, min, vec_len, vec_capacity};
    ghost use Rattle.hem_turns.specs.OnLine.{OnLine as Seen};

    ghost Value = { Seen };

    ghost view = { λ w. record {
      local = w.local;
      requests = w.requests.items;
      taken = w.taken;
      answers = w.answers.items;
      ends = w.ends;
      journal = w.journal.items;
      last = w.last;
      selfs = w.selfs;
      room = min (vec_capacity w.journal - vec_len w.journal) (vec_capacity w.answers - vec_len w.answers);
    } };
}

/// Where a worker's object stands, and what bounds it.
#[derive(Clone, Copy)]
pub struct Place {
    pub object: ObjectId,
    pub kind: Kind,
    pub self_count: u32,
}

/// For how many firings more than it has requests a line with some has room at first.
const FIRST_ROOM: usize = 1_024;

/// For how many firings a line with so many requests has room at first: where nothing is asked, for none.
fn first_room(requests: usize) -> usize {
    if requests == 0 {
        0
    } else {
        requests.saturating_add(FIRST_ROOM)
    }
}

/// Puts an item at the end, for which there is room.
fn push_within<T: Drop>(items: &mut Vec<T>, item: T)
    requires { vec_len items.old < vec_capacity items.old }
    ensures items { items.new.items ≡ items.old.items ++ item ∷ [] }
    ensures room { vec_capacity items.old - vec_len items.old ≤ vec_capacity items.new - vec_len items.new + 1 }
{
    let Ok(()) = items.push(item) else {
        unreachable!()
    };
}

/// Puts an item at the end where that is wanted, for which there is room.
fn push_if<T: Drop>(items: &mut Vec<T>, wanted: bool, item: T)
    requires { vec_len items.old < vec_capacity items.old }
    ensures items { items.new.items ≡ items.old.items ++ cond wanted (item ∷ []) [] }
    ensures room { vec_capacity items.old - vec_len items.old ≤ vec_capacity items.new - vec_len items.new + 1 }
{
    if wanted {
        push_within(items, item);
    }
}

/// One request more is taken, where that is wanted.
fn count_place(taken: &mut usize, wanted: bool)
    requires { wanted ≡ true → taken.old + 1 < 2 ^ 64 }
    ensures { taken.new ≡ taken.old + cond wanted 1 0 }
{
    if wanted {
        *taken += 1;
    }
}

/// One self firing more, where that is wanted.
fn count_self(selfs: &mut u32, wanted: bool)
    requires { wanted ≡ true → selfs.old + 1 < 2 ^ 32 }
    ensures { selfs.new ≡ selfs.old + cond wanted 1 0 }
{
    if wanted {
        *selfs += 1;
    }
}

/// Whether a rule takes nothing.
fn takes_nothing(take: Take) -> bool
    ensures { result ≡ takes_nothing take }
{
    matches!(take, Take::Nothing)
}

/// Whether a message is an answer.
fn is_answer(to: To) -> bool
    ensures { result ≡ is_answer to }
{
    matches!(to, To::Answer)
}

/// The child at that place, where a place is given.
fn named_by(children: &[ObjectId], me: Option<u8>) -> Option<ObjectId>
    ensures { result ≡ named_by children.now me }
{
    match me {
        Some(place) => children.get(usize::from(place)).copied(),
        None => None,
    }
}

/// How many firings an object made before, and how many it may make at most now.
#[derive(Clone, Copy)]
pub struct Burst {
    pub before: u64,
    pub most: u64,
}

impl<N: Net> OnLine<N> {
    /// A line on which nothing was done yet.
    pub fn new(
        alloc: Global,
        local: Local,
        requests: &[Message],
        ends: LineEnds<N>,
    ) -> Result<OnLine<N>, OutOfMemory>
        ensures local { IfOk result (λ line. line.local ≡ local) }
        ensures requests { IfOk result (λ line. (line.requests ≡ requests.now) × (line.taken ≡ 0)) }
        ensures ends { IfOk result (λ line. line.ends ≡ ends) }
        ensures empty { IfOk result (λ line. (line.answers ≡ []) × (line.journal ≡ []) × (line.last ≡ 0) × (line.selfs ≡ 0)) }
    {
        let room = first_room(requests.len());
        let requests = Vec::from_slice(alloc, requests)?;
        let answers = Vec::with_capacity(alloc, room)?;
        let journal = Vec::with_capacity(alloc, room)?;
        Ok(OnLine {
            local,
            requests,
            taken: 0,
            answers,
            ends,
            journal,
            last: 0,
            selfs: 0,
        })
    }

    /// Makes room for so many firings.
    pub fn reserve(&mut self, burst: usize) -> Result<(), OutOfMemory>
        ensures same { self.new ≡ record self.old { room = self.new.room } }
        ensures room { OnOk result (burst ≤ self.new.room) }
    {
        self.journal.reserve(burst)?;
        self.answers.reserve(burst)?;
        Ok(())
    }

    /// Makes a firing that was chosen.
    fn fire(&mut self, place: Place, firing: Firing, choice: &Choice)
        requires { IsReady place.self_count choice.now self.old }
        ensures { IsFired firing choice.now self.old self.new }
    {
        let stamp = choice.stamp;
        let outs = choice.plan.fire(choice.rule, &mut self.local);
        count_place(&mut self.taken, outs.taken_request && choice.me.is_none());
        self.ends
            .take(outs.taken_parent, choice.me, outs.taken_kids);
        self.ends.put(
            outs.to,
            Carried {
                line: firing.line,
                message: outs.message,
                stamp,
            },
        );
        push_if(&mut self.answers, is_answer(outs.to), outs.message);
        push_within(&mut self.journal, Stamped { firing, stamp });
        self.last = stamp;
        count_self(&mut self.selfs, takes_nothing(choice.rule.take));
    }

    /// What the object chooses by. It reserves a slot of each sending end that knows of a free one.
    #[inline(always)]
    fn see<'l>(&mut self, place: Place, look: &'l mut Look) -> Sight<'l>
        requires { length self.old.ends.kids ≤ 8 }
        ensures looked { IsSeen self.old self.new }
        ensures seen { result ≡ sight_of place.self_count self.new }
    {
        self.ends.look(look);
        Sight {
            asked: self.requests.as_slice().get(self.taken).copied(),
            look,
            spent: self.selfs >= place.self_count,
            last: self.last,
        }
    }

    /// Makes one firing, where one is possible on what the ends know. Tells whether there was one. What `look` holds
    /// doesn't matter: it is where the turn puts what it knows.
    pub fn turn(
        &mut self,
        p: &Protocol,
        children: &[ObjectId],
        place: Place,
        line: LineId,
        look: &mut Look,
    ) -> bool
        requires kids { length self.old.ends.kids ≤ 8 }
        requires room { 0 < self.old.room }
        ensures fired { IsTrue result → HasFired p.now place.kind place.self_count line place.object children.now self.old self.new }
        ensures idle { IsFalse result → IsIdle p.now place.kind place.self_count self.old self.new }
    {
        let sight = self.see(place, look);
        let Some(choice) = sight.choose(p, place.kind, &self.local) else {
            return false;
        };
        let firing = Firing {
            line,
            object: place.object,
            rule: choice.rule.name,
            me: named_by(children, choice.me),
        };
        self.fire(place, firing, &choice);
        true
    }

    /// Fires at most so many times, and passes the gate after each firing. It fires fewer times only where nothing is
    /// possible any more on what the ends know. `before` is how many firings the object made before. Tells how many times
    /// it fired. What `look` holds doesn't matter.
    pub fn fire_many<G: Gate>(
        &mut self,
        p: &Protocol,
        children: &[ObjectId],
        place: Place,
        line: LineId,
        gate: &G,
        burst: Burst,
        look: &mut Look,
    ) -> u64
        requires kids { length self.old.ends.kids ≤ 8 }
        requires room { burst.most ≤ self.old.room }
        ensures most { result ≤ burst.most }
        ensures fired { HaveFired p.now place.kind place.self_count line place.object children.now result burst.most self.old self.new }
    {
        for fired in 0..burst.most {
            if !self.turn(p, children, place, line, look) {
                return fired;
            }
            gate.pass(place.object.0, burst.before.saturating_add(fired + 1));
        }
        burst.most
    }
}
