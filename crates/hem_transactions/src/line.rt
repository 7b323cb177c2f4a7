//! The numbers that messages carry on a line.

ghost use Rattle.std.specs.Prelude.{◌≡◌, ◌<◌, ℕ, true, cond, length, option_map, slice_get, IfOk, OnOk};
ghost use Rattle.hem_tree.specs.Tree.{Tree as Described, children_of};
ghost use Rattle.hem_system.specs.State.{is_own_child};
ghost use Rattle.hem_trace.specs.Tags.{Tags, no_tags, tags_after, number_at};
ghost use Rattle.hem_transactions.specs.Carried.{HasLists, CarriesOn};
ghost use Rattle.hem_transactions.specs.Along.{number_taken, awaited, HeadsTaken, MessageSent};

use crate::lane::LaneNumbers;
use hem_base::{Firing, KidSet, ObjectId, OutOfMemory};
use hem_fire::To;
use hem_system::Event;
use hem_tree::Tree;
use std::alloc::Global;

/// The numbers that the messages on their way carry on a line: of each object's requests up, responses up, and messages
/// down. A processor's requests and answers aren't sent and taken by firings, so they carry none.
#[derive(Drop)]
pub(crate) struct LineNumbers {
    pub(crate) up_requests: LaneNumbers,
    pub(crate) up_responses: LaneNumbers,
    pub(crate) down: LaneNumbers,
}

/// The child whose request an event takes, where it takes one.
fn requester(event: &Event) -> Option<ObjectId>
    ensures { result ≡ cond event.now.outs.taken_request event.now.firing.me None }
{
    if event.outs.taken_request {
        event.firing.me
    } else {
        None
    }
}

/// The first child that is in the set.
fn first_awaited(tree: &Tree, object: ObjectId, kids: KidSet) -> Option<ObjectId>
    requires { object.0 < length tree.now }
    ensures { option_map (λ id. id.0) result ≡ slice_get (awaited tree.now object.0 kids.0) 0 }
{
    if kids.0 == 0 {
        return None;
    }
    for (place, child) in tree.children(object).iter().enumerate() {
        if kids.has(place) {
            return Some(*child);
        }
    }
    None
}

/// The child of an object at a place among its children, where there is one.
fn child_at(tree: &Tree, object: ObjectId, place: usize) -> Option<ObjectId>
    requires { object.0 < length tree.now }
    ensures { option_map (λ id. id.0) result ≡ slice_get (children_of tree.now object.0) place }
{
    tree.children(object).get(place).copied()
}

impl LineNumbers {
    /// Of so many objects, with no message.
    pub(crate) fn new(alloc: Global, objects: u32) -> Result<LineNumbers, OutOfMemory>
        ensures size { IfOk result (λ line. (tree : Described) → objects ≡ length tree → HasLists tree line) }
        ensures none { IfOk result (λ line. (l : ℕ) → CarriesOn no_tags l line) }
    {
        let up_requests = LaneNumbers::new(alloc, objects)?;
        let up_responses = LaneNumbers::new(alloc, objects)?;
        let down = LaneNumbers::new(alloc, objects)?;
        Ok(LineNumbers {
            up_requests,
            up_responses,
            down,
        })
    }

    /// The number of the message that an event takes, where it takes one from a list of messages: of several the least
    /// awaited child's.
    fn taken(&self, tree: &Tree, event: &Event) -> Option<usize>
        requires { event.now.firing.object.0 < length tree.now }
        ensures { (tags : Tags) → CarriesOn tags event.now.firing.line.0 self.now → result ≡ number_taken tree.now tags event.now }
    {
        if let Some(child) = requester(event) {
            return self.up_requests.first(child);
        }
        if event.outs.taken_parent {
            return self.down.first(event.firing.object);
        }
        match first_awaited(tree, event.firing.object, event.outs.taken_kids) {
            Some(child) => self.up_responses.first(child),
            None => None,
        }
    }

    /// The number of an event's transaction: its own place where it takes nothing or a processor's request, else that of
    /// what it takes.
    fn number(&self, tree: &Tree, event: &Event, place: usize) -> usize
        requires { event.now.firing.object.0 < length tree.now }
        ensures { (tags : Tags) → CarriesOn tags event.now.firing.line.0 self.now → result ≡ number_at tree.now tags place event.now }
    {
        self.taken(tree, event).unwrap_or(place)
    }

    /// Takes the heads that an event takes.
    fn take(&mut self, tree: &Tree, event: &Event)
        requires object { event.now.firing.object.0 < length tree.now }
        requires own { is_own_child tree.now event.now.firing.object.0 event.now.firing.me ≡ true }
        requires lists { HasLists tree.now self.old }
        ensures lists { HasLists tree.now self.new }
        ensures taken { HeadsTaken tree.now event.now.firing event.now.outs self.old self.new }
    {
        self.up_requests.take_named(requester(event));
        self.down.take(event.outs.taken_parent, event.firing.object);
        self.up_responses
            .take_each(tree, event.firing.object, event.outs.taken_kids);
    }

    /// Appends the message that a firing sends, which carries that number.
    fn send(
        &mut self,
        tree: &Tree,
        firing: Firing,
        to: To,
        number: usize,
    ) -> Result<(), OutOfMemory>
        requires object { firing.object.0 < length tree.now }
        requires lists { HasLists tree.now self.old }
        ensures lists { OnOk result (HasLists tree.now self.new) }
        ensures sent { OnOk result (MessageSent tree.now firing to number self.old self.new) }
    {
        let object = firing.object;
        match to {
            To::UpRequest => self.up_requests.put(true, object, number),
            To::UpResponse => self.up_responses.put(true, object, number),
            To::Kid(place) => match child_at(tree, object, usize::from(place)) {
                Some(child) => self.down.put(true, child, number),
                None => Ok(()),
            },
            To::Kids(kids) => self.down.put_each(tree, object, kids, number),
            To::Nobody | To::Answer => Ok(()),
        }
    }

    /// Follows an event that stands at a place of the history: what it takes takes its number along, and what it sends
    /// carries the event's number, which is the answer.
    pub(crate) fn follow(
        &mut self,
        tree: &Tree,
        event: &Event,
        place: usize,
    ) -> Result<usize, OutOfMemory>
        requires object { event.now.firing.object.0 < length tree.now }
        requires own { is_own_child tree.now event.now.firing.object.0 event.now.firing.me ≡ true }
        requires lists { HasLists tree.now self.old }
        ensures lists { OnOk result (HasLists tree.now self.new) }
        ensures number { IfOk result (λ number. (tags : Tags) → CarriesOn tags event.now.firing.line.0 self.old → number ≡ number_at tree.now tags place event.now) }
        ensures carries { IfOk result (λ number. (tags : Tags) → CarriesOn tags event.now.firing.line.0 self.old → CarriesOn (tags_after tree.now tags event.now number) event.now.firing.line.0 self.new) }
    {
        let number = self.number(tree, event, place);
        self.take(tree, event);
        self.send(tree, event.firing, event.outs.to, number)?;
        Ok(number)
    }
}
