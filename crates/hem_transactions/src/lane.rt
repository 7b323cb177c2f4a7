//! The numbers that messages carry in one kind of list of a line.

ghost use Rattle.std.specs.Prelude.{◌≡◌, ◌<◌, ℕ, [], ◌∷◌, ◌++◌, cond, drop, length, slice_get, slice_set, ◌==◌, ◌&&◌, false, IfOk, OnOk};
ghost use Rattle.std.specs.Option.{option_map_or};
ghost use Rattle.hem_base.specs.declared.ids.ObjectId.{ObjectId as Id};
ghost use Rattle.hem_transactions.specs.Carried.{numbers_at, is_child_in};

use crate::queue::NumberQueue;
use hem_base::{KidSet, List, ObjectId, OutOfMemory};
use hem_tree::Tree;
use std::alloc::Global;
use std::marker::Model;

/// Of one kind of list, as the requests up, for each object of a line the numbers that its messages carry.
#[derive(Drop)]
pub(crate) struct LaneNumbers {
    queues: List<NumberQueue>,
}

impl Model for LaneNumbers {
    ghost use Rattle.std.specs.Prelude.{ℕ, List as Sequence};

    ghost Value = { Sequence (Sequence ℕ) };

    ghost view = { λ l. l.queues };
}

/// Takes the first message of the list at a place.
fn take_at(queues: &mut List<NumberQueue>, at: usize)
    requires { at < length queues.old }
    ensures { queues.new ≡ slice_set queues.old at (drop 1 (numbers_at queues.old at)) }
{
    let queue = queues.at_mut(at);
    queue.take();
}

/// Puts a message with that number at the end of the list at a place.
fn put_at(queues: &mut List<NumberQueue>, at: usize, number: usize) -> Result<(), OutOfMemory>
    requires { at < length queues.old }
    ensures { OnOk result (queues.new ≡ slice_set queues.old at (numbers_at queues.old at ++ number ∷ [])) }
{
    let queue = queues.at_mut(at);
    queue.put(number)
}

impl LaneNumbers {
    /// Of so many objects, with no message.
    pub(crate) fn new(alloc: Global, objects: u32) -> Result<LaneNumbers, OutOfMemory>
        ensures size { IfOk result (λ lane. length lane ≡ objects) }
        ensures none { IfOk result (λ lane. (k : ℕ) → numbers_at lane k ≡ []) }
    {
        let mut queues = List::new(alloc);
        for _object in 0..objects {
            queues.push(NumberQueue::new(alloc))?;
        }
        Ok(LaneNumbers { queues })
    }

    /// The number that the first message of an object's list carries, where there is a message.
    pub(crate) fn first(&self, object: ObjectId) -> Option<usize>
        ensures { result ≡ slice_get (numbers_at self.now object.0) 0 }
    {
        match self.queues.get(object.0 as usize) {
            Some(queue) => queue.first(),
            None => None,
        }
    }

    /// Takes the first message of an object's list, where that is wanted.
    pub(crate) fn take(&mut self, wanted: bool, object: ObjectId)
        requires { object.0 < length self.old }
        ensures size { length self.new ≡ length self.old }
        ensures taken { (k : ℕ) → numbers_at self.new k ≡ drop (cond (wanted && k == object.0) 1 0) (numbers_at self.old k) }
    {
        if wanted {
            take_at(&mut self.queues, object.0 as usize);
        }
    }

    /// Takes the first message of an object's list, where one is named.
    pub(crate) fn take_named(&mut self, object: Option<ObjectId>)
        requires { (id : Id) → object ≡ Some id → id.0 < length self.old }
        ensures size { length self.new ≡ length self.old }
        ensures taken { (k : ℕ) → numbers_at self.new k ≡ drop (cond (option_map_or (λ id. id.0 == k) object false) 1 0) (numbers_at self.old k) }
    {
        match object {
            Some(id) => self.take(true, id),
            None => {}
        }
    }

    /// Puts a message with that number at the end of an object's list, where that is wanted.
    pub(crate) fn put(
        &mut self,
        wanted: bool,
        object: ObjectId,
        number: usize,
    ) -> Result<(), OutOfMemory>
        requires { object.0 < length self.old }
        ensures size { OnOk result (length self.new ≡ length self.old) }
        ensures sent { OnOk result ((k : ℕ) → numbers_at self.new k ≡ numbers_at self.old k ++ cond (wanted && k == object.0) (number ∷ []) []) }
    {
        if wanted {
            put_at(&mut self.queues, object.0 as usize, number)
        } else {
            Ok(())
        }
    }

    /// Takes the first message of the list of each child that is in the set.
    pub(crate) fn take_each(&mut self, tree: &Tree, object: ObjectId, kids: KidSet)
        requires object { object.0 < length tree.now }
        requires all { length self.old ≡ length tree.now }
        ensures size { length self.new ≡ length self.old }
        ensures taken { (k : ℕ) → numbers_at self.new k ≡ drop (cond (is_child_in tree.now object.0 kids.0 k) 1 0) (numbers_at self.old k) }
    {
        if kids.0 == 0 {
            return;
        }
        for (place, child) in tree.children(object).iter().enumerate() {
            self.take(kids.has(place), *child);
        }
    }

    /// Puts a message with that number at the end of the list of each child that is in the set.
    pub(crate) fn put_each(
        &mut self,
        tree: &Tree,
        object: ObjectId,
        kids: KidSet,
        number: usize,
    ) -> Result<(), OutOfMemory>
        requires object { object.0 < length tree.now }
        requires all { length self.old ≡ length tree.now }
        ensures size { OnOk result (length self.new ≡ length self.old) }
        ensures sent { OnOk result ((k : ℕ) → numbers_at self.new k ≡ numbers_at self.old k ++ cond (is_child_in tree.now object.0 kids.0 k) (number ∷ []) []) }
    {
        for (place, child) in tree.children(object).iter().enumerate() {
            self.put(kids.has(place), *child, number)?;
        }
        Ok(())
    }
}
