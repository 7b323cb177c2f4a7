//! What a firing sets.

ghost use Rattle.std.specs.Prelude.{◌≡◌, ◌<◌, cond, length, slice_set, unwrap_or, IsTrue};
ghost use Rattle.std.specs.List.{list_all};
ghost use Rattle.hem_object.specs.Guard.{value_of, is_requester};
ghost use Rattle.hem_base.specs.Sets.{has_bit};
ghost use Rattle.hem_object.specs.Changes.{assign_own, assign_targets, assign_me, assigned, set_at, in_turn, assign_names};
ghost use Rattle.hem_object.specs.Local.{Local};

use crate::View;
use crate::guard::is_requester;
use crate::local::Local;
use hem_base::{KidSet, Status8};
use hem_syntax::{Assign, Value};

/// The number that a name stands for, or 0, with this value of the object.
fn value_with(val: u64, value: Value, view: &View) -> u64
    ensures { (before : Local) → before.val ≡ val → result ≡ unwrap_or (value_of value before view.now) 0 }
{
    match value {
        Value::Val => val,
        Value::Msg => view.msg.unwrap_or(0),
        Value::Kept => view.kept.map_or(0, |message| message.value),
        Value::Rs => view.rs.unwrap_or(0),
        Value::Zero => 0,
    }
}

impl Local {
    /// Sets a field.
    fn set_field(&mut self, field: usize, status: Status8)
        requires { field < length self.old.fields }
        ensures { self.new ≡ record self.old { fields = slice_set self.old.fields field status } }
    {
        self.fields[field] = status;
    }

    /// Makes one set of a field or of the value.
    fn assign_one(&mut self, val: u64, set: Assign, view: &View)
        requires { IsTrue (assign_names self.old view.now set) }
        ensures { (before : Local) → before.val ≡ val → self.new ≡ assign_own before view.now set self.old }
    {
        match set {
            Assign::Field(field, status) => self.set_field(usize::from(field), status),
            Assign::Val(value) => self.val = value_with(val, value, view),
            _ => {}
        }
    }
}

impl Local {
    /// Sets the entry at a place, where that is wanted.
    fn set_entry(&mut self, place: usize, status: Status8, wanted: bool)
        requires { place < length self.old.dir }
        ensures { self.new ≡ record self.old { dir = cond wanted (slice_set self.old.dir place status) self.old.dir } }
    {
        if wanted {
            self.dir[place] = status;
        }
    }

    /// Sets the entries of these children.
    fn set_kids(&mut self, kids: KidSet, status: Status8)
        ensures { self.new ≡ record self.old { dir = set_at status (has_bit kids.0) 0 self.old.dir } }
    {
        for place in 0..self.dir.len() {
            self.set_entry(place, status, kids.has(place));
        }
    }

    /// Sets the requester's entry.
    fn set_requester(&mut self, view: &View, status: Status8)
        ensures { self.new ≡ record self.old { dir = set_at status (is_requester view.now) 0 self.old.dir } }
    {
        for place in 0..self.dir.len() {
            self.set_entry(place, status, is_requester(view, place));
        }
    }

    /// Makes one set of the awaited children's entries.
    fn assign_targets_one(&mut self, set: Assign, view: &View)
        ensures { self.new ≡ assign_targets view.now set self.old }
    {
        if let Assign::Targets(status) = set {
            self.set_kids(view.awaited, status);
        }
    }

    /// Makes one set of the requester's entry.
    fn assign_me_one(&mut self, set: Assign, view: &View)
        ensures { self.new ≡ assign_me view.now set self.old }
    {
        if let Assign::Me(status) = set {
            self.set_requester(view, status);
        }
    }
}

impl Local {
    /// Makes the sets of fields and of the value. All values are those before.
    fn assign_fields(&mut self, sets: &[Assign], view: &View)
        requires { IsTrue (list_all (assign_names self.old view.now) sets.now) }
        ensures { self.new ≡ in_turn (assign_own self.old view.now) sets.now self.old }
    {
        let val = self.val;
        for set in sets {
            self.assign_one(val, *set, view);
        }
    }

    /// Makes the sets of the awaited children's entries.
    fn assign_targets(&mut self, sets: &[Assign], view: &View)
        ensures { self.new ≡ in_turn (assign_targets view.now) sets.now self.old }
    {
        for set in sets {
            self.assign_targets_one(*set, view);
        }
    }

    /// Makes the sets of the requester's entry.
    fn assign_me(&mut self, sets: &[Assign], view: &View)
        ensures { self.new ≡ in_turn (assign_me view.now) sets.now self.old }
    {
        for set in sets {
            self.assign_me_one(*set, view);
        }
    }

    /// Whether everything that a set names exists.
    fn names_exist(&self, set: Assign, view: &View) -> bool
        ensures { result ≡ assign_names self.now view.now set }
    {
        match set {
            Assign::Field(field, _) => usize::from(field) < self.fields.len(),
            Assign::Val(value) => self.value(value, view).is_some(),
            Assign::Me(_) => self.requester_is_kid(view),
            Assign::Targets(_) => view.awaited.0 != 0,
        }
    }

    /// Whether everything that the sets name exists.
    pub fn all_names_exist(&self, sets: &[Assign], view: &View) -> bool
        ensures { result ≡ list_all (assign_names self.now view.now) sets.now }
    {
        sets.iter().all(|set| self.names_exist(*set, view))
    }

    /// Makes a firing's sets: those of fields and of the value first, then those of `targets`, then those of `me`.
    /// All values are those before the firing, and of two sets of one place the later wins.
    pub fn assign(&mut self, sets: &[Assign], view: &View)
        requires { IsTrue (list_all (assign_names self.old view.now) sets.now) }
        ensures { self.new ≡ assigned sets.now view.now self.old }
    {
        self.assign_fields(sets, view);
        self.assign_targets(sets, view);
        self.assign_me(sets, view);
    }
}
