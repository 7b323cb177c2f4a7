//! Lists of fields that pass conditions, field by field.

ghost use Rattle.std.specs.Prelude.{◌≡◌, ◌≤◌, ◌<◌, [], ◌∷◌, ◌++◌, length, None, replicate, slice_get, slice_set};
ghost use Rattle.hem_abstract.specs.Parts.{field_after, fields_after};
ghost use Rattle.hem_abstract.specs.FieldSets.{passes, all_pass, allows, any_fields, narrowed, kept_in, kept_by, kept_by_all, led_by_field, led_by, led_by_all};

use arrayvec::ArrayVec;
use hem_base::{MsgId, Status8, StatusSet};
use hem_syntax::{Assign, Atom};
use std::marker::Model;

/// The same fields.
pub(crate) fn copied(fields: &[Status8]) -> ArrayVec<Status8, 3>
    requires { length fields.now ≤ 3 }
    ensures { result.items ≡ fields.now }
{
    let mut copy = ArrayVec::<Status8, 3>::new();
    for status in fields {
        copy.push(*status);
    }
    copy
}

/// The fields with one more at the end.
pub(crate) fn longer(fields: &[Status8], status: Status8) -> ArrayVec<Status8, 3>
    requires { length fields.now < 3 }
    ensures { result.items ≡ fields.now ++ status ∷ [] }
{
    let mut longer = copied(fields);
    longer.push(status);
    longer
}

/// Makes a set of a field, where it is there.
fn set_field(fields: &mut ArrayVec<Status8, 3>, set: Assign)
    ensures { fields.new.items ≡ field_after set fields.old.items }
{
    if let Assign::Field(field, status) = set {
        let field = usize::from(field);
        if field < fields.len() {
            fields[field] = status;
        }
    }
}

/// The fields after a rule's sets.
pub(crate) fn fields_after(fields: &[Status8], sets: &[Assign]) -> ArrayVec<Status8, 3>
    requires { length fields.now ≤ 3 }
    ensures { result.items ≡ fields_after sets.now fields.now }
{
    let mut changed = copied(fields);
    for set in sets {
        set_field(&mut changed, *set);
    }
    changed
}

/// Whether a field may have a status.
fn passes(set: Option<StatusSet>, status: Status8) -> bool
    ensures { result ≡ passes set status }
{
    match set {
        Some(set) => set.has(status),
        None => true,
    }
}

/// The statuses of both.
fn narrowed(old: Option<StatusSet>, set: StatusSet) -> StatusSet
    ensures { result ≡ narrowed old set }
{
    match old {
        Some(old) => StatusSet(old.0 & set.0),
        None => set,
    }
}

/// Lists of fields: none, or those of which each field has a status of its set.
#[derive(Drop)]
pub(crate) struct FieldSets {
    /// The statuses that each field may have; `None` where it may have any.
    sets: ArrayVec<Option<StatusSet>, 3>,
    /// Whether no list is meant, whatever the sets are.
    empty: bool,
}

impl Model for FieldSets {
    ghost use Rattle.hem_abstract.specs.FieldSets.{FieldSets as Seen};

    ghost Value = { Seen };

    ghost view = { λ f. record { sets = f.sets.items; empty = f.empty } };
}

impl FieldSets {
    /// All lists of so many fields.
    pub(crate) fn any(count: usize) -> FieldSets
        requires { count ≤ 3 }
        ensures { result ≡ any_fields count }
    {
        let mut sets = ArrayVec::<Option<StatusSet>, 3>::new();
        for _field in 0..count {
            sets.push(None);
        }
        FieldSets { sets, empty: false }
    }

    /// Whether each field may have its status.
    fn all_pass(&self, fields: &[Status8]) -> bool
        ensures { result ≡ all_pass self.now.sets fields.now }
    {
        self.sets
            .iter()
            .zip(fields.iter())
            .all(|(set, status)| passes(*set, *status))
    }

    /// Whether a list of fields is one of these.
    pub(crate) fn allows(&self, fields: &[Status8]) -> bool
        ensures { result ≡ allows self.now fields.now }
    {
        !self.empty && self.all_pass(fields)
    }

    /// What the field at a place may have, where there is that field.
    fn at(&self, field: usize) -> Option<Option<StatusSet>>
        ensures { result ≡ slice_get self.now.sets field }
    {
        self.sets.get(field).copied()
    }

    /// Lets a field have other statuses.
    fn put(&mut self, field: usize, set: Option<StatusSet>)
        requires { field < length self.old.sets }
        ensures { self.new ≡ record self.old { sets = slice_set self.old.sets field set } }
    {
        self.sets[field] = set;
    }

    /// Keeps those of which a field has a status of the set.
    fn keep_in(&mut self, field: usize, set: StatusSet)
        ensures { self.new ≡ kept_in field set self.old }
    {
        match self.at(field) {
            Some(old) => self.put(field, Some(narrowed(old, set))),
            None => self.empty = true,
        }
    }

    /// Keeps those that pass a condition.
    fn keep_by(&mut self, asked: Option<MsgId>, atom: Atom)
        ensures { self.new ≡ kept_by asked atom self.old }
    {
        match atom {
            Atom::Field(field, set) => self.keep_in(usize::from(field), set),
            Atom::Asked(id) => {
                if asked != Some(id) {
                    self.empty = true;
                }
            }
            Atom::KidsAll(_) | Atom::KidsAny(_) => {}
            Atom::Me(_) | Atom::OthersAll(_) | Atom::OthersAny(_) => self.empty = true,
        }
    }

    /// Keeps those that pass a guard, for an asked id.
    pub(crate) fn keep_by_all(&mut self, asked: Option<MsgId>, guard: &[Atom])
        ensures { self.new ≡ kept_by_all asked guard.now self.old }
    {
        for atom in guard {
            self.keep_by(asked, *atom);
        }
    }

    /// Takes those that are among these once a field is set.
    fn lead_by_field(&mut self, field: usize, status: Status8)
        ensures { self.new ≡ led_by_field field status self.old }
    {
        if let Some(old) = self.sets.get(field) {
            if passes(*old, status) {
                self.sets[field] = None;
            } else {
                self.empty = true;
            }
        }
    }

    /// Takes those that are among these after a set.
    fn lead_by(&mut self, set: Assign)
        ensures { self.new ≡ led_by set self.old }
    {
        if let Assign::Field(field, status) = set {
            self.lead_by_field(usize::from(field), status);
        }
    }

    /// Takes those that are among these after a rule's sets.
    pub(crate) fn lead_by_all(&mut self, sets: &[Assign])
        ensures { self.new ≡ led_by_all sets.now self.old }
    {
        for place in (0..sets.len()).rev() {
            self.lead_by(sets[place]);
        }
    }
}
