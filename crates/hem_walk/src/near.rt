//! The positions that a firing can change.

ghost use Rattle.std.specs.Prelude.{◌≡◌, ◌<◌, ◌/◌, ℕ, true, length};
ghost use Rattle.hem_tree.specs.Tree.{is_child};
ghost use Rattle.hem_system.specs.declared.lane.Lane.{Lane};
ghost use Rattle.hem_system.specs.State.{reaches};
ghost use Rattle.hem_walk.specs.Walk.{IsThere, positions, position};
ghost use Rattle.hem_walk.specs.Marks.{is_in};
ghost use Rattle.hem_walk.specs.Near.{reaches_place, IsMarkedNear};

use crate::marks::Marks;
use crate::working::{Walking, position};
use hem_base::{Firing, LineId, ObjectId};
use hem_fire::To;
use hem_tree::Tree;

/// Whether a message goes to the child at that place.
fn reaches_place(to: To, place: usize) -> bool
    ensures { result ≡ reaches_place to place }
{
    match to {
        To::Kid(kid) => place == usize::from(kid),
        To::Kids(kids) => kids.has(place),
        To::Nobody | To::Answer | To::UpRequest | To::UpResponse => false,
    }
}

impl Walking {
    /// Puts in the position of an object on a line.
    fn mark(&self, tree: &Tree, marks: &mut Marks, line: LineId, object: ObjectId)
        requires there { IsThere tree.now self.now.system line.0 object.0 }
        requires size { positions tree.now self.now.system / 64 < length marks.old }
        ensures here { is_in marks.new (position tree.now line.0 object.0) ≡ true }
        ensures kept { (n : ℕ) → is_in marks.old n ≡ true → is_in marks.new n ≡ true }
        ensures size { length marks.new ≡ length marks.old }
    {
        marks.insert(position(tree, line, object));
    }

    /// Puts in the position of the parent of the object that fires.
    fn mark_above(&self, tree: &Tree, marks: &mut Marks, firing: Firing)
        requires there { IsThere tree.now self.now.system firing.line.0 firing.object.0 }
        requires size { positions tree.now self.now.system / 64 < length marks.old }
        ensures above { (high : ℕ) → is_child tree.now firing.object.0 high ≡ true → is_in marks.new (position tree.now firing.line.0 high) ≡ true }
        ensures kept { (n : ℕ) → is_in marks.old n ≡ true → is_in marks.new n ≡ true }
        ensures size { length marks.new ≡ length marks.old }
    {
        // That the tree is lawful: a parent is an object of it.
        let _objects = tree.objects();
        if let Some(parent) = tree.parent(firing.object) {
            self.mark(tree, marks, firing.line, parent);
        }
    }

    /// Puts in the position of an object on a line, where that is wanted.
    fn mark_if(&self, tree: &Tree, marks: &mut Marks, line: LineId, object: ObjectId, wanted: bool)
        requires there { IsThere tree.now self.now.system line.0 object.0 }
        requires size { positions tree.now self.now.system / 64 < length marks.old }
        ensures here { wanted ≡ true → is_in marks.new (position tree.now line.0 object.0) ≡ true }
        ensures kept { (n : ℕ) → is_in marks.old n ≡ true → is_in marks.new n ≡ true }
        ensures size { length marks.new ≡ length marks.old }
    {
        if wanted {
            self.mark(tree, marks, line, object);
        }
    }

    /// Puts in the positions of the children to which the object that fires sends its message.
    fn mark_below(&self, tree: &Tree, marks: &mut Marks, firing: Firing, to: To)
        requires there { IsThere tree.now self.now.system firing.line.0 firing.object.0 }
        requires size { positions tree.now self.now.system / 64 < length marks.old }
        ensures below { (low : ℕ) → reaches tree.now firing to low Lane.Down ≡ true → is_in marks.new (position tree.now firing.line.0 low) ≡ true }
        ensures kept { (n : ℕ) → is_in marks.old n ≡ true → is_in marks.new n ≡ true }
        ensures size { length marks.new ≡ length marks.old }
    {
        let children = tree.children(firing.object);
        for (place, child) in children.iter().enumerate() {
            let wanted = reaches_place(to, place);
            self.mark_if(tree, marks, firing.line, *child, wanted);
        }
    }

    /// Puts in the positions that a firing can change: on its line that of its object, that of the parent where it sends up,
    /// and those of the children to which it sends.
    pub(crate) fn mark_near(&self, tree: &Tree, marks: &mut Marks, firing: Firing, to: To)
        requires there { IsThere tree.now self.now.system firing.line.0 firing.object.0 }
        requires size { positions tree.now self.now.system / 64 < length marks.old }
        ensures { IsMarkedNear tree.now self.now.system firing to marks.old marks.new }
    {
        self.mark(tree, marks, firing.line, firing.object);
        match to {
            To::UpRequest | To::UpResponse => self.mark_above(tree, marks, firing),
            To::Kid(_) | To::Kids(_) => self.mark_below(tree, marks, firing, to),
            To::Nobody | To::Answer => {}
        }
    }
}
