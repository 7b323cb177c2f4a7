//! Lawful trees.

ghost use Rattle.std.specs.Prelude.{◌≡◌, ◌<◌, ◌↔◌, IsTrue, IfOk, IfErr, Some, length, map};
ghost use Rattle.hem_tree.specs.Tree.{kind_of, parent_of, children_of, level_of, IsUnder, IsLawful};
ghost use Rattle.hem_tree.specs.Raw.{tree_of};
ghost use Rattle.hem_tree.specs.Building.{IsTreeRefused};
ghost use Rattle.hem_tree.specs.Objects.{number_of, IsObjectOf};

use crate::objects::{Object, objects_of};
use crate::raw::RawTree;
use crate::setup::SetupError;
use hem_base::{Kind, List, ObjectId};
use std::alloc::Global;
use std::marker::Model;

/// A lawful tree: one root, all other objects below it in preorder, the leaves alone without children, and all within
/// the limits. An object goes by its place in preorder, from 0. No query takes memory.
#[derive(Debug, Drop)]
pub struct Tree {
    objects: List<Object>,
}

impl Model for Tree {
    ghost use Rattle.hem_tree.specs.Tree.{Tree as Described};

    ghost Value = { Described };

    ghost use Rattle.hem_tree.specs.Objects.{described, IsDescribed};

    ghost view = { λ t. described t.objects };

    ghost invariant = { λ t. IsDescribed t.objects };
}

impl Tree {
    /// The tree of the text, where it is lawful. An answer `Setup` has the first node that passes a limit, in the order
    /// of the text: of that node first the number of objects, then the children of its parent, then its level.
    pub fn build(alloc: Global, raw: &RawTree) -> Result<Tree, SetupError>
        ensures data { IfOk result (λ tree. tree ≡ tree_of raw.now) }
        ensures lawful { IfOk result IsLawful }
        ensures refused { IfErr result (IsTreeRefused raw.now) }
    {
        let objects = objects_of(alloc, raw.nodes())?;
        Ok(Tree { objects })
    }

    /// What is kept of an object.
    fn object(&self, o: ObjectId) -> &Object
        requires { o.0 < length self.now }
        ensures object { IsObjectOf self.now o.0 result.now }
        ensures lawful { IsLawful self.now }
    {
        &self.objects.as_slice()[o.0 as usize]
    }

    /// How many objects there are.
    pub fn objects(&self) -> u32
        ensures count { result ≡ length self.now }
        ensures lawful { IsLawful self.now }
    {
        self.objects.len() as u32
    }

    pub fn kind(&self, o: ObjectId) -> Kind
        requires { o.0 < length self.now }
        ensures { kind_of self.now o.0 ≡ Some result }
    {
        self.object(o).kind
    }

    /// The parent of an object, which the root alone lacks.
    pub fn parent(&self, o: ObjectId) -> Option<ObjectId>
        requires { o.0 < length self.now }
        ensures { number_of result ≡ parent_of self.now o.0 }
    {
        self.object(o).parent
    }

    /// The children of an object, in order.
    pub fn children(&self, o: ObjectId) -> &[ObjectId]
        requires { o.0 < length self.now }
        ensures { map (λ id. id.0) result.now ≡ children_of self.now o.0 }
    {
        self.object(o).children.as_slice()
    }

    /// The level of an object, 1 at the root.
    pub fn depth(&self, o: ObjectId) -> u32
        requires { o.0 < length self.now }
        ensures { result ≡ level_of self.now o.0 }
    {
        self.object(o).depth
    }

    /// Whether `high` is the parent of `low`, or that parent's parent, and so on. No object is under itself.
    pub fn is_under(&self, low: ObjectId, high: ObjectId) -> bool
        requires low { low.0 < length self.now }
        requires high { high.0 < length self.now }
        ensures { IsTrue result ↔ IsUnder self.now low.0 high.0 }
    {
        let mut at = low;
        while let Some(parent) = self.object(at).parent {
            if parent == high {
                return true;
            }
            at = parent;
        }
        false
    }
}
