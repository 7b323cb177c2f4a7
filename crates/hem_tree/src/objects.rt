//! The objects of a tree, from its nodes.

ghost use Rattle.std.specs.Prelude.{◌≡◌, ◌+◌, ◌^◌, ◌<◌, ◌≤◌, ◌-◌, length, map, filter, count_by, IfOk, IfErr, OnOk};
ghost use Rattle.hem_tree.specs.Tree.{below, is_number};
ghost use Rattle.hem_tree.specs.Raw.{IsRawTree, parent_in, tree_of};
ghost use Rattle.hem_tree.specs.Building.{limit_passed, IsTreeRefused};
ghost use Rattle.hem_tree.specs.Objects.{number_of, number_at, elders_in, AreParents, IsObjectOf, IsMade};

use crate::limits::{MOST_CHILDREN, MOST_LEVELS, MOST_OBJECTS};
use crate::raw::RawNode;
use crate::setup::SetupError;
use crate::{SetupCause, SetupFault};
use hem_base::{Kind, List, ObjectId, OutOfMemory};
use std::alloc::Global;

/// An object of a tree, with what the queries answer.
#[derive(Debug, Drop)]
pub struct Object {
    pub kind: Kind,
    pub parent: Option<ObjectId>,
    pub depth: u32,
    pub children: List<ObjectId>,
}

/// The nearest of the first `count` nodes that is one level above `level`, counted back from the last.
fn nearest_above(nodes: &[RawNode], count: usize, level: u32) -> Option<ObjectId>
    requires within { count ≤ length nodes.now }
    requires few { count < 2 ^ 32 }
    ensures { number_of result ≡ parent_in nodes.now count level }
{
    let mut nearest = None;
    for k in 0..count {
        if u64::from(nodes[k].level) + 1 == u64::from(level) {
            nearest = Some(ObjectId(k as u32));
        }
    }
    nearest
}

fn is_parent(parent: Option<ObjectId>, high: ObjectId) -> bool
    ensures { result ≡ is_number (number_of parent) high.0 }
{
    match parent {
        Some(o) => o.0 == high.0,
        None => false,
    }
}

/// How many of the objects with these parents are children of `high`.
fn count_children(parents: &[Option<ObjectId>], high: ObjectId) -> usize
    ensures { result ≡ count_by (λ k. is_number (number_at parents.now k) high.0) (below (length parents.now)) }
{
    let mut count = 0;
    for (k, parent) in parents.iter().enumerate() {
        if is_parent(*parent, high) {
            count += 1;
        }
    }
    count
}

/// How many children this parent has among the objects with these parents.
fn count_elders(parents: &[Option<ObjectId>], parent: Option<ObjectId>) -> usize
    ensures { result ≡ elders_in parents.now parent }
{
    match parent {
        Some(high) => count_children(parents, high),
        None => 0,
    }
}

/// The first limit that the object after those with these parents passes, by its own parent and level.
fn limit_passed(
    parents: &[Option<ObjectId>],
    parent: Option<ObjectId>,
    level: u32,
) -> Option<SetupCause>
    ensures { result ≡ limit_passed (length parents.now) (elders_in parents.now parent) level }
{
    if parents.len() >= MOST_OBJECTS {
        Some(SetupCause::Objects)
    } else if count_elders(parents, parent) >= MOST_CHILDREN {
        Some(SetupCause::Children)
    } else if level > MOST_LEVELS {
        Some(SetupCause::Levels)
    } else {
        None
    }
}

/// The parent of each node, or the first node that passes a limit.
fn parents_of(alloc: Global, nodes: &[RawNode]) -> Result<List<Option<ObjectId>>, SetupError>
    requires { IsRawTree nodes.now }
    ensures parents { IfOk result (AreParents (tree_of nodes.now)) }
    ensures refused { IfErr result (IsTreeRefused nodes.now) }
{
    let mut parents = List::new(alloc);
    for (k, node) in nodes.iter().enumerate() {
        let parent = nearest_above(nodes, k, node.level);
        if let Some(cause) = limit_passed(parents.as_slice(), parent, node.level) {
            return Err(SetupError::Setup(SetupFault {
                place: node.place,
                cause,
            }));
        }
        parents.push(parent)?;
    }
    Ok(parents)
}

/// The children of an object, in order.
fn children_of(
    alloc: Global,
    parents: &[Option<ObjectId>],
    high: ObjectId,
) -> Result<List<ObjectId>, OutOfMemory>
    requires { length parents.now < 2 ^ 32 }
    ensures { IfOk result (λ children. map (λ id. id.0) children ≡ filter (λ k. is_number (number_at parents.now k) high.0) (below (length parents.now))) }
{
    let mut children = List::new(alloc);
    for (k, parent) in parents.iter().enumerate() {
        if is_parent(*parent, high) {
            children.push(ObjectId(k as u32))?;
        }
    }
    Ok(children)
}

/// What is kept of the object at place `k` of the nodes.
fn object_at(
    alloc: Global,
    nodes: &[RawNode],
    parents: &[Option<ObjectId>],
    k: usize,
) -> Result<Object, OutOfMemory>
    requires raw { IsRawTree nodes.now }
    requires parents { AreParents (tree_of nodes.now) parents.now }
    requires within { k < length nodes.now }
    ensures { IfOk result (IsObjectOf (tree_of nodes.now) k) }
{
    let node = nodes[k];
    let children = children_of(alloc, parents, ObjectId(k as u32))?;
    Ok(Object {
        kind: node.kind,
        parent: parents[k],
        depth: node.level,
        children,
    })
}

/// The objects of the nodes, or the first node that passes a limit.
pub fn objects_of(alloc: Global, nodes: &[RawNode]) -> Result<List<Object>, SetupError>
    requires { IsRawTree nodes.now }
    ensures objects { IfOk result (IsMade (tree_of nodes.now)) }
    ensures refused { IfErr result (IsTreeRefused nodes.now) }
{
    let parents = parents_of(alloc, nodes)?;
    let mut objects = List::new(alloc);
    for k in 0..nodes.len() {
        let object = object_at(alloc, nodes, parents.as_slice(), k)?;
        objects.push(object)?;
    }
    Ok(objects)
}
