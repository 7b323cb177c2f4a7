//! Where a firing is possible.

ghost use Rattle.std.specs.Prelude.{◌≡◌, ◌<◌, ◌≤◌, length, map, cond, is_some, option_and_then, Some, None, IsSome, IfSome};
ghost use Rattle.hem_object.specs.Local.{Local};
ghost use Rattle.hem_fire.specs.OneFire.{Heads};
ghost use Rattle.hem_system.specs.State.{head_at, request_head, heads_of, own_effect, rule_effect, effect_of};
ghost use Rattle.hem_system.specs.Cells.{line_of};
ghost use Rattle.hem_system.specs.Steps.{kids_taken, heads_in, request_taken, parent_taken, heads_taken, IsEnabled};

use crate::cell::Cell;
use crate::children::{children_of, own_place};
use crate::lane::Lane;
use arrayvec::ArrayVec;
use hem_base::{Firing, KidSet, Kind, Message, ObjectId};
use hem_fire::{Heads, Plan, awaited_of, needs_hold};
use hem_object::Local;
use hem_syntax::{Protocol, Rule, Take};
use hem_tree::Tree;

/// The rule that a firing names, the kind of its object, and the place of the child that it names.
#[derive(Clone, Copy)]
pub(crate) struct Chosen<'p> {
    pub(crate) kind: Kind,
    pub(crate) rule: &'p Rule,
    pub(crate) me: Option<u8>,
}

/// What a firing names, where the object, the rule and the child are there.
pub(crate) fn look_up<'p>(p: &'p Protocol, tree: &Tree, firing: Firing) -> Option<Chosen<'p>>
    ensures effect { (local : Local) (heads : Heads) → own_effect p.now tree.now firing local heads ≡ option_and_then (λ x. rule_effect p.now x.kind x.rule.now x.me local heads) result }
    ensures there { IsSome result → firing.object.0 < length tree.now }
{
    if firing.object.0 >= tree.objects() {
        return None;
    }
    let kind = tree.kind(firing.object);
    let rule = p.rule(kind, firing.rule)?;
    let me = own_place(tree, firing.object, firing.me)?;
    Some(Chosen { kind, rule, me })
}

/// The head of a list of a line.
fn head_at(cells: &[Cell], object: ObjectId, lane: Lane) -> Option<Message>
    ensures { result ≡ head_at (line_of cells.now) object.0 lane }
{
    match cells.get(object.0 as usize) {
        Some(cell) => cell.list(lane).first().copied(),
        None => None,
    }
}

/// The head of a child's responses, where that is wanted.
fn response_head(cells: &[Cell], child: ObjectId, wanted: bool) -> Option<Message>
    ensures { result ≡ cond wanted (head_at (line_of cells.now) child.0 Lane.UpResponses) None }
{
    if wanted {
        head_at(cells, child, Lane::UpResponses)
    } else {
        None
    }
}

/// The heads of the responses of the children that are in the set; `None` for every other child.
fn response_heads(
    cells: &[Cell],
    children: &[ObjectId],
    kids: KidSet,
) -> ArrayVec<Option<Message>, 8>
    requires { length children.now ≤ 8 }
    ensures { result.items ≡ heads_in kids (map (λ id. head_at (line_of cells.now) id.0 Lane.UpResponses) children.now) }
{
    let mut heads = ArrayVec::<Option<Message>, 8>::new();
    for (place, child) in children.iter().enumerate() {
        heads.push(response_head(cells, *child, kids.has(place)));
    }
    heads
}

/// The children of whose responses a rule takes the head.
fn kids_taken(take: Take, local: &Local) -> KidSet
    ensures { result ≡ kids_taken take local.now }
{
    match take {
        Take::Kids(_) => awaited_of(local),
        Take::Me(_) | Take::Parent(_) | Take::Nothing => KidSet(0),
    }
}

/// The head of the named child's requests, or else of the processor's.
fn request_head(cells: &[Cell], object: ObjectId, me: Option<ObjectId>) -> Option<Message>
    ensures { result ≡ request_head (line_of cells.now) object.0 me }
{
    match me {
        Some(child) => head_at(cells, child, Lane::UpRequests),
        None => head_at(cells, object, Lane::Requests),
    }
}

/// The head of the requester's requests, where a rule takes it.
fn request_taken(
    cells: &[Cell],
    object: ObjectId,
    me: Option<ObjectId>,
    take: Take,
) -> Option<Message>
    ensures { result ≡ request_taken take (request_head (line_of cells.now) object.0 me) }
{
    match take {
        Take::Me(_) => request_head(cells, object, me),
        Take::Parent(_) | Take::Kids(_) | Take::Nothing => None,
    }
}

/// The head of the parent's messages, where a rule takes it.
fn parent_taken(cells: &[Cell], object: ObjectId, take: Take) -> Option<Message>
    ensures { result ≡ parent_taken take (head_at (line_of cells.now) object.0 Lane.Down) }
{
    match take {
        Take::Parent(_) => head_at(cells, object, Lane::Down),
        Take::Me(_) | Take::Kids(_) | Take::Nothing => None,
    }
}

/// The heads that a rule takes at an object of the tree: no other list is looked at.
#[inline(always)]
fn heads_taken(tree: &Tree, cells: &[Cell], firing: Firing, take: Take, local: &Local) -> Heads
    requires { firing.object.0 < length tree.now }
    ensures { result ≡ heads_taken take local.now (heads_of tree.now (line_of cells.now) firing.object.0 firing.me) }
{
    let object = firing.object;
    let kids = response_heads(cells, children_of(tree, object), kids_taken(take, local));
    Heads {
        request: request_taken(cells, object, firing.me, take),
        parent: parent_taken(cells, object, take),
        kids,
    }
}

/// A firing that is possible: the rule that it names, its plan, and the heads that it takes.
#[derive(Drop)]
pub(crate) struct Enabled<'p> {
    pub(crate) rule: &'p Rule,
    pub(crate) plan: Plan,
    pub(crate) took: Heads,
}

/// The rule, the plan and the heads of a firing, where it is possible on a line. The locks are looked at before any
/// message. It is put in place, so that what it answers isn't copied.
#[inline(always)]
pub(crate) fn enable<'p>(
    cells: &[Cell],
    p: &'p Protocol,
    tree: &Tree,
    firing: Firing,
) -> Option<Enabled<'p>>
    ensures some { is_some result ≡ is_some (effect_of p.now tree.now (line_of cells.now) firing) }
    ensures enabled { IfSome result (λ x. IsEnabled p.now tree.now (line_of cells.now) firing x.rule.now x.plan x.took) }
    ensures there { IsSome result → firing.object.0 < length tree.now }
{
    let cell = cells.get(firing.object.0 as usize)?;
    let Chosen { kind, rule, me } = look_up(p, tree, firing)?;
    if !needs_hold(rule, &cell.local) {
        return None;
    }
    let took = heads_taken(tree, cells, firing, rule.take, &cell.local);
    let plan = Plan::of(p, kind, rule, me, &cell.local, &took)?;
    Some(Enabled { rule, plan, took })
}

/// Whether a firing is possible on a line.
pub(crate) fn can_on(cells: &[Cell], p: &Protocol, tree: &Tree, firing: Firing) -> bool
    ensures { result ≡ is_some (effect_of p.now tree.now (line_of cells.now) firing) }
{
    enable(cells, p, tree, firing).is_some()
}
