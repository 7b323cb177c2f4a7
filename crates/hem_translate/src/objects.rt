//! The objects of a tree with their children.

ghost use Rattle.std.specs.Prelude.{◌≡◌, ◌<◌, ◌≤◌, ◌++◌, ◌∷◌, [], length, map, Some, IfOk, OnOk};
ghost use Rattle.std.specs.List.{enumerate_from, flat_map};
ghost use Rattle.hem_base.specs.declared.ids.Kind.{Kind as Level};
ghost use Rattle.hem_tree.specs.Tree.{below, kind_of, children_of};
ghost use Rattle.hem_emit.specs.Emit.{place_of, emitted_rules};
ghost use Rattle.hem_emit.specs.Written.{written_as};
ghost use Rattle.hem_translate.specs.ByPlace.{places_of};
ghost use Rattle.hem_translate.specs.ByObject.{rules_by, object_rules};

use crate::rules::push_rules;
use crate::site::{Kid, Places, Site};
use hem_base::{Kind, List, ObjectId, OutOfMemory};
use hem_module::ModRule;
use hem_syntax::Protocol;
use hem_tree::Tree;
use std::alloc::Global;

/// Appends a child at the next place.
fn push_kid(kids: &mut List<Kid>, child: ObjectId) -> Result<(), OutOfMemory>
    requires { length kids.old ≤ 8 }
    ensures { OnOk result (kids.new ≡ kids.old ++ (length kids.old, child.0) ∷ []) }
{
    let place = kids.len() as u8;
    kids.push(Kid::new(place, child.0))
}

/// These children with their places.
#[tactic(auto, using(crate::proofs::Kids::one_kid_more))]
fn kids_of(alloc: Global, children: &[ObjectId]) -> Result<List<Kid>, OutOfMemory>
    requires { length children.now ≤ 8 }
    ensures { IfOk result (λ kids. kids ≡ enumerate_from 0 (map (λ c. c.0) children.now)) }
{
    let mut kids = List::new(alloc);
    for child in children {
        push_kid(&mut kids, *child)?;
    }
    Ok(kids)
}

/// How many statuses there are.
fn status_count(p: &Protocol) -> u8
    ensures { result ≡ length p.now.statuses }
{
    let _lawful = p.part(Kind::Root);
    p.statuses().len() as u8
}

/// An object of a tree with these children.
fn site_with(p: &Protocol, tree: &Tree, o: ObjectId, kids: List<Kid>) -> Site
    requires there { o.0 < length tree.now }
    requires kids { kids ≡ enumerate_from 0 (children_of tree.now o.0) }
    ensures { (kind : Level) → kind_of tree.now o.0 ≡ Some kind → result ≡ place_of p.now tree.now o.0 kind }
{
    Site::new(tree.kind(o), o.0, kids, status_count(p))
}

/// An object of a tree.
pub(crate) fn site_of(
    alloc: Global,
    p: &Protocol,
    tree: &Tree,
    o: ObjectId,
) -> Result<Site, OutOfMemory>
    requires { o.0 < length tree.now }
    ensures { IfOk result (λ s. (kind : Level) → kind_of tree.now o.0 ≡ Some kind → s ≡ place_of p.now tree.now o.0 kind) }
{
    let _lawful = tree.objects();
    let kids = kids_of(alloc, tree.children(o))?;
    Ok(site_with(p, tree, o, kids))
}

/// Appends the rules of an object of a tree.
fn push_object(
    alloc: Global,
    l: &Places,
    rules: &mut List<ModRule>,
    p: &Protocol,
    tree: &Tree,
    o: ObjectId,
) -> Result<(), OutOfMemory>
    requires { o.0 < length tree.now }
    ensures { (kind : Level) → kind_of tree.now o.0 ≡ Some kind → OnOk result (rules.new ≡ rules.old ++ rules_by l.now p.now tree.now o.0 kind) }
{
    let site = site_of(alloc, p, tree, o)?;
    push_rules(alloc, l, rules, p, &site)
}

/// Appends the rules of an object of a tree, whatever its kind is.
fn push_of_kind(
    alloc: Global,
    l: &Places,
    rules: &mut List<ModRule>,
    p: &Protocol,
    tree: &Tree,
    o: ObjectId,
) -> Result<(), OutOfMemory>
    requires { o.0 < length tree.now }
    ensures { OnOk result (rules.new ≡ rules.old ++ object_rules l.now p.now tree.now o.0) }
{
    let _level = tree.kind(o);
    push_object(alloc, l, rules, p, tree, o)
}

/// Appends the rules of all objects.
#[tactic(auto, using(crate::proofs::Further::one_object_more))]
pub(crate) fn push_objects(
    alloc: Global,
    l: &Places,
    rules: &mut List<ModRule>,
    p: &Protocol,
    tree: &Tree,
) -> Result<(), OutOfMemory>
    ensures { OnOk result (rules.new ≡ rules.old ++ flat_map (object_rules l.now p.now tree.now) (below (length tree.now))) }
{
    for o in 0..tree.objects() {
        push_of_kind(alloc, l, rules, p, tree, ObjectId(o))?;
    }
    Ok(())
}

/// Appends all rules of a protocol on a tree, as they are written.
fn push_written(
    alloc: Global,
    l: &Places,
    rules: &mut List<ModRule>,
    p: &Protocol,
    tree: &Tree,
) -> Result<(), OutOfMemory>
    requires { l.now ≡ places_of p.now tree.now }
    ensures { OnOk result (rules.new ≡ rules.old ++ map (written_as p.now tree.now) (emitted_rules p.now tree.now)) }
{
    push_objects(alloc, l, rules, p, tree)
}

/// All rules of a protocol on a tree, as they are written.
pub(crate) fn rules_of(
    alloc: Global,
    l: &Places,
    p: &Protocol,
    tree: &Tree,
) -> Result<List<ModRule>, OutOfMemory>
    requires { l.now ≡ places_of p.now tree.now }
    ensures { IfOk result (λ rules. rules ≡ map (written_as p.now tree.now) (emitted_rules p.now tree.now)) }
{
    let mut rules = List::new(alloc);
    push_written(alloc, l, &mut rules, p, tree)?;
    Ok(rules)
}
