//! The rules of an object.

ghost use Rattle.std.specs.Prelude.{◌≡◌, ◌<◌, ◌++◌, ◌∷◌, [], true, length, map, nat_lt, slice_index_or, option_map, Some, IfOk, OnOk};
ghost use Rattle.std.specs.List.{list_all, flat_map};
ghost use Rattle.hem_tree.specs.Tree.{below};
ghost use Rattle.hem_emit.specs.Emit.{is_spontaneous, rule_at, named_at, rules_at};
ghost use Rattle.hem_translate.specs.ByChild.{child_rule};
ghost use Rattle.hem_translate.specs.ByPlace.{rule_by_places};

use crate::actions::actions;
use crate::clauses::clauses;
use crate::site::{Kid, Places, Site};
use hem_base::{Kind, List, Name, OutOfMemory, RuleId};
use hem_module::ModRule;
use hem_syntax::{Protocol, Rule, Take};
use std::alloc::Global;

/// The same name.
pub(crate) fn copied(name: &Name) -> Name
    ensures { result ≡ name.now }
{
    match Name::from_slice(name.as_bytes()) {
        Some(copy) => copy,
        None => unreachable!("the bytes of a name are a name"),
    }
}

/// The name of a rule.
fn rule_name(p: &Protocol, id: RuleId) -> Name
    requires { id.0 < length p.now.rule_names }
    ensures { result ≡ slice_index_or p.now.rule_names id.0 [] }
{
    let names = p.rule_names().as_slice();
    copied(&names[id.0 as usize])
}

/// Whether a rule takes nothing.
fn is_spontaneous(take: Take) -> bool
    ensures { result ≡ is_spontaneous take }
{
    matches!(take, Take::Nothing)
}

/// The number of the child at a place.
fn child(site: &Site, place: u8) -> u32
    ensures { result ≡ slice_index_or site.now.kids place 0 }
{
    site.child(place)
}

/// The number of the child that is named.
fn named_child(site: &Site, me: Option<u8>) -> Option<u32>
    ensures { result ≡ option_map (λ k. slice_index_or site.now.kids k 0) me }
{
    match me {
        Some(place) => Some(child(site, place)),
        None => None,
    }
}

/// A rule at an object, with the place of the child that it names.
fn rule_at(
    alloc: Global,
    l: &Places,
    p: &Protocol,
    site: &Site,
    me: Option<u8>,
    rule: &Rule,
) -> Result<ModRule, OutOfMemory>
    requires { rule.now.name.0 < length p.now.rule_names }
    ensures { IfOk result (λ r. r ≡ rule_by_places l.now (rule_at p.now site.now rule.now me)) }
{
    let clauses = clauses(alloc, l, site, me, rule)?;
    let actions = actions(alloc, l, p, site, me, rule)?;
    Ok(ModRule {
        object: site.object(),
        name: rule_name(p, rule.name),
        from: named_child(site, me),
        spontaneous: is_spontaneous(rule.take),
        clauses,
        actions,
    })
}

/// Appends a rule at an object.
fn push_rule(
    alloc: Global,
    l: &Places,
    rules: &mut List<ModRule>,
    p: &Protocol,
    site: &Site,
    me: Option<u8>,
    rule: &Rule,
) -> Result<(), OutOfMemory>
    requires { rule.now.name.0 < length p.now.rule_names }
    ensures { OnOk result (rules.new ≡ rules.old ++ rule_by_places l.now (rule_at p.now site.now rule.now me) ∷ []) }
{
    let rule = rule_at(alloc, l, p, site, me, rule)?;
    rules.push(rule)
}

/// Appends a rule for a child.
fn push_for_child(
    alloc: Global,
    l: &Places,
    rules: &mut List<ModRule>,
    p: &Protocol,
    site: &Site,
    rule: &Rule,
    kid: &Kid,
) -> Result<(), OutOfMemory>
    requires { rule.now.name.0 < length p.now.rule_names }
    ensures { OnOk result (rules.new ≡ rules.old ++ child_rule l.now p.now site.now rule.now kid.now ∷ []) }
{
    push_rule(alloc, l, rules, p, site, Some(kid.place()), rule)
}

/// Appends a rule once for each child.
fn push_each_child(
    alloc: Global,
    l: &Places,
    rules: &mut List<ModRule>,
    p: &Protocol,
    site: &Site,
    rule: &Rule,
    kids: &[Kid],
) -> Result<(), OutOfMemory>
    requires { rule.now.name.0 < length p.now.rule_names }
    ensures { OnOk result (rules.new ≡ rules.old ++ map (child_rule l.now p.now site.now rule.now) kids.now) }
{
    for kid in kids {
        push_for_child(alloc, l, rules, p, site, rule, kid)?;
    }
    Ok(())
}

/// Appends a rule that takes a request of a child, once for each child.
fn push_by_child(
    alloc: Global,
    l: &Places,
    rules: &mut List<ModRule>,
    p: &Protocol,
    site: &Site,
    rule: &Rule,
) -> Result<(), OutOfMemory>
    requires { rule.now.name.0 < length p.now.rule_names }
    ensures { OnOk result (rules.new ≡ rules.old ++ map (rule_by_places l.now) (map (rule_at p.now site.now rule.now) (map Some (below (length site.now.kids))))) }
{
    push_each_child(alloc, l, rules, p, site, rule, site.kids())
}

/// Appends a rule once for each child that it may name, or once where it names none.
fn push_named(
    alloc: Global,
    l: &Places,
    rules: &mut List<ModRule>,
    p: &Protocol,
    site: &Site,
    rule: &Rule,
) -> Result<(), OutOfMemory>
    requires { rule.now.name.0 < length p.now.rule_names }
    ensures { OnOk result (rules.new ≡ rules.old ++ map (rule_by_places l.now) (map (rule_at p.now site.now rule.now) (named_at site.now.kind rule.now.take (length site.now.kids)))) }
{
    match site.kind() {
        Kind::Leaf => push_rule(alloc, l, rules, p, site, None, rule),
        Kind::Root | Kind::Mid => match rule.take {
            Take::Me(_) => push_by_child(alloc, l, rules, p, site, rule),
            Take::Parent(_) | Take::Kids(_) | Take::Nothing => {
                push_rule(alloc, l, rules, p, site, None, rule)
            }
        },
    }
}

/// Appends one rule of an object after another.
fn push_each(
    alloc: Global,
    l: &Places,
    rules: &mut List<ModRule>,
    p: &Protocol,
    site: &Site,
    those: &[Rule],
) -> Result<(), OutOfMemory>
    requires { list_all (λ r. nat_lt r.name.0 (length p.now.rule_names)) those.now ≡ true }
    ensures { OnOk result (rules.new ≡ rules.old ++ flat_map (λ rule. map (rule_by_places l.now) (map (rule_at p.now site.now rule) (named_at site.now.kind rule.take (length site.now.kids)))) those.now) }
{
    for rule in those {
        push_named(alloc, l, rules, p, site, rule)?;
    }
    Ok(())
}

/// Appends these rules of an object.
fn push_all(
    alloc: Global,
    l: &Places,
    rules: &mut List<ModRule>,
    p: &Protocol,
    site: &Site,
    those: &[Rule],
) -> Result<(), OutOfMemory>
    requires { list_all (λ r. nat_lt r.name.0 (length p.now.rule_names)) those.now ≡ true }
    ensures { OnOk result (rules.new ≡ rules.old ++ map (rule_by_places l.now) (flat_map (λ rule. map (rule_at p.now site.now rule) (named_at site.now.kind rule.take (length site.now.kids))) those.now)) }
{
    push_each(alloc, l, rules, p, site, those)
}

/// Appends the rules of an object.
pub(crate) fn push_rules(
    alloc: Global,
    l: &Places,
    rules: &mut List<ModRule>,
    p: &Protocol,
    site: &Site,
) -> Result<(), OutOfMemory>
    ensures { OnOk result (rules.new ≡ rules.old ++ map (rule_by_places l.now) (rules_at p.now site.now)) }
{
    let part = p.part(site.kind());
    push_all(alloc, l, rules, p, site, part.rules.as_slice())
}
