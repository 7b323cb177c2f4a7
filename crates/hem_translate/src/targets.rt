//! The children that a rule may send to.

ghost use Rattle.std.specs.Prelude.{◌≡◌, ◌++◌, ◌∷◌, [], map, IfOk, OnOk};
ghost use Rattle.std.specs.List.{flat_map};
ghost use Rattle.hem_syntax.specs.declared.rule.SendTo.TheVariants as to;
ghost use Rattle.hem_emit.specs.Clauses.{entry_in, held_for, not_held_for};
ghost use Rattle.hem_emit.specs.Actions.{targets_at};
ghost use Rattle.hem_translate.specs.Askers.{asker_is};
ghost use Rattle.hem_translate.specs.ByPlace.{test_at};
ghost use Rattle.hem_translate.specs.Amounts.{acted};
ghost use Rattle.hem_translate.specs.Targets.{target_at, given, aimed, requesters, awaited_by, unheld_by, to_kid, sent_to};

use crate::amounts::{Amount, Deed, copied, push_amounts};
use crate::clauses::{Asker, held, not_held, push_entry};
use crate::site::{Kid, Places, Site, named, others};
use crate::tables::{Queue, Reg};
use hem_base::{List, MsgId, OutOfMemory, StatusSet};
use hem_module::{Act, Action, ModAtom, ModValue};
use hem_syntax::{SendTo, Side, Value};
use std::alloc::Global;

/// A child that may be sent to, and the tests under which it is.
#[derive(Debug, Drop)]
pub(crate) struct Target {
    pub(crate) kid: Kid,
    pub(crate) tests: List<ModAtom>,
}

/// A test, where there is one.
fn given(alloc: Global, test: Option<ModAtom>) -> Result<List<ModAtom>, OutOfMemory>
    ensures { IfOk result (λ t. t ≡ given test) }
{
    let mut tests = List::new(alloc);
    match test {
        Some(test) => tests.push(test)?,
        None => (),
    }
    Ok(tests)
}

/// Appends a child under a test, and under another before it where there is one.
fn push_aimed(
    alloc: Global,
    targets: &mut List<Target>,
    kid: &Kid,
    first: Option<ModAtom>,
    test: ModAtom,
) -> Result<(), OutOfMemory>
    ensures { OnOk result (targets.new ≡ targets.old ++ aimed kid.now first test ∷ []) }
{
    let mut tests = given(alloc, first)?;
    tests.push(test)?;
    targets.push(Target {
        kid: Kid::new(kid.place(), kid.object()),
        tests,
    })
}

/// Appends a child under each of these tests, and under another before it where there is one.
fn push_each_aimed(
    alloc: Global,
    targets: &mut List<Target>,
    kid: &Kid,
    first: Option<ModAtom>,
    tests: &[ModAtom],
) -> Result<(), OutOfMemory>
    ensures { OnOk result (targets.new ≡ targets.old ++ map (aimed kid.now first) tests.now) }
{
    for test in tests {
        push_aimed(alloc, targets, kid, first, *test)?;
    }
    Ok(())
}

/// Appends a child under each status of a set that its directory entry may have, and under a test before it.
fn push_kid(
    alloc: Global,
    l: &Places,
    targets: &mut List<Target>,
    site: &Site,
    first: Option<ModAtom>,
    set: StatusSet,
    kid: &Kid,
) -> Result<(), OutOfMemory>
    ensures { OnOk result (targets.new ≡ targets.old ++ map (aimed kid.now first) (map (test_at l.now) (entry_in site.now set kid.now))) }
{
    let mut tests = List::new(alloc);
    push_entry(l, &mut tests, site, set, kid)?;
    push_each_aimed(alloc, targets, kid, first, tests.as_slice())
}

/// Appends a child under each status of a set.
fn push_one(
    alloc: Global,
    l: &Places,
    targets: &mut List<Target>,
    site: &Site,
    set: StatusSet,
    kid: &Kid,
) -> Result<(), OutOfMemory>
    ensures { OnOk result (targets.new ≡ targets.old ++ map (target_at l.now) (map (λ test. (kid.now, test ∷ [])) (entry_in site.now set kid.now))) }
{
    push_kid(alloc, l, targets, site, None, set, kid)
}

/// Appends a child under each status of a set, where a lock isn't held for it.
fn push_unheld(
    alloc: Global,
    l: &Places,
    targets: &mut List<Target>,
    site: &Site,
    side: Side,
    set: StatusSet,
    kid: &Kid,
) -> Result<(), OutOfMemory>
    ensures { OnOk result (targets.new ≡ targets.old ++ map (target_at l.now) (map (λ test. (kid.now, not_held_for site.now side kid.now ∷ test ∷ [])) (entry_in site.now set kid.now))) }
{
    let first = not_held(l, site, side, kid);
    push_kid(alloc, l, targets, site, Some(first), set, kid)
}

/// Appends one child after another under each status of a set.
fn push_each(
    alloc: Global,
    l: &Places,
    targets: &mut List<Target>,
    site: &Site,
    set: StatusSet,
    kids: &[Kid],
) -> Result<(), OutOfMemory>
    ensures { OnOk result (targets.new ≡ targets.old ++ flat_map (λ k. map (target_at l.now) (map (λ test. (k, test ∷ [])) (entry_in site.now set k))) kids.now) }
{
    for kid in kids {
        push_one(alloc, l, targets, site, set, kid)?;
    }
    Ok(())
}

/// Appends one child after another under each status of a set, where a lock isn't held for it.
fn push_each_unheld(
    alloc: Global,
    l: &Places,
    targets: &mut List<Target>,
    site: &Site,
    side: Side,
    set: StatusSet,
    kids: &[Kid],
) -> Result<(), OutOfMemory>
    ensures { OnOk result (targets.new ≡ targets.old ++ flat_map (unheld_by l.now site.now side set) kids.now) }
{
    for kid in kids {
        push_unheld(alloc, l, targets, site, side, set, kid)?;
    }
    Ok(())
}

/// Appends these children under each status of a set.
fn push_kids(
    alloc: Global,
    l: &Places,
    targets: &mut List<Target>,
    site: &Site,
    set: StatusSet,
    kids: &[Kid],
) -> Result<(), OutOfMemory>
    ensures { OnOk result (targets.new ≡ targets.old ++ map (target_at l.now) (flat_map (λ k. map (λ test. (k, test ∷ [])) (entry_in site.now set k)) kids.now)) }
{
    push_each(alloc, l, targets, site, set, kids)
}

/// Appends these children under each status of a set, where a lock isn't held for them.
fn push_unheld_kids(
    alloc: Global,
    l: &Places,
    targets: &mut List<Target>,
    site: &Site,
    side: Side,
    set: StatusSet,
    kids: &[Kid],
) -> Result<(), OutOfMemory>
    ensures { OnOk result (targets.new ≡ targets.old ++ map (target_at l.now) (flat_map (λ k. map (λ test. (k, not_held_for site.now side k ∷ test ∷ [])) (entry_in site.now set k)) kids.now)) }
{
    push_each_unheld(alloc, l, targets, site, side, set, kids)
}

/// These children under each status of a set.
fn of_kids(
    alloc: Global,
    l: &Places,
    site: &Site,
    set: StatusSet,
    kids: &[Kid],
) -> Result<List<Target>, OutOfMemory>
    ensures { IfOk result (λ xs. xs ≡ map (target_at l.now) (flat_map (λ k. map (λ test. (k, test ∷ [])) (entry_in site.now set k)) kids.now)) }
{
    let mut targets = List::new(alloc);
    push_kids(alloc, l, &mut targets, site, set, kids)?;
    Ok(targets)
}

/// These children under each status of a set, where a lock isn't held for them.
fn of_unheld(
    alloc: Global,
    l: &Places,
    site: &Site,
    side: Side,
    set: StatusSet,
    kids: &[Kid],
) -> Result<List<Target>, OutOfMemory>
    ensures { IfOk result (λ xs. xs ≡ map (target_at l.now) (flat_map (λ k. map (λ test. (k, not_held_for site.now side k ∷ test ∷ [])) (entry_in site.now set k)) kids.now)) }
{
    let mut targets = List::new(alloc);
    push_unheld_kids(alloc, l, &mut targets, site, side, set, kids)?;
    Ok(targets)
}

/// The children but the requester that a rule may send to.
fn of_others(
    alloc: Global,
    l: &Places,
    site: &Site,
    who: Asker,
    set: StatusSet,
    id: MsgId,
    value: Value,
) -> Result<List<Target>, OutOfMemory>
    ensures { IfOk result (λ xs. xs ≡ map (target_at l.now) (targets_at site.now (asker_is who) (to.Others set id value))) }
{
    match who {
        Asker::Fixed(me) => {
            let kids = others(alloc, site.kids(), me)?;
            of_kids(alloc, l, site, set, kids.as_slice())
        }
        Asker::Holder(side) => of_unheld(alloc, l, site, side, set, site.kids()),
    }
}

/// The children that a rule may send to.
pub(crate) fn targets(
    alloc: Global,
    l: &Places,
    site: &Site,
    who: Asker,
    send: SendTo,
) -> Result<List<Target>, OutOfMemory>
    ensures { IfOk result (λ xs. xs ≡ map (target_at l.now) (targets_at site.now (asker_is who) send)) }
{
    match send {
        SendTo::Kids(set, _, _) => of_kids(alloc, l, site, set, site.kids()),
        SendTo::Others(set, id, value) => of_others(alloc, l, site, who, set, id, value),
        SendTo::Nothing | SendTo::Me(_, _) | SendTo::Parent(_, _) => Ok(List::new(alloc)),
    }
}

/// Appends a child without a test.
fn push_free(alloc: Global, targets: &mut List<Target>, kid: &Kid) -> Result<(), OutOfMemory>
    ensures { OnOk result (targets.new ≡ targets.old ++ record { kid = kid.now; tests = [] } ∷ []) }
{
    targets.push(Target {
        kid: Kid::new(kid.place(), kid.object()),
        tests: List::new(alloc),
    })
}

/// Appends these children without tests.
fn push_each_free(
    alloc: Global,
    l: &Places,
    targets: &mut List<Target>,
    kids: &[Kid],
) -> Result<(), OutOfMemory>
    ensures { OnOk result (targets.new ≡ targets.old ++ map (target_at l.now) (map (λ k. (k, [])) kids.now)) }
{
    for kid in kids {
        push_free(alloc, targets, kid)?;
    }
    Ok(())
}

/// Appends a child where a lock is held for it.
fn push_held(
    alloc: Global,
    l: &Places,
    targets: &mut List<Target>,
    site: &Site,
    side: Side,
    kid: &Kid,
) -> Result<(), OutOfMemory>
    ensures { OnOk result (targets.new ≡ targets.old ++ target_at l.now (kid.now, held_for site.now side kid.now ∷ []) ∷ []) }
{
    let mut tests = List::new(alloc);
    tests.push(held(l, site, side, kid))?;
    targets.push(Target {
        kid: Kid::new(kid.place(), kid.object()),
        tests,
    })
}

/// Appends these children, each where a lock is held for it.
fn push_each_held(
    alloc: Global,
    l: &Places,
    targets: &mut List<Target>,
    site: &Site,
    side: Side,
    kids: &[Kid],
) -> Result<(), OutOfMemory>
    ensures { OnOk result (targets.new ≡ targets.old ++ map (target_at l.now) (map (λ k. (k, held_for site.now side k ∷ [])) kids.now)) }
{
    for kid in kids {
        push_held(alloc, l, targets, site, side, kid)?;
    }
    Ok(())
}

/// The children that may be the requester.
pub(crate) fn requesters(
    alloc: Global,
    l: &Places,
    site: &Site,
    who: Asker,
) -> Result<List<Target>, OutOfMemory>
    ensures { IfOk result (λ xs. xs ≡ map (target_at l.now) (requesters site.now (asker_is who))) }
{
    let mut targets = List::new(alloc);
    match who {
        Asker::Fixed(me) => {
            let kids = named(alloc, site.kids(), me)?;
            push_each_free(alloc, l, &mut targets, kids.as_slice())?;
        }
        Asker::Holder(side) => push_each_held(alloc, l, &mut targets, site, side, site.kids())?,
    }
    Ok(targets)
}

/// Appends that a child is awaited where it is sent to.
fn push_await(
    alloc: Global,
    l: &Places,
    actions: &mut List<Action>,
    target: &Target,
) -> Result<(), OutOfMemory>
    ensures { OnOk result (actions.new ≡ actions.old ++ awaited_by l.now target.now ∷ []) }
{
    let cond = copied(alloc, target.tests.as_slice())?;
    let register = l.reg(Reg::Awaits(target.kid.object()));
    actions.push(Action {
        cond,
        act: Act::Set(register, ModValue::Number(1)),
    })
}

/// Appends that the children are awaited that are sent to.
pub(crate) fn push_awaits(
    alloc: Global,
    l: &Places,
    actions: &mut List<Action>,
    targets: &[Target],
) -> Result<(), OutOfMemory>
    ensures { OnOk result (actions.new ≡ actions.old ++ map (awaited_by l.now) targets.now) }
{
    for target in targets {
        push_await(alloc, l, actions, target)?;
    }
    Ok(())
}

/// Appends what is sent to a child, once for each amount.
fn push_sent(
    alloc: Global,
    l: &Places,
    actions: &mut List<Action>,
    id: MsgId,
    amounts: &[Amount],
    target: &Target,
) -> Result<(), OutOfMemory>
    ensures { OnOk result (actions.new ≡ actions.old ++ sent_to l.now id amounts.now target.now) }
{
    let queue = l.queue(Queue::Down(target.kid.object()));
    let deed = Deed::Send(queue, id);
    push_amounts(alloc, actions, target.tests.as_slice(), deed, amounts)
}

/// Appends what is sent to these children.
pub(crate) fn push_sends(
    alloc: Global,
    l: &Places,
    actions: &mut List<Action>,
    id: MsgId,
    amounts: &[Amount],
    targets: &[Target],
) -> Result<(), OutOfMemory>
    ensures { OnOk result (actions.new ≡ actions.old ++ flat_map (sent_to l.now id amounts.now) targets.now) }
{
    for target in targets {
        push_sent(alloc, l, actions, id, amounts, target)?;
    }
    Ok(())
}
