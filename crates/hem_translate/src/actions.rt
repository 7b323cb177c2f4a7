//! The actions of a rule.

ghost use Rattle.std.specs.Prelude.{◌≡◌, ◌++◌, ◌∷◌, [], ℕ, map, IfOk, OnOk};
ghost use Rattle.std.specs.List.{flat_map};
ghost use Rattle.hem_syntax.specs.declared.rule.Side.TheVariants.{Up, Down};
ghost use Rattle.hem_module.specs.Module.{equals, number, put, deq};
ghost use Rattle.hem_syntax.specs.declared.rule.Assign.TheVariants as assign;
ghost use Rattle.hem_emit.specs.Names.{entry, awaits, lock};
ghost use Rattle.hem_emit.specs.Place.{kids_at, asker_of};
ghost use Rattle.hem_translate.specs.Places.{part_of, reg_of, queue_of};
ghost use Rattle.hem_translate.specs.Amounts.{counted_at, acted};
ghost use Rattle.hem_translate.specs.Targets.{target_at};
ghost use Rattle.hem_translate.specs.Askers.{asker_is};
ghost use Rattle.hem_emit.specs.Clauses.{held_for, responses_of};
ghost use Rattle.hem_emit.specs.Actions.{always, where_holds, is_awaited, take_actions, amounts_of, with_value, set_own, set_targets, set_me, set_actions, free_actions, targets_at, lock_actions, send_actions, actions_of};
ghost use Rattle.hem_translate.specs.ByPlace.{test_at, deed_at, action_at};

use crate::amounts::{Deed, amounts, push_amounts};
use crate::clauses::{Asker, held, is, requests, works_for};
use crate::locks::{push_free, push_lock};
use crate::sends::push_send;
use crate::site::{Kid, Places, Site, named};
use crate::tables::{Queue, Reg};
use crate::targets::{Target, targets};
use hem_base::{List, OutOfMemory, Status8};
use hem_module::{Act, Action, ModAtom, ModValue};
use hem_syntax::{Assign, Protocol, Rule, Side, Take, Value};
use std::alloc::Global;

/// Appends an act that is done whatever the state is.
pub(crate) fn push_always(
    alloc: Global,
    actions: &mut List<Action>,
    act: Act,
) -> Result<(), OutOfMemory>
    ensures { OnOk result (actions.new ≡ actions.old ++ record { cond = []; act = act } ∷ []) }
{
    actions.push(Action {
        cond: List::new(alloc),
        act,
    })
}

/// Appends an act that is done where one test holds.
fn push_where(
    alloc: Global,
    actions: &mut List<Action>,
    test: ModAtom,
    act: Act,
) -> Result<(), OutOfMemory>
    ensures { OnOk result (actions.new ≡ actions.old ++ record { cond = test ∷ []; act = act } ∷ []) }
{
    let mut cond = List::new(alloc);
    cond.push(test)?;
    actions.push(Action { cond, act })
}

/// That a queue loses its head.
fn lose(l: &Places, queue: Queue) -> Act
    ensures { result ≡ deed_at l.now (deq (queue_of queue)) }
{
    Act::Deq(l.queue(queue))
}

/// That a register is written with a number.
pub(crate) fn write(l: &Places, reg: Reg, value: u64) -> Act
    ensures { result ≡ deed_at l.now (put (reg_of reg) (number value)) }
{
    Act::Set(l.reg(reg), ModValue::Number(value))
}

/// Appends for each child that the head of its responses is lost where it is awaited.
fn push_lost_responses(
    alloc: Global,
    l: &Places,
    actions: &mut List<Action>,
    kids: &[Kid],
) -> Result<(), OutOfMemory>
    ensures { OnOk result (actions.new ≡ actions.old ++ map (action_at l.now) (map (λ k. where_holds (is_awaited k ∷ []) (deq (responses_of k))) kids.now)) }
{
    for kid in kids {
        push_where(
            alloc,
            actions,
            is(l, Reg::Awaits(kid.object()), 1),
            lose(l, Queue::UpResponses(kid.object())),
        )?;
    }
    Ok(())
}

/// Appends that the heads are lost that a rule takes.
fn push_taken(
    alloc: Global,
    l: &Places,
    actions: &mut List<Action>,
    site: &Site,
    me: Option<u8>,
    take: Take,
) -> Result<(), OutOfMemory>
    ensures { OnOk result (actions.new ≡ actions.old ++ map (action_at l.now) (take_actions site.now me take)) }
{
    match take {
        Take::Me(_) => push_always(alloc, actions, lose(l, requests(site, me))),
        Take::Parent(_) => push_always(alloc, actions, lose(l, Queue::Down(site.object()))),
        Take::Kids(_) => push_lost_responses(alloc, l, actions, site.kids()),
        Take::Nothing => Ok(()),
    }
}

/// Appends that the entry of each of these children is set.
fn push_set(
    alloc: Global,
    l: &Places,
    actions: &mut List<Action>,
    status: Status8,
    kids: &[Kid],
) -> Result<(), OutOfMemory>
    ensures { OnOk result (actions.new ≡ actions.old ++ map (action_at l.now) (map (λ k. always (put (entry k.1) (number status.0))) kids.now)) }
{
    for kid in kids {
        push_always(
            alloc,
            actions,
            write(l, Reg::Entry(kid.object()), u64::from(status.0)),
        )?;
    }
    Ok(())
}

/// Appends that the entry of each child is set where it is awaited.
fn push_set_awaited(
    alloc: Global,
    l: &Places,
    actions: &mut List<Action>,
    status: Status8,
    kids: &[Kid],
) -> Result<(), OutOfMemory>
    ensures { OnOk result (actions.new ≡ actions.old ++ map (action_at l.now) (map (λ k. where_holds (is_awaited k ∷ []) (put (entry k.1) (number status.0))) kids.now)) }
{
    for kid in kids {
        push_where(
            alloc,
            actions,
            is(l, Reg::Awaits(kid.object()), 1),
            write(l, Reg::Entry(kid.object()), u64::from(status.0)),
        )?;
    }
    Ok(())
}

/// Appends that the entry of each child is set where a lock is held for it.
fn push_set_held(
    alloc: Global,
    l: &Places,
    actions: &mut List<Action>,
    site: &Site,
    side: Side,
    status: Status8,
    kids: &[Kid],
) -> Result<(), OutOfMemory>
    ensures { OnOk result (actions.new ≡ actions.old ++ map (action_at l.now) (map (λ k. where_holds (held_for site.now side k ∷ []) (put (entry k.1) (number status.0))) kids.now)) }
{
    for kid in kids {
        push_where(
            alloc,
            actions,
            held(l, site, side, kid),
            write(l, Reg::Entry(kid.object()), u64::from(status.0)),
        )?;
    }
    Ok(())
}

/// Appends a set of the awaited children's entries.
fn push_targets(
    alloc: Global,
    l: &Places,
    actions: &mut List<Action>,
    site: &Site,
    assign: Assign,
) -> Result<(), OutOfMemory>
    ensures { OnOk result (actions.new ≡ actions.old ++ map (action_at l.now) (set_targets site.now assign)) }
{
    match assign {
        Assign::Targets(status) => push_set_awaited(alloc, l, actions, status, site.kids()),
        Assign::Field(_, _) | Assign::Val(_) | Assign::Me(_) => Ok(()),
    }
}

/// Appends a set of the requester's entry.
fn push_me(
    alloc: Global,
    l: &Places,
    actions: &mut List<Action>,
    site: &Site,
    who: Asker,
    status: Status8,
) -> Result<(), OutOfMemory>
    ensures { OnOk result (actions.new ≡ actions.old ++ map (action_at l.now) (set_me site.now (asker_is who) (assign.Me status))) }
{
    match who {
        Asker::Fixed(me) => {
            let kids = named(alloc, site.kids(), me)?;
            push_set(alloc, l, actions, status, kids.as_slice())
        }
        Asker::Holder(side) => push_set_held(alloc, l, actions, site, side, status, site.kids()),
    }
}

/// Appends that no child is awaited.
pub(crate) fn push_no_awaited(
    alloc: Global,
    l: &Places,
    actions: &mut List<Action>,
    kids: &[Kid],
) -> Result<(), OutOfMemory>
    ensures { OnOk result (actions.new ≡ actions.old ++ map (action_at l.now) (map (λ k. always (put (awaits k.1) (number 0))) kids.now)) }
{
    for kid in kids {
        push_always(alloc, actions, write(l, Reg::Awaits(kid.object()), 0))?;
    }
    Ok(())
}

/// Appends a deed with each amount that a value may mean.
pub(crate) fn push_counted(
    alloc: Global,
    l: &Places,
    actions: &mut List<Action>,
    site: &Site,
    me: Option<u8>,
    take: Take,
    value: Value,
    deed: Deed,
) -> Result<(), OutOfMemory>
    ensures { OnOk result (actions.new ≡ actions.old ++ map (acted [] deed) (map (counted_at l.now) (amounts_of site.now me take value))) }
{
    let amounts = amounts(alloc, l, site, me, take, value)?;
    push_amounts(alloc, actions, &[], deed, amounts.as_slice())
}

/// Appends that a register is written with a value.
pub(crate) fn push_value(
    alloc: Global,
    l: &Places,
    actions: &mut List<Action>,
    site: &Site,
    me: Option<u8>,
    take: Take,
    value: Value,
    reg: Reg,
) -> Result<(), OutOfMemory>
    ensures { OnOk result (actions.new ≡ actions.old ++ map (action_at l.now) (with_value site.now me take value [] (put (reg_of reg)))) }
{
    let place = l.reg(reg);
    push_counted(alloc, l, actions, site, me, take, value, Deed::Put(place))
}

/// Appends a set of a field or of the value.
fn push_own(
    alloc: Global,
    l: &Places,
    actions: &mut List<Action>,
    site: &Site,
    me: Option<u8>,
    take: Take,
    assign: Assign,
) -> Result<(), OutOfMemory>
    ensures { OnOk result (actions.new ≡ actions.old ++ map (action_at l.now) (set_own site.now me take assign)) }
{
    match assign {
        Assign::Field(place, status) => {
            let field = Reg::Field(place, site.object());
            push_always(alloc, actions, write(l, field, u64::from(status.0)))
        }
        Assign::Val(value) => {
            let own = Reg::Val(site.object());
            push_value(alloc, l, actions, site, me, take, value, own)
        }
        Assign::Me(_) | Assign::Targets(_) => Ok(()),
    }
}

/// Appends a set of the requester's entry, if it is one.
fn push_requester(
    alloc: Global,
    l: &Places,
    actions: &mut List<Action>,
    site: &Site,
    who: Asker,
    assign: Assign,
) -> Result<(), OutOfMemory>
    ensures { OnOk result (actions.new ≡ actions.old ++ map (action_at l.now) (set_me site.now (asker_is who) assign)) }
{
    match assign {
        Assign::Me(status) => push_me(alloc, l, actions, site, who, status),
        Assign::Field(_, _) | Assign::Val(_) | Assign::Targets(_) => Ok(()),
    }
}

/// Appends one set of a field or of the value after another.
fn push_each_own(
    alloc: Global,
    l: &Places,
    actions: &mut List<Action>,
    site: &Site,
    me: Option<u8>,
    take: Take,
    sets: &[Assign],
) -> Result<(), OutOfMemory>
    ensures { OnOk result (actions.new ≡ actions.old ++ flat_map (λ s. map (action_at l.now) (set_own site.now me take s)) sets.now) }
{
    for assign in sets {
        push_own(alloc, l, actions, site, me, take, *assign)?;
    }
    Ok(())
}

/// Appends one set of the awaited children's entries after another.
fn push_each_targets(
    alloc: Global,
    l: &Places,
    actions: &mut List<Action>,
    site: &Site,
    sets: &[Assign],
) -> Result<(), OutOfMemory>
    ensures { OnOk result (actions.new ≡ actions.old ++ flat_map (λ s. map (action_at l.now) (set_targets site.now s)) sets.now) }
{
    for assign in sets {
        push_targets(alloc, l, actions, site, *assign)?;
    }
    Ok(())
}

/// Appends the sets of fields and of the value.
fn push_owns(
    alloc: Global,
    l: &Places,
    actions: &mut List<Action>,
    site: &Site,
    me: Option<u8>,
    take: Take,
    sets: &[Assign],
) -> Result<(), OutOfMemory>
    ensures { OnOk result (actions.new ≡ actions.old ++ map (action_at l.now) (flat_map (set_own site.now me take) sets.now)) }
{
    push_each_own(alloc, l, actions, site, me, take, sets)
}

/// Appends the sets of the awaited children's entries.
fn push_all_targets(
    alloc: Global,
    l: &Places,
    actions: &mut List<Action>,
    site: &Site,
    sets: &[Assign],
) -> Result<(), OutOfMemory>
    ensures { OnOk result (actions.new ≡ actions.old ++ map (action_at l.now) (flat_map (set_targets site.now) sets.now)) }
{
    push_each_targets(alloc, l, actions, site, sets)
}

/// Appends one set of the requester's entry after another.
fn push_each_requester(
    alloc: Global,
    l: &Places,
    actions: &mut List<Action>,
    site: &Site,
    who: Asker,
    sets: &[Assign],
) -> Result<(), OutOfMemory>
    ensures { OnOk result (actions.new ≡ actions.old ++ flat_map (λ s. map (action_at l.now) (set_me site.now (asker_is who) s)) sets.now) }
{
    for assign in sets {
        push_requester(alloc, l, actions, site, who, *assign)?;
    }
    Ok(())
}

/// Appends the sets of the requester's entry.
fn push_requesters(
    alloc: Global,
    l: &Places,
    actions: &mut List<Action>,
    site: &Site,
    who: Asker,
    sets: &[Assign],
) -> Result<(), OutOfMemory>
    ensures { OnOk result (actions.new ≡ actions.old ++ map (action_at l.now) (flat_map (set_me site.now (asker_is who)) sets.now)) }
{
    push_each_requester(alloc, l, actions, site, who, sets)
}

/// Appends what a rule sets, part after part.
fn push_set_parts(
    alloc: Global,
    l: &Places,
    actions: &mut List<Action>,
    site: &Site,
    me: Option<u8>,
    rule: &Rule,
) -> Result<(), OutOfMemory>
    ensures { OnOk result (actions.new ≡ actions.old ++ (map (action_at l.now) (flat_map (set_own site.now me rule.now.take) rule.now.sets) ++ map (action_at l.now) (flat_map (set_targets site.now) rule.now.sets) ++ map (action_at l.now) (flat_map (set_me site.now (asker_of rule.now.take me)) rule.now.sets))) }
{
    let who = works_for(rule.take, me);
    let sets = rule.sets.as_slice();
    push_owns(alloc, l, actions, site, me, rule.take, sets)?;
    push_all_targets(alloc, l, actions, site, sets)?;
    push_requesters(alloc, l, actions, site, who, sets)
}

/// Appends what a rule sets: fields and value in text order, then the awaited children's entries, then the requester's.
fn push_sets(
    alloc: Global,
    l: &Places,
    actions: &mut List<Action>,
    site: &Site,
    me: Option<u8>,
    rule: &Rule,
) -> Result<(), OutOfMemory>
    ensures { OnOk result (actions.new ≡ actions.old ++ map (action_at l.now) (set_actions site.now me rule.now)) }
{
    push_set_parts(alloc, l, actions, site, me, rule)
}

/// Appends the actions of a rule, part after part.
fn push_parts(
    alloc: Global,
    l: &Places,
    actions: &mut List<Action>,
    p: &Protocol,
    site: &Site,
    me: Option<u8>,
    rule: &Rule,
    targets: &[Target],
) -> Result<(), OutOfMemory>
    requires { targets.now ≡ map (target_at l.now) (targets_at site.now (asker_of rule.now.take me) rule.now.send) }
    ensures { OnOk result (actions.new ≡ actions.old ++ (map (action_at l.now) (take_actions site.now me rule.now.take) ++ map (action_at l.now) (set_actions site.now me rule.now) ++ map (action_at l.now) (free_actions site.now rule.now.free) ++ map (action_at l.now) (lock_actions p.now site.now me rule.now rule.now.lock) ++ map (action_at l.now) (send_actions p.now site.now me rule.now.take rule.now.send))) }
{
    push_taken(alloc, l, actions, site, me, rule.take)?;
    push_sets(alloc, l, actions, site, me, rule)?;
    push_free(alloc, l, actions, site, rule.free)?;
    push_lock(alloc, l, actions, p, site, me, rule, targets)?;
    push_send(
        alloc, l, actions, p, site, me, rule.take, rule.send, targets,
    )
}

/// Appends the actions of a rule.
fn push_actions(
    alloc: Global,
    l: &Places,
    actions: &mut List<Action>,
    p: &Protocol,
    site: &Site,
    me: Option<u8>,
    rule: &Rule,
) -> Result<(), OutOfMemory>
    ensures { OnOk result (actions.new ≡ actions.old ++ (map (action_at l.now) (take_actions site.now me rule.now.take) ++ map (action_at l.now) (set_actions site.now me rule.now) ++ map (action_at l.now) (free_actions site.now rule.now.free) ++ map (action_at l.now) (lock_actions p.now site.now me rule.now rule.now.lock) ++ map (action_at l.now) (send_actions p.now site.now me rule.now.take rule.now.send))) }
{
    let who = works_for(rule.take, me);
    let targets = targets(alloc, l, site, who, rule.send)?;
    push_parts(alloc, l, actions, p, site, me, rule, targets.as_slice())
}

/// The actions of a rule.
#[tactic(auto, using(crate::proofs::Statuses::map_five))]
pub(crate) fn actions(
    alloc: Global,
    l: &Places,
    p: &Protocol,
    site: &Site,
    me: Option<u8>,
    rule: &Rule,
) -> Result<List<Action>, OutOfMemory>
    ensures { IfOk result (λ a. a ≡ map (action_at l.now) (actions_of p.now site.now me rule.now)) }
{
    let mut actions = List::new(alloc);
    push_actions(alloc, l, &mut actions, p, site, me, rule)?;
    Ok(actions)
}
