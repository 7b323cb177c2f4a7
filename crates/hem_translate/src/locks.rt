//! The locks that a rule frees and takes.

ghost use Rattle.std.specs.Prelude.{◌≡◌, ◌++◌, ◌∷◌, [], cond, map, OnOk, Some, unwrap_or, slice_index_or};
ghost use Rattle.std.specs.Option.{option_map_or};
ghost use Rattle.hem_syntax.specs.declared.rule.Side.TheVariants.{Up, Down};
ghost use Rattle.hem_syntax.specs.declared.rule.Value.TheVariants as zero;
ghost use Rattle.hem_syntax.specs.Protocol.{has_class, is_request};
ghost use Rattle.hem_template.specs.Template.{value_sent};
ghost use Rattle.hem_module.specs.Module.{number, read, put};
ghost use Rattle.hem_emit.specs.Names.{lock, asked, kept, awaits};
ghost use Rattle.hem_emit.specs.Place.{kids_at, origin_at, kid_origin, asker_of};
ghost use Rattle.hem_emit.specs.Actions.{always, with_value, free_lock, free_actions, id_sent, origin_amount, id_in_hand, value_in_hand, await_actions, targets_at, lock_actions};
ghost use Rattle.hem_translate.specs.Askers.{asker_is};
ghost use Rattle.hem_translate.specs.Places.{part_of, reg_of};
ghost use Rattle.hem_translate.specs.Targets.{target_at, awaits_by, begun_by};
ghost use Rattle.hem_translate.specs.ByPlace.{deed_at, amount_at, action_at};

use crate::actions::{push_always, push_no_awaited, push_value, write};
use crate::clauses::{Asker, asked, origin, works_for};
use crate::site::{Places, Site};
use crate::tables::{Part, Reg};
use crate::targets::{Target, push_awaits};
use hem_base::{List, MsgId, OutOfMemory};
use hem_module::{Act, Action, ModValue};
use hem_syntax::{Class, Origin, Protocol, Rule, SendTo, Side, Take, Value};
use std::alloc::Global;

/// The register of the value that a lock keeps.
fn kept(site: &Site, side: Side) -> Reg
    ensures { reg_of result ≡ lock side kept site.now.object }
{
    match side {
        Side::Up => Reg::Up(Part::Kept, site.object()),
        Side::Down => Reg::Down(Part::Kept, site.object()),
    }
}

/// Appends that a lock is freed.
fn push_free_lock(
    alloc: Global,
    l: &Places,
    actions: &mut List<Action>,
    site: &Site,
    side: Side,
) -> Result<(), OutOfMemory>
    ensures { OnOk result (actions.new ≡ actions.old ++ map (action_at l.now) (free_lock site.now side)) }
{
    push_always(alloc, actions, write(l, origin(site, side), 0))?;
    push_always(alloc, actions, write(l, asked(site, side), 0))?;
    push_always(alloc, actions, write(l, kept(site, side), 0))
}

/// Appends that the downlock is freed, and that no child is awaited.
fn push_free_both(
    alloc: Global,
    l: &Places,
    actions: &mut List<Action>,
    site: &Site,
) -> Result<(), OutOfMemory>
    ensures { OnOk result (actions.new ≡ actions.old ++ (map (action_at l.now) (free_lock site.now Down) ++ map (action_at l.now) (map (λ k. always (put (awaits k.1) (number 0))) (kids_at site.now)))) }
{
    push_free_lock(alloc, l, actions, site, Side::Down)?;
    push_no_awaited(alloc, l, actions, site.kids())
}

/// Appends that the downlock is freed.
fn push_free_down(
    alloc: Global,
    l: &Places,
    actions: &mut List<Action>,
    site: &Site,
) -> Result<(), OutOfMemory>
    ensures { OnOk result (actions.new ≡ actions.old ++ map (action_at l.now) (free_actions site.now (Some Down))) }
{
    push_free_both(alloc, l, actions, site)
}

/// Appends that the lock is freed that a rule frees.
pub(crate) fn push_free(
    alloc: Global,
    l: &Places,
    actions: &mut List<Action>,
    site: &Site,
    free: Option<Side>,
) -> Result<(), OutOfMemory>
    ensures { OnOk result (actions.new ≡ actions.old ++ map (action_at l.now) (free_actions site.now free)) }
{
    match free {
        None => Ok(()),
        Some(Side::Up) => push_free_lock(alloc, l, actions, site, Side::Up),
        Some(Side::Down) => push_free_down(alloc, l, actions, site),
    }
}

/// Whether a message id is one of requests.
fn is_request_id(p: &Protocol, id: MsgId) -> bool
    ensures { result ≡ has_class p.now id is_request }
{
    matches!(
        p.class(id),
        Some(Class::ExtReq | Class::UpReq | Class::DownReq)
    )
}

/// The id that a rule sends.
fn id_sent(send: SendTo) -> Option<MsgId>
    ensures { result ≡ id_sent send }
{
    match send {
        SendTo::Nothing => None,
        SendTo::Me(id, _)
        | SendTo::Parent(id, _)
        | SendTo::Kids(_, id, _)
        | SendTo::Others(_, id, _) => Some(id),
    }
}

/// The id that a rule sends as a number; 0 where it sends nothing.
fn number_sent(send: SendTo) -> u64
    ensures { result ≡ option_map_or (λ id. id.0) (id_sent send) 0 }
{
    match id_sent(send) {
        Some(id) => u64::from(id.0),
        None => 0,
    }
}

/// The value that a rule sends; zero where it sends nothing.
fn value_sent(send: SendTo) -> Value
    ensures { result ≡ unwrap_or (value_sent send) zero.Zero }
{
    match send {
        SendTo::Nothing => Value::Zero,
        SendTo::Me(_, value)
        | SendTo::Parent(_, value)
        | SendTo::Kids(_, _, value)
        | SendTo::Others(_, _, value) => value,
    }
}

/// The id of the request of which the parent's message tells: of the message where it is a request, else of the uplock.
fn parent_id(l: &Places, p: &Protocol, site: &Site, id: MsgId) -> ModValue
    ensures { result ≡ amount_at l.now (cond (has_class p.now id is_request) (number id.0) (read (lock Up asked site.now.object))) }
{
    if is_request_id(p, id) {
        ModValue::Number(u64::from(id.0))
    } else {
        ModValue::Reg(l.reg(Reg::Up(Part::Asked, site.object())))
    }
}

/// The id of the request that a lock of a rule keeps.
fn id_in_hand(l: &Places, p: &Protocol, site: &Site, take: Take, send: SendTo) -> ModValue
    ensures { result ≡ amount_at l.now (id_in_hand p.now site.now take send) }
{
    match take {
        Take::Me(id) => ModValue::Number(u64::from(id.0)),
        Take::Parent(id) => parent_id(l, p, site, id),
        Take::Kids(_) => ModValue::Reg(l.reg(Reg::Down(Part::Asked, site.object()))),
        Take::Nothing => ModValue::Number(number_sent(send)),
    }
}

/// The value of the request that a lock of a rule keeps.
fn value_in_hand(p: &Protocol, take: Take, send: SendTo) -> Value
    ensures { result ≡ value_in_hand p.now take send }
{
    match take {
        Take::Me(_) => Value::Msg,
        Take::Parent(id) => {
            if is_request_id(p, id) {
                Value::Msg
            } else {
                Value::Kept
            }
        }
        Take::Kids(_) => Value::Kept,
        Take::Nothing => value_sent(send),
    }
}

/// The origin that is a child.
fn child_origin(site: &Site, place: u8) -> u64
    ensures { result ≡ kid_origin (slice_index_or site.now.kids place 0) }
{
    3 + u64::from(site.child(place))
}

/// The origin of a lock that a rule takes.
fn lock_origin(l: &Places, site: &Site, who: Asker, by: Origin) -> ModValue
    ensures { result ≡ amount_at l.now (origin_amount site.now (asker_is who) by) }
{
    match by {
        Origin::Own => ModValue::Number(1),
        Origin::Parent => ModValue::Number(2),
        Origin::Child => match who {
            Asker::Fixed(None) => ModValue::Number(3),
            Asker::Fixed(Some(place)) => ModValue::Number(child_origin(site, place)),
            Asker::Holder(side) => ModValue::Reg(l.reg(origin(site, side))),
        },
    }
}

/// Appends that a lock awaits the children that are sent to.
fn push_awaited(
    alloc: Global,
    l: &Places,
    actions: &mut List<Action>,
    side: Side,
    targets: &[Target],
) -> Result<(), OutOfMemory>
    ensures { OnOk result (actions.new ≡ actions.old ++ awaits_by l.now side targets.now) }
{
    match side {
        Side::Up => Ok(()),
        Side::Down => push_awaits(alloc, l, actions, targets),
    }
}

/// Appends a lock's origin and the id of its request.
fn push_begun(
    alloc: Global,
    l: &Places,
    actions: &mut List<Action>,
    side: Side,
    site: &Site,
    by: ModValue,
    id: ModValue,
) -> Result<(), OutOfMemory>
    ensures { OnOk result (actions.new ≡ actions.old ++ begun_by l.now site.now side by id) }
{
    let first = l.reg(origin(site, side));
    let second = l.reg(asked(site, side));
    push_always(alloc, actions, Act::Set(first, by))?;
    push_always(alloc, actions, Act::Set(second, id))
}

/// Appends the lock that a rule takes, part after part.
fn push_parts(
    alloc: Global,
    l: &Places,
    actions: &mut List<Action>,
    p: &Protocol,
    site: &Site,
    me: Option<u8>,
    rule: &Rule,
    side: Side,
    by: Origin,
    targets: &[Target],
) -> Result<(), OutOfMemory>
    ensures { OnOk result (actions.new ≡ actions.old ++ (begun_by l.now site.now side (amount_at l.now (origin_amount site.now (asker_of rule.now.take me) by)) (amount_at l.now (id_in_hand p.now site.now rule.now.take rule.now.send)) ++ map (action_at l.now) (with_value site.now me rule.now.take (value_in_hand p.now rule.now.take rule.now.send) [] (put (lock side kept site.now.object))) ++ awaits_by l.now side targets.now)) }
{
    let by = lock_origin(l, site, works_for(rule.take, me), by);
    let id = id_in_hand(l, p, site, rule.take, rule.send);
    let value = value_in_hand(p, rule.take, rule.send);
    push_begun(alloc, l, actions, side, site, by, id)?;
    push_value(
        alloc,
        l,
        actions,
        site,
        me,
        rule.take,
        value,
        kept(site, side),
    )?;
    push_awaited(alloc, l, actions, side, targets)
}

/// Appends the lock that a rule takes.
fn push_taken(
    alloc: Global,
    l: &Places,
    actions: &mut List<Action>,
    p: &Protocol,
    site: &Site,
    me: Option<u8>,
    rule: &Rule,
    side: Side,
    by: Origin,
    targets: &[Target],
) -> Result<(), OutOfMemory>
    requires { targets.now ≡ map (target_at l.now) (targets_at site.now (asker_of rule.now.take me) rule.now.send) }
    ensures { OnOk result (actions.new ≡ actions.old ++ map (action_at l.now) (lock_actions p.now site.now me rule.now (Some (side, by)))) }
{
    push_parts(alloc, l, actions, p, site, me, rule, side, by, targets)
}

/// Appends the lock that a rule takes, if it takes one.
pub(crate) fn push_lock(
    alloc: Global,
    l: &Places,
    actions: &mut List<Action>,
    p: &Protocol,
    site: &Site,
    me: Option<u8>,
    rule: &Rule,
    targets: &[Target],
) -> Result<(), OutOfMemory>
    requires { targets.now ≡ map (target_at l.now) (targets_at site.now (asker_of rule.now.take me) rule.now.send) }
    ensures { OnOk result (actions.new ≡ actions.old ++ map (action_at l.now) (lock_actions p.now site.now me rule.now rule.now.lock)) }
{
    match rule.lock {
        None => Ok(()),
        Some((side, by)) => { push_taken(alloc, l, actions, p, site, me, rule, side, by, targets) }
    }
}
