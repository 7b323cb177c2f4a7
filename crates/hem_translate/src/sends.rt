//! What a rule sends.

ghost use Rattle.std.specs.Prelude.{◌≡◌, ◌++◌, ◌∷◌, [], cond, map, OnOk};
ghost use Rattle.std.specs.List.{flat_map};
ghost use Rattle.hem_base.specs.declared.ids.Kind.TheVariants as level;
ghost use Rattle.hem_syntax.specs.declared.rule.SendTo.TheVariants as to;
ghost use Rattle.hem_syntax.specs.Protocol.{has_class, is_up_rsp};
ghost use Rattle.hem_system.specs.declared.lane.Lane.TheVariants.{UpRequests, UpResponses};
ghost use Rattle.hem_module.specs.Module.{enq};
ghost use Rattle.hem_emit.specs.Place.{asker_of};
ghost use Rattle.hem_emit.specs.Actions.{with_value, amounts_of, targets_at, requester_queues, child_queue, parent_lane, send_actions};
ghost use Rattle.hem_translate.specs.Places.{queue_of};
ghost use Rattle.hem_translate.specs.Amounts.{counted_at};
ghost use Rattle.hem_translate.specs.Targets.{target_at, requesters, sent_to};
ghost use Rattle.hem_translate.specs.ByPlace.{queue_at, action_at};

use crate::actions::push_counted;
use crate::amounts::{Deed, amounts};
use crate::clauses::works_for;
use crate::site::{Places, Site};
use crate::tables::Queue;
use crate::targets::{Target, push_sends, requesters};
use hem_base::{Kind, List, MsgId, OutOfMemory};
use hem_module::Action;
use hem_syntax::{Class, Protocol, SendTo, Take, Value};
use std::alloc::Global;

/// Whether a message id is one of responses to a parent.
fn is_up_response(p: &Protocol, id: MsgId) -> bool
    ensures { result ≡ has_class p.now id is_up_rsp }
{
    matches!(p.class(id), Some(Class::UpRsp))
}

/// A list of messages to a parent.
fn list_to_parent(o: u32, response: bool) -> Queue
    ensures { queue_of result ≡ record { object = o; lane = cond response UpResponses UpRequests } }
{
    if response {
        Queue::UpResponses(o)
    } else {
        Queue::UpRequests(o)
    }
}

/// The list of an object's messages of an id to its parent.
fn parent_list(p: &Protocol, site: &Site, id: MsgId) -> Queue
    ensures { queue_of result ≡ parent_lane p.now site.now id }
{
    list_to_parent(site.object(), is_up_response(p, id))
}

/// Appends what is sent to the parent.
fn push_to_parent(
    alloc: Global,
    l: &Places,
    actions: &mut List<Action>,
    p: &Protocol,
    site: &Site,
    me: Option<u8>,
    take: Take,
    id: MsgId,
    value: Value,
) -> Result<(), OutOfMemory>
    ensures { OnOk result (actions.new ≡ actions.old ++ map (action_at l.now) (with_value site.now me take value [] (enq (parent_lane p.now site.now id) id.0))) }
{
    let lane = l.queue(parent_list(p, site, id));
    push_counted(
        alloc,
        l,
        actions,
        site,
        me,
        take,
        value,
        Deed::Send(lane, id),
    )
}

/// Appends what is sent to the processor.
fn push_to_processor(
    alloc: Global,
    l: &Places,
    actions: &mut List<Action>,
    site: &Site,
    me: Option<u8>,
    take: Take,
    id: MsgId,
    value: Value,
) -> Result<(), OutOfMemory>
    ensures { OnOk result (actions.new ≡ actions.old ++ map (action_at l.now) (flat_map (λ w. with_value site.now me take value w.0 (enq w.1 id.0)) (requester_queues level.Leaf site.now (asker_of take me)))) }
{
    let lane = l.queue(Queue::Answers(site.object()));
    push_counted(
        alloc,
        l,
        actions,
        site,
        me,
        take,
        value,
        Deed::Send(lane, id),
    )
}

/// Appends what is sent to these children.
fn push_to_kids(
    alloc: Global,
    l: &Places,
    actions: &mut List<Action>,
    site: &Site,
    me: Option<u8>,
    take: Take,
    id: MsgId,
    value: Value,
    targets: &[Target],
) -> Result<(), OutOfMemory>
    ensures { OnOk result (actions.new ≡ actions.old ++ flat_map (sent_to l.now id (map (counted_at l.now) (amounts_of site.now me take value))) targets.now) }
{
    let amounts = amounts(alloc, l, site, me, take, value)?;
    push_sends(alloc, l, actions, id, amounts.as_slice(), targets)
}

/// Appends what is sent to a child that is the requester.
fn push_to_requesters(
    alloc: Global,
    l: &Places,
    actions: &mut List<Action>,
    site: &Site,
    me: Option<u8>,
    take: Take,
    id: MsgId,
    value: Value,
) -> Result<(), OutOfMemory>
    ensures { OnOk result (actions.new ≡ actions.old ++ flat_map (sent_to l.now id (map (counted_at l.now) (amounts_of site.now me take value))) (map (target_at l.now) (requesters site.now (asker_of take me)))) }
{
    let targets = requesters(alloc, l, site, works_for(take, me))?;
    push_to_kids(
        alloc,
        l,
        actions,
        site,
        me,
        take,
        id,
        value,
        targets.as_slice(),
    )
}

/// Appends what an inner object sends to the requester.
fn push_to_child(
    alloc: Global,
    l: &Places,
    actions: &mut List<Action>,
    site: &Site,
    me: Option<u8>,
    take: Take,
    id: MsgId,
    value: Value,
) -> Result<(), OutOfMemory>
    ensures { OnOk result (actions.new ≡ actions.old ++ map (action_at l.now) (flat_map (λ w. with_value site.now me take value w.0 (enq w.1 id.0)) (requester_queues level.Mid site.now (asker_of take me)))) }
{
    push_to_requesters(alloc, l, actions, site, me, take, id, value)
}

/// Appends what is sent to the requester.
fn push_to_me(
    alloc: Global,
    l: &Places,
    actions: &mut List<Action>,
    site: &Site,
    me: Option<u8>,
    take: Take,
    id: MsgId,
    value: Value,
) -> Result<(), OutOfMemory>
    ensures { OnOk result (actions.new ≡ actions.old ++ map (action_at l.now) (flat_map (λ w. with_value site.now me take value w.0 (enq w.1 id.0)) (requester_queues site.now.kind site.now (asker_of take me)))) }
{
    match site.kind() {
        Kind::Leaf => push_to_processor(alloc, l, actions, site, me, take, id, value),
        Kind::Root | Kind::Mid => push_to_child(alloc, l, actions, site, me, take, id, value),
    }
}

/// Appends what is sent to the children of a set.
fn push_to_set(
    alloc: Global,
    l: &Places,
    actions: &mut List<Action>,
    site: &Site,
    me: Option<u8>,
    take: Take,
    send: SendTo,
    id: MsgId,
    value: Value,
    targets: &[Target],
) -> Result<(), OutOfMemory>
    requires { targets.now ≡ map (target_at l.now) (targets_at site.now (asker_of take me) send) }
    ensures { OnOk result (actions.new ≡ actions.old ++ map (action_at l.now) (flat_map (λ x. with_value site.now me take value x.1 (enq (child_queue x.0) id.0)) (targets_at site.now (asker_of take me) send))) }
{
    push_to_kids(alloc, l, actions, site, me, take, id, value, targets)
}

/// Appends what a rule sends.
pub(crate) fn push_send(
    alloc: Global,
    l: &Places,
    actions: &mut List<Action>,
    p: &Protocol,
    site: &Site,
    me: Option<u8>,
    take: Take,
    send: SendTo,
    targets: &[Target],
) -> Result<(), OutOfMemory>
    requires { targets.now ≡ map (target_at l.now) (targets_at site.now (asker_of take me) send) }
    ensures { OnOk result (actions.new ≡ actions.old ++ map (action_at l.now) (send_actions p.now site.now me take send)) }
{
    match send {
        SendTo::Nothing => Ok(()),
        SendTo::Me(id, value) => push_to_me(alloc, l, actions, site, me, take, id, value),
        SendTo::Parent(id, value) => {
            push_to_parent(alloc, l, actions, p, site, me, take, id, value)
        }
        SendTo::Kids(_, id, value) => push_to_set(
            alloc, l, actions, site, me, take, send, id, value, targets,
        ),
        SendTo::Others(_, id, value) => push_to_set(
            alloc, l, actions, site, me, take, send, id, value, targets,
        ),
    }
}
