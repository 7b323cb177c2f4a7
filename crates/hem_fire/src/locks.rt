//! What a rule asks of a lock, and the lock that a firing takes.

ghost use Rattle.std.specs.Prelude.{◌≡◌, ◌&&◌};
ghost use Rattle.hem_syntax.specs.declared.rule.SendTo.{SendTo};
ghost use Rattle.hem_object.specs.Local.{Local};
ghost use Rattle.hem_fire.specs.Sends.{message_of};
ghost use Rattle.hem_fire.specs.Locks.{need_holds, if_request, request_in_hand, lock_by, lock_names, awaited_by, lock_taken};

use crate::heads::Heads;
use crate::lookup::is_request_id;
use hem_base::{KidSet, Message};
use hem_object::{By, Local, Lock, View};
use hem_syntax::{Hold, Origin, Protocol, Rule, Side, Take};

/// Whether a lock is as the rule needs it.
fn need_holds(need: Hold, lock: Option<Lock>) -> bool
    ensures { result ≡ need_holds need lock }
{
    match (need, lock) {
        (Hold::Any, _) => true,
        (Hold::Free, None) => true,
        (Hold::Child, Some(lock)) => matches!(lock.by, By::Processor | By::Kid(_)),
        (Hold::Parent, Some(lock)) => matches!(lock.by, By::Parent),
        (Hold::Own, Some(lock)) => matches!(lock.by, By::Own),
        _ => false,
    }
}

/// Whether both locks are as the rule needs them. Where they aren't, the rule can't fire, whatever messages are there.
pub fn needs_hold(rule: &Rule, local: &Local) -> bool
    ensures { result ≡ (need_holds rule.now.need.up local.now.up && need_holds rule.now.need.down local.now.down) }
{
    need_holds(rule.need.up, local.up) && need_holds(rule.need.down, local.down)
}

/// The message, where it is there and is a request.
fn if_request(p: &Protocol, message: Option<Message>) -> Option<Message>
    ensures { result ≡ if_request p.now message }
{
    let message = message?;
    if is_request_id(p, message.id) {
        Some(message)
    } else {
        None
    }
}

/// The request that a lock of this firing keeps: the message taken where that is a request, else the one that the
/// lock keeps already, and for a rule that takes nothing the message that it sends, which is given.
pub(crate) fn request_in_hand(
    p: &Protocol,
    take: Take,
    view: &View,
    heads: &Heads,
    message: Option<Message>,
) -> Option<Message>
    ensures { (send : SendTo) (local : Local) → message ≡ message_of send local view.now → result ≡ request_in_hand p.now take send local view.now heads.now }
{
    match take {
        Take::Me(_) => if_request(p, heads.request),
        Take::Parent(_) => match if_request(p, heads.parent) {
            Some(request) => Some(request),
            None => view.kept,
        },
        Take::Kids(_) => view.kept,
        Take::Nothing => message,
    }
}

/// The holder of a new lock.
fn lock_by(origin: Origin, view: &View) -> Option<By>
    ensures { result ≡ lock_by origin view.now }
{
    match origin {
        Origin::Child => view.requester,
        Origin::Parent => Some(By::Parent),
        Origin::Own => Some(By::Own),
    }
}

/// Whether everything that the lock names exists.
pub(crate) fn lock_names(
    lock: Option<(Side, Origin)>,
    view: &View,
    request: Option<Message>,
) -> bool
    ensures { result ≡ lock_names lock view.now request }
{
    match lock {
        Some((_, origin)) => lock_by(origin, view).is_some() && request.is_some(),
        None => true,
    }
}

/// The children that a new lock awaits: for a downlock the targets of the send, and for an uplock nobody.
fn awaited_by(side: Side, targets: KidSet) -> KidSet
    ensures { result ≡ awaited_by side targets }
{
    match side {
        Side::Up => KidSet(0),
        Side::Down => targets,
    }
}

/// The lock that the firing takes.
pub(crate) fn lock_taken(
    lock: Option<(Side, Origin)>,
    view: &View,
    request: Option<Message>,
    targets: KidSet,
) -> Option<(Side, Lock)>
    ensures { result ≡ lock_taken lock view.now request targets }
{
    let (side, origin) = lock?;
    let request = request?;
    let by = lock_by(origin, view)?;
    let awaited = awaited_by(side, targets);
    Some((
        side,
        Lock {
            by,
            request,
            awaited,
        },
    ))
}
