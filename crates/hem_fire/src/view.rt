//! What a rule names in a firing.

ghost use Rattle.std.specs.Prelude.{◌≡◌, ℕ, Option};
ghost use Rattle.hem_base.specs.declared.ids.MsgId.{MsgId};
ghost use Rattle.hem_fire.specs.View.{request_of, asker, kid_asker, requester, view_of};
ghost use Rattle.hem_syntax.specs.declared.rule.Take.TheVariants as taking;

use crate::heads::{Heads, awaited_of, value_in};
use hem_base::{KidSet, Message};
use hem_object::{By, Local, Lock, View};
use hem_syntax::Take;

/// The request that a lock keeps, where it is held.
fn request_of(lock: Option<Lock>) -> Option<Message>
    ensures { result ≡ request_of lock }
{
    lock.map(|lock| lock.request)
}

/// The holder of a lock, where that is a child or the processor.
pub(crate) fn asker(lock: Option<Lock>) -> Option<By>
    ensures { result ≡ asker lock }
{
    match lock?.by {
        By::Processor => Some(By::Processor),
        By::Kid(kid) => Some(By::Kid(kid)),
        _ => None,
    }
}

/// The holder of a lock, where that is a child.
fn kid_asker(lock: Option<Lock>) -> Option<By>
    ensures { result ≡ kid_asker lock }
{
    match lock?.by {
        By::Kid(kid) => Some(By::Kid(kid)),
        _ => None,
    }
}

/// For whom a rule works that takes from a child, or on a leaf from the processor.
fn requester(me: Option<u8>) -> By
    ensures { result ≡ requester me }
{
    match me {
        Some(kid) => By::Kid(kid),
        None => By::Processor,
    }
}

/// What a rule names in a firing: who asks, the value of the message taken, the request that the lock keeps, the
/// awaited children, and the value of the response of the least of them.
pub(crate) fn view_of(take: Take, me: Option<u8>, local: &Local, heads: &Heads) -> View
    ensures { result ≡ view_of take me local.now heads.now }
{
    match take {
        Take::Me(_) => View {
            requester: Some(requester(me)),
            msg: value_in(heads.request),
            rs: None,
            kept: None,
            awaited: KidSet(0),
        },
        Take::Parent(_) => View {
            requester: asker(local.up),
            msg: value_in(heads.parent),
            rs: None,
            kept: request_of(local.up),
            awaited: KidSet(0),
        },
        Take::Kids(_) => view_of_responses(local, heads),
        Take::Nothing => View {
            requester: None,
            msg: None,
            rs: None,
            kept: None,
            awaited: KidSet(0),
        },
    }
}

/// What a rule names that takes the awaited children's responses.
fn view_of_responses(local: &Local, heads: &Heads) -> View
    ensures { (id : MsgId) → (me : Option ℕ) → result ≡ view_of (taking.Kids id) me local.now heads.now }
{
    let awaited = awaited_of(local);
    View {
        requester: kid_asker(local.down),
        msg: None,
        rs: heads.first_response(awaited),
        kept: request_of(local.down),
        awaited,
    }
}
