//! What a firing sends, and to whom.

ghost use Rattle.std.specs.Prelude.{◌≡◌, option_map};
ghost use Rattle.hem_object.specs.Local.{Local};
ghost use Rattle.hem_object.specs.Targets.{targets_of};
ghost use Rattle.hem_fire.specs.Sends.{message_of, has_parent, send_names, to_requester, goes_to};

use crate::outs::To;
use hem_base::{KidSet, Kind, Message, MsgId};
use hem_object::{By, Local, View};
use hem_syntax::{Class, Protocol, SendTo};

/// The message with this id, where its value exists.
fn message_with(id: MsgId, value: Option<u64>) -> Option<Message>
    ensures { result ≡ option_map (λ x. record { id = id; value = x }) value }
{
    value.map(|value| Message { id, value })
}

/// The message that the rule sends, where its value exists.
pub(crate) fn message_of(send: SendTo, local: &Local, view: &View) -> Option<Message>
    ensures { result ≡ message_of send local.now view.now }
{
    match send {
        SendTo::Nothing => None,
        SendTo::Me(id, value) => message_with(id, local.value(value, view)),
        SendTo::Parent(id, value) => message_with(id, local.value(value, view)),
        SendTo::Kids(_, id, value) => message_with(id, local.value(value, view)),
        SendTo::Others(_, id, value) => message_with(id, local.value(value, view)),
    }
}

/// Whether an object of the kind has a parent.
fn has_parent(kind: Kind) -> bool
    ensures { result ≡ has_parent kind }
{
    !matches!(kind, Kind::Root)
}

/// Whether everything that the send names exists, and it reaches somebody: with the message that it sends, and the
/// children that it reaches.
pub(crate) fn send_names(
    kind: Kind,
    send: SendTo,
    view: &View,
    message: Option<Message>,
    targets: KidSet,
) -> bool
    ensures { (local : Local) → message ≡ message_of send local view.now → targets ≡ targets_of send local view.now → result ≡ send_names kind send local view.now }
{
    match send {
        SendTo::Nothing => true,
        SendTo::Me(_, _) => view.requester.is_some() && message.is_some(),
        SendTo::Parent(_, _) => has_parent(kind) && message.is_some(),
        SendTo::Kids(_, _, _) => message.is_some() && targets.0 != 0,
        SendTo::Others(_, _, _) => {
            view.requester.is_some() && message.is_some() && targets.0 != 0
        }
    }
}

/// Where an answer to the requester goes.
fn to_requester(requester: Option<By>) -> To
    ensures { result ≡ to_requester requester }
{
    match requester {
        Some(By::Processor) => To::Answer,
        Some(By::Kid(kid)) => To::Kid(kid),
        _ => To::Nobody,
    }
}

/// Where the firing sends, with the children that it reaches.
pub(crate) fn goes_to(p: &Protocol, send: SendTo, view: &View, targets: KidSet) -> To
    ensures { (local : Local) → targets ≡ targets_of send local view.now → result ≡ goes_to p.now send local view.now }
{
    match send {
        SendTo::Nothing => To::Nobody,
        SendTo::Me(_, _) => to_requester(view.requester),
        SendTo::Parent(id, _) => match p.class(id) {
            Some(Class::UpRsp) => To::UpResponse,
            _ => To::UpRequest,
        },
        SendTo::Kids(_, _, _) | SendTo::Others(_, _, _) => To::Kids(targets),
    }
}
