//! The second clause: what is taken and sent has the class of its place.

ghost use Rattle.std.specs.Prelude.{◌≡◌};
ghost use Rattle.hem_syntax.specs.Protocol.{is_request};
ghost use Rattle.hem_template.specs.Template.{take_class_fits, send_class_fits, class_fits};
ghost use Rattle.hem_syntax.specs.Protocol.{has_class, is_ext_req, is_ext_rsp, is_up_req, is_up_rsp, is_down_req, is_down_rsp};
ghost use Rattle.hem_template.specs.Rows.{request_fits, answer_fits};

use hem_base::{Kind, MsgId};
use hem_syntax::{Class, Protocol, Rule, SendTo, Take};

/// Whether a message id is one of requests of a processor.
fn is_ext_req(p: &Protocol, id: MsgId) -> bool
    ensures { result ≡ has_class p.now id is_ext_req }
{
    matches!(p.class(id), Some(Class::ExtReq))
}

/// Whether a message id is one of answers to a processor.
fn is_ext_rsp(p: &Protocol, id: MsgId) -> bool
    ensures { result ≡ has_class p.now id is_ext_rsp }
{
    matches!(p.class(id), Some(Class::ExtRsp))
}

/// Whether a message id is one of requests to a parent.
pub(crate) fn is_up_req(p: &Protocol, id: MsgId) -> bool
    ensures { result ≡ has_class p.now id is_up_req }
{
    matches!(p.class(id), Some(Class::UpReq))
}

/// Whether a message id is one of responses to a parent.
pub(crate) fn is_up_rsp(p: &Protocol, id: MsgId) -> bool
    ensures { result ≡ has_class p.now id is_up_rsp }
{
    matches!(p.class(id), Some(Class::UpRsp))
}

/// Whether a message id is one of requests to a child.
pub(crate) fn is_down_req(p: &Protocol, id: MsgId) -> bool
    ensures { result ≡ has_class p.now id is_down_req }
{
    matches!(p.class(id), Some(Class::DownReq))
}

/// Whether a message id is one of responses to a child.
pub(crate) fn is_down_rsp(p: &Protocol, id: MsgId) -> bool
    ensures { result ≡ has_class p.now id is_down_rsp }
{
    matches!(p.class(id), Some(Class::DownRsp))
}

/// Whether a message id is one of requests.
pub(crate) fn is_request_id(p: &Protocol, id: MsgId) -> bool
    ensures { result ≡ has_class p.now id is_request }
{
    matches!(
        p.class(id),
        Some(Class::ExtReq | Class::UpReq | Class::DownReq)
    )
}

/// Whether what is taken from the requester has the class of the kind.
fn request_fits(p: &Protocol, kind: Kind, id: MsgId) -> bool
    ensures { result ≡ request_fits p.now kind id }
{
    match kind {
        Kind::Root | Kind::Mid => is_up_req(p, id),
        Kind::Leaf => is_ext_req(p, id),
    }
}

/// Whether what is taken has the class of the kind and the sender.
fn take_class_fits(p: &Protocol, kind: Kind, take: Take) -> bool
    ensures { result ≡ take_class_fits p.now kind take }
{
    match take {
        Take::Me(id) => request_fits(p, kind, id),
        Take::Parent(id) => is_down_req(p, id) || is_down_rsp(p, id),
        Take::Kids(id) => is_up_rsp(p, id),
        Take::Nothing => true,
    }
}

/// Whether what is sent to the requester has the class of the kind.
fn answer_fits(p: &Protocol, kind: Kind, id: MsgId) -> bool
    ensures { result ≡ answer_fits p.now kind id }
{
    match kind {
        Kind::Root | Kind::Mid => is_down_rsp(p, id),
        Kind::Leaf => is_ext_rsp(p, id),
    }
}

/// Whether what is sent has the class of the kind and the receiver.
fn send_class_fits(p: &Protocol, kind: Kind, send: SendTo) -> bool
    ensures { result ≡ send_class_fits p.now kind send }
{
    match send {
        SendTo::Me(id, _) => answer_fits(p, kind, id),
        SendTo::Parent(id, _) => is_up_req(p, id) || is_up_rsp(p, id),
        SendTo::Kids(_, id, _) | SendTo::Others(_, id, _) => is_down_req(p, id),
        SendTo::Nothing => true,
    }
}

/// Whether what a rule takes and sends has the class of its place.
pub(crate) fn class_fits(p: &Protocol, kind: Kind, rule: &Rule) -> bool
    ensures { result ≡ class_fits p.now kind rule.now }
{
    take_class_fits(p, kind, rule.take) && send_class_fits(p, kind, rule.send)
}
