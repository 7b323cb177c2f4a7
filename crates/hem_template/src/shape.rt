//! The third clause: take, locks and send are those of a template.

ghost use Rattle.std.specs.Prelude.{◌≡◌, ◌&&◌, find};
ghost use Rattle.std.specs.Option.{option_eq};
ghost use Rattle.hem_template.specs.Template.{is_taking, is_sending, same_side, same_origin, has_shape, shape_of};

use crate::TemplateName;
use crate::class::{is_down_req, is_down_rsp, is_up_req, is_up_rsp};
use crate::row::{Row, Sending, TEMPLATES, Taking, row_of};
use hem_syntax::{Origin, Protocol, Rule, SendTo, Side, Take};

/// Whether what a rule takes is what the row takes.
fn is_taking(p: &Protocol, take: Take, taking: Taking) -> bool
    ensures { result ≡ is_taking p.now take taking }
{
    match (take, taking) {
        (Take::Nothing, Taking::NothingTaken)
        | (Take::Me(_), Taking::FromRequester)
        | (Take::Kids(_), Taking::FromKids) => true,
        (Take::Parent(id), Taking::ParentRequest) => is_down_req(p, id),
        (Take::Parent(id), Taking::ParentResponse) => is_down_rsp(p, id),
        _ => false,
    }
}

/// Whether what a rule sends is what the row sends.
fn is_sending(p: &Protocol, send: SendTo, sending: Sending) -> bool
    ensures { result ≡ is_sending p.now send sending }
{
    match (send, sending) {
        (SendTo::Nothing, Sending::NothingSent)
        | (SendTo::Me(_, _), Sending::ToRequester)
        | (SendTo::Others(_, _, _), Sending::ToOthers)
        | (SendTo::Kids(_, _, _), Sending::ToKids) => true,
        (SendTo::Parent(id, _), Sending::RequestUp) => is_up_req(p, id),
        (SendTo::Parent(id, _), Sending::ResponseUp) => is_up_rsp(p, id),
        _ => false,
    }
}

/// Whether two sides are the same.
fn same_side(a: Side, b: Side) -> bool
    ensures { result ≡ same_side a b }
{
    matches!((a, b), (Side::Up, Side::Up) | (Side::Down, Side::Down))
}

/// Whether two origins are the same.
fn same_origin(a: Origin, b: Origin) -> bool
    ensures { result ≡ same_origin a b }
{
    matches!(
        (a, b),
        (Origin::Child, Origin::Child)
            | (Origin::Parent, Origin::Parent)
            | (Origin::Own, Origin::Own)
    )
}

/// Whether a rule frees what the row frees.
fn frees_alike(a: Option<Side>, b: Option<Side>) -> bool
    ensures { result ≡ option_eq same_side a b }
{
    match (a, b) {
        (Some(a), Some(b)) => same_side(a, b),
        (None, None) => true,
        _ => false,
    }
}

/// Whether a rule locks what the row locks, and for the same origin.
fn locks_alike(a: Option<(Side, Origin)>, b: Option<(Side, Origin)>) -> bool
    ensures { result ≡ option_eq (λ a b. same_side a.0 b.0 && same_origin a.1 b.1) a b }
{
    match (a, b) {
        (Some(a), Some(b)) => same_side(a.0, b.0) && same_origin(a.1, b.1),
        (None, None) => true,
        _ => false,
    }
}

/// Whether a rule takes, locks and sends as a row does.
fn has_shape(p: &Protocol, rule: &Rule, row: &Row) -> bool
    ensures { result ≡ has_shape p.now rule.now row.now }
{
    is_taking(p, rule.take, row.taking)
        && frees_alike(rule.free, row.frees)
        && locks_alike(rule.lock, row.locks)
        && is_sending(p, rule.send, row.sending)
}

/// The template whose shape the rule has: at most one.
pub(crate) fn shape_of(p: &Protocol, rule: &Rule) -> Option<TemplateName>
    ensures { result ≡ shape_of p.now rule.now }
{
    TEMPLATES
        .iter()
        .copied()
        .find(|name| has_shape(p, rule, &row_of(*name)))
}
