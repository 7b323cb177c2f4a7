//! Sets of statuses, and what is said of them.

ghost use Rattle.std.specs.Prelude.{◌≡◌};
ghost use Rattle.hem_grammar.specs.Draft.{bit, with_status, atom_set, send_set, atom_with, assign_with, send_with_status, send_with_message, send_with_value, take_with};

use hem_base::{MsgId, Status8, StatusSet};
use hem_syntax::{Assign, Atom, SendTo, Take, Value};

fn bit(status: Status8) -> u8
    ensures { result ≡ bit status }
{
    match status.0 {
        0 => 1,
        1 => 2,
        2 => 4,
        3 => 8,
        _ => 0,
    }
}

fn with_status(set: StatusSet, status: Status8) -> StatusSet
    ensures { result ≡ with_status set status }
{
    StatusSet(set.0 | bit(status))
}

/// The set of statuses of an atom.
pub fn atom_set(atom: Atom) -> StatusSet
    ensures { result ≡ atom_set atom }
{
    match atom {
        Atom::Field(_, set)
        | Atom::Me(set)
        | Atom::KidsAll(set)
        | Atom::KidsAny(set)
        | Atom::OthersAll(set)
        | Atom::OthersAny(set) => set,
        Atom::Asked(_) => StatusSet(0),
    }
}

/// The set of statuses of a send.
pub fn send_set(send: SendTo) -> StatusSet
    ensures { result ≡ send_set send }
{
    match send {
        SendTo::Kids(set, _, _) | SendTo::Others(set, _, _) => set,
        _ => StatusSet(0),
    }
}

/// The atom with a status more.
pub fn atom_with(atom: Atom, status: Status8) -> Atom
    ensures { result ≡ atom_with atom status }
{
    match atom {
        Atom::Field(field, set) => Atom::Field(field, with_status(set, status)),
        Atom::Me(set) => Atom::Me(with_status(set, status)),
        Atom::KidsAll(set) => Atom::KidsAll(with_status(set, status)),
        Atom::KidsAny(set) => Atom::KidsAny(with_status(set, status)),
        Atom::OthersAll(set) => Atom::OthersAll(with_status(set, status)),
        Atom::OthersAny(set) => Atom::OthersAny(with_status(set, status)),
        Atom::Asked(id) => Atom::Asked(id),
    }
}

/// The set of a rule with the status.
pub fn assign_with(assign: Assign, status: Status8) -> Assign
    ensures { result ≡ assign_with assign status }
{
    match assign {
        Assign::Field(field, _) => Assign::Field(field, status),
        Assign::Val(value) => Assign::Val(value),
        Assign::Me(_) => Assign::Me(status),
        Assign::Targets(_) => Assign::Targets(status),
    }
}

/// The send with a status more.
pub fn send_with_status(send: SendTo, status: Status8) -> SendTo
    ensures { result ≡ send_with_status send status }
{
    match send {
        SendTo::Kids(set, id, value) => SendTo::Kids(with_status(set, status), id, value),
        SendTo::Others(set, id, value) => SendTo::Others(with_status(set, status), id, value),
        other => other,
    }
}

/// The send with the message id.
pub fn send_with_message(send: SendTo, id: MsgId) -> SendTo
    ensures { result ≡ send_with_message send id }
{
    match send {
        SendTo::Nothing => SendTo::Nothing,
        SendTo::Me(_, value) => SendTo::Me(id, value),
        SendTo::Parent(_, value) => SendTo::Parent(id, value),
        SendTo::Kids(set, _, value) => SendTo::Kids(set, id, value),
        SendTo::Others(set, _, value) => SendTo::Others(set, id, value),
    }
}

/// The send with the value.
pub fn send_with_value(send: SendTo, value: Value) -> SendTo
    ensures { result ≡ send_with_value send value }
{
    match send {
        SendTo::Nothing => SendTo::Nothing,
        SendTo::Me(id, _) => SendTo::Me(id, value),
        SendTo::Parent(id, _) => SendTo::Parent(id, value),
        SendTo::Kids(set, id, _) => SendTo::Kids(set, id, value),
        SendTo::Others(set, id, _) => SendTo::Others(set, id, value),
    }
}

/// What a rule takes, with the message id.
pub fn take_with(take: Take, id: MsgId) -> Take
    ensures { result ≡ take_with take id }
{
    match take {
        Take::Me(_) => Take::Me(id),
        Take::Parent(_) => Take::Parent(id),
        Take::Kids(_) => Take::Kids(id),
        Take::Nothing => Take::Nothing,
    }
}
