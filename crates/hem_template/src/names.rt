//! The seventh clause: each name stands where it has a meaning.

ghost use Rattle.std.specs.Prelude.{◌≡◌, true};
ghost use Rattle.std.specs.List.{list_all};
ghost use Rattle.std.specs.Option.{option_map_or};
ghost use Rattle.hem_template.specs.Template.{value_sent, values_of, may_name_requester, has_kept, has_msg, has_rs, is_leaf, atom_fits, value_fits, set_fits, names_fit};
ghost use Rattle.hem_template.specs.Rows.{set_value_fits};

use crate::class::is_request_id;
use crate::row::{Row, Taking};
use crate::scope::same_hold;
use hem_base::Kind;
use hem_syntax::{Assign, Atom, Hold, Protocol, Rule, SendTo, Value};

/// The value that a rule sends.
fn value_sent(send: SendTo) -> Option<Value>
    ensures { result ≡ value_sent send }
{
    match send {
        SendTo::Nothing => None,
        SendTo::Me(_, value)
        | SendTo::Parent(_, value)
        | SendTo::Kids(_, _, value)
        | SendTo::Others(_, _, value) => Some(value),
    }
}

/// Whether a rule of this row may name its requester.
fn may_name_requester(row: &Row) -> bool
    ensures { result ≡ may_name_requester row.now }
{
    matches!(row.taking, Taking::FromRequester)
        || same_hold(row.up, Hold::Child)
        || same_hold(row.down, Hold::Child)
}

/// Whether a rule with this take has the request that a lock keeps.
fn has_kept(taking: Taking) -> bool
    ensures { result ≡ has_kept taking }
{
    matches!(taking, Taking::ParentResponse | Taking::FromKids)
}

/// Whether a rule with this take has the value of one message.
fn has_msg(taking: Taking) -> bool
    ensures { result ≡ has_msg taking }
{
    matches!(
        taking,
        Taking::FromRequester | Taking::ParentRequest | Taking::ParentResponse
    )
}

/// Whether a rule with this take has the children's responses.
fn has_rs(taking: Taking) -> bool
    ensures { result ≡ has_rs taking }
{
    matches!(taking, Taking::FromKids)
}

/// Whether a kind is that of the leaves.
fn is_leaf(kind: Kind) -> bool
    ensures { result ≡ is_leaf kind }
{
    matches!(kind, Kind::Leaf)
}

/// Whether the names of a condition may stand in a rule of this row.
fn atom_fits(p: &Protocol, kind: Kind, row: &Row, atom: Atom) -> bool
    ensures { result ≡ atom_fits p.now kind row.now atom }
{
    match atom {
        Atom::Field(_, _) => true,
        Atom::KidsAll(_) | Atom::KidsAny(_) => !is_leaf(kind),
        Atom::Asked(id) => has_kept(row.taking) && is_request_id(p, id),
        Atom::Me(_) | Atom::OthersAll(_) | Atom::OthersAny(_) => may_name_requester(row)
            && !is_leaf(kind),
    }
}

/// Whether a value may stand in a rule of this row.
fn value_fits(row: &Row, value: Value) -> bool
    ensures { result ≡ value_fits row.now value }
{
    match value {
        Value::Val | Value::Zero => true,
        Value::Msg => has_msg(row.taking),
        Value::Kept => has_kept(row.taking),
        Value::Rs => has_rs(row.taking),
    }
}

/// Whether the place of a set may stand in a rule of this row.
fn set_fits(kind: Kind, row: &Row, set: Assign) -> bool
    ensures { result ≡ set_fits kind row.now set }
{
    match set {
        Assign::Me(_) => may_name_requester(row) && !is_leaf(kind),
        Assign::Targets(_) => has_rs(row.taking),
        Assign::Field(_, _) | Assign::Val(_) => true,
    }
}

/// Whether the names of each condition may stand in a rule of this row.
fn guard_fits(p: &Protocol, kind: Kind, row: &Row, guard: &[Atom]) -> bool
    ensures { result ≡ list_all (atom_fits p.now kind row.now) guard.now }
{
    guard.iter().all(|atom| atom_fits(p, kind, row, *atom))
}

/// Whether the place of each set may stand in a rule of this row.
fn places_fit(kind: Kind, row: &Row, sets: &[Assign]) -> bool
    ensures { result ≡ list_all (set_fits kind row.now) sets.now }
{
    sets.iter().all(|set| set_fits(kind, row, *set))
}

/// Whether the value that is set, if one is, may stand in a rule of this row.
fn set_value_fits(row: &Row, set: Assign) -> bool
    ensures { result ≡ set_value_fits row.now set }
{
    match set {
        Assign::Val(value) => value_fits(row, value),
        Assign::Field(_, _) | Assign::Me(_) | Assign::Targets(_) => true,
    }
}

/// Whether each value that is set may stand in a rule of this row.
fn set_values_fit(row: &Row, sets: &[Assign]) -> bool
    ensures { result ≡ list_all (set_value_fits row.now) sets.now }
{
    sets.iter().all(|set| set_value_fits(row, *set))
}

/// Whether the value that is sent, if one is, may stand in a rule of this row.
fn sent_value_fits(row: &Row, send: SendTo) -> bool
    ensures { result ≡ option_map_or (value_fits row.now) (value_sent send) true }
{
    match value_sent(send) {
        Some(value) => value_fits(row, value),
        None => true,
    }
}

/// Whether each value that a rule sets or sends may stand in a rule of this row.
fn values_fit(rule: &Rule, row: &Row) -> bool
    ensures { result ≡ list_all (value_fits row.now) (values_of rule.now) }
{
    set_values_fit(row, rule.sets.as_slice()) && sent_value_fits(row, rule.send)
}

/// Whether each name stands where it may.
pub(crate) fn names_fit(p: &Protocol, kind: Kind, rule: &Rule, row: &Row) -> bool
    ensures { result ≡ names_fit p.now kind rule.now row.now }
{
    guard_fits(p, kind, row, rule.guard.as_slice())
        && places_fit(kind, row, rule.sets.as_slice())
        && values_fit(rule, row)
}
