//! Stability of waiting requests.

ghost use Rattle.std.specs.Prelude.{◌≡◌, [], ◌∷◌, cond, map, filter, find};
ghost use Rattle.std.specs.Option.{option_map};
ghost use Rattle.hem_abstract.specs.Partners.{alone, pair};
ghost use Rattle.hem_abstract.specs.Search.{turn_breaks};
ghost use Rattle.hem_abstract.specs.Stable.{abstract_states, is_of, is_rs_up_up, first_breach, first_unstable};
ghost use Rattle.hem_abstract.specs.Places.{partners_at};
ghost use Rattle.hem_abstract.specs.Named.{named};
ghost use Rattle.hem_syntax.specs.Protocol.{part};

use crate::clash::Clash;
use crate::turn::Turn;
use crate::{Abstract, Breach};
use hem_base::Kind;
use hem_syntax::{Protocol, Rule};
use hem_template::{TemplateName, template};

/// The least abstract state of the kind in which a turn takes the request's guard or value away.
fn least_state(p: &Protocol, kind: Kind, up: &Rule, turn: &Turn) -> Option<Abstract>
    ensures { result ≡ find (turn_breaks up.now turn.now) (abstract_states p.now kind) }
{
    let fields = p.part(kind).fields.len();
    let statuses = p.statuses().len() as u8;
    Clash::of(up, turn, kind, fields, statuses).least(statuses, &[], fields)
}

/// The breach by a rule that answers the parent at once.
fn breach_alone(p: &Protocol, kind: Kind, up: &Rule, down: &Rule) -> Option<Breach>
    ensures { result ≡ option_map (named up.now.name) (first_breach (abstract_states p.now kind) up.now (alone down.now ∷ [])) }
{
    match least_state(p, kind, up, &Turn::alone(down)) {
        Some(at) => Some(Breach {
            up: up.name,
            down: down.name,
            second: None,
            at,
        }),
        None => None,
    }
}

/// The breach by a rule that passes the parent's request on with one that then answers it.
fn breach_by_pair(p: &Protocol, kind: Kind, up: &Rule, down: &Rule, second: &Rule) -> Option<Breach>
    ensures { result ≡ option_map (named up.now.name) (first_breach (abstract_states p.now kind) up.now (pair down.now second.now ∷ [])) }
{
    match least_state(p, kind, up, &Turn::pair(down, second)) {
        Some(at) => Some(Breach {
            up: up.name,
            down: down.name,
            second: Some(second.name),
            at,
        }),
        None => None,
    }
}

/// The breach by a rule that passes the parent's request on with another rule, where that answers the parent then.
fn breach_with(p: &Protocol, kind: Kind, up: &Rule, down: &Rule, second: &Rule) -> Option<Breach>
    ensures { result ≡ option_map (named up.now.name) (first_breach (abstract_states p.now kind) up.now (cond (is_of p.now kind is_rs_up_up second.now) (pair down.now second.now ∷ []) [])) }
{
    match template(p, kind, second) {
        Ok(TemplateName::RsUpUp) => breach_by_pair(p, kind, up, down, second),
        _ => None,
    }
}

/// The first breach by a rule that passes the parent's request on, with any rule that then answers it.
fn breach_by_pairs(p: &Protocol, kind: Kind, up: &Rule, down: &Rule) -> Option<Breach>
    ensures { result ≡ option_map (named up.now.name) (first_breach (abstract_states p.now kind) up.now (map (pair down.now) (filter (is_of p.now kind is_rs_up_up) (part p.now kind).rules))) }
{
    let rules = p.rules(kind);
    for second in rules {
        if let Some(breach) = breach_with(p, kind, up, down, second) {
            return Some(breach);
        }
    }
    None
}

/// The first breach by the partners that stand at a rule's place.
fn breach_at(p: &Protocol, kind: Kind, up: &Rule, down: &Rule) -> Option<Breach>
    ensures { result ≡ option_map (named up.now.name) (first_breach (abstract_states p.now kind) up.now (partners_at p.now kind down.now)) }
{
    match template(p, kind, down) {
        Ok(TemplateName::ImmUp) => breach_alone(p, kind, up, down),
        Ok(TemplateName::RqDownDown) => breach_by_pairs(p, kind, up, down),
        _ => None,
    }
}

/// The first partner in text order that takes the guard or the value of the rule's waiting request away, with the least
/// abstract state in which it does. A partner is a rule of the kind that answers the parent at once, or a rule that passes
/// the parent's request on with a rule that then answers it; all partners meet the clauses before stability. States go by
/// their fields in order, and then by the number of the children's statuses.
pub fn unstable(p: &Protocol, kind: Kind, up: &Rule) -> Option<Breach>
    ensures { result ≡ option_map (named up.now.name) (first_unstable p.now kind up.now) }
{
    let rules = p.rules(kind);
    for down in rules {
        if let Some(breach) = breach_at(p, kind, up, down) {
            return Some(breach);
        }
    }
    None
}
