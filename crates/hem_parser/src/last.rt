//! The last element of a list.

ghost use Rattle.std.specs.Prelude.{◌≡◌};
ghost use Rattle.hem_grammar.specs.Draft.{last_or, set_last, no_atom, with_start};
ghost use Rattle.hem_syntax.specs.declared.rule.Assign.TheVariants.{Val};
ghost use Rattle.hem_syntax.specs.declared.rule.Value.TheVariants.{Zero};

use hem_base::{List, MsgId, Name, Status8};
use hem_syntax::{Assign, Atom, Rule, Value};

/// The last atom of a guard.
pub fn last_atom(guard: &List<Atom>) -> Atom
    ensures { result ≡ last_or no_atom guard.now }
{
    match guard.get(guard.len().saturating_sub(1)) {
        Some(atom) => *atom,
        None => Atom::Asked(MsgId(0)),
    }
}

/// Writes the last atom of a guard anew.
pub fn set_last_atom(guard: &mut List<Atom>, atom: Atom)
    ensures { guard.new ≡ set_last guard.old atom }
{
    let len = guard.len();
    if len > 0 {
        *guard.at_mut(len - 1) = atom;
    }
}

/// The last set of a rule.
pub fn last_assign(sets: &List<Assign>) -> Assign
    ensures { result ≡ last_or (Val Zero) sets.now }
{
    match sets.get(sets.len().saturating_sub(1)) {
        Some(assign) => *assign,
        None => Assign::Val(Value::Zero),
    }
}

/// Writes the last set of a rule anew.
pub fn set_last_assign(sets: &mut List<Assign>, assign: Assign)
    ensures { sets.new ≡ set_last sets.old assign }
{
    let len = sets.len();
    if len > 0 {
        *sets.at_mut(len - 1) = assign;
    }
}

/// Writes the last rule of a kind anew.
pub fn set_last_rule(rules: &mut List<Rule>, rule: Rule)
    ensures { rules.new ≡ set_last rules.old rule }
{
    let len = rules.len();
    if len > 0 {
        *rules.at_mut(len - 1) = rule;
    }
}

/// Puts a status with the last field.
pub fn set_start(fields: &mut List<(Name, Status8)>, status: Status8)
    ensures { fields.new ≡ with_start fields.old status }
{
    let len = fields.len();
    if len > 0 {
        let field = fields.at_mut(len - 1);
        field.1 = status;
    }
}
