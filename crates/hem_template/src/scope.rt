//! The clauses of needs, sets and what a guard reads.

ghost use Rattle.std.specs.Prelude.{◌≡◌};
ghost use Rattle.std.specs.List.{list_any};
ghost use Rattle.hem_template.specs.Template.{same_hold, locks_fit, silent_fits, reads_me, guard_sees_me, scope_fits};

use crate::TemplateName;
use crate::row::Row;
use hem_syntax::{Atom, Hold, Rule};

/// Whether two needs are the same.
pub(crate) fn same_hold(a: Hold, b: Hold) -> bool
    ensures { result ≡ same_hold a b }
{
    match (a, b) {
        (Hold::Any, Hold::Any)
        | (Hold::Free, Hold::Free)
        | (Hold::Child, Hold::Child)
        | (Hold::Parent, Hold::Parent)
        | (Hold::Own, Hold::Own) => true,
        _ => false,
    }
}

/// Whether the rule needs the locks as its template does.
pub(crate) fn locks_fit(rule: &Rule, row: &Row) -> bool
    ensures { result ≡ locks_fit rule.now row.now }
{
    same_hold(rule.need.up, row.up) && same_hold(rule.need.down, row.down)
}

/// Whether a rule whose template sets nothing sets nothing.
pub(crate) fn silent_fits(rule: &Rule, row: &Row) -> bool
    ensures { result ≡ silent_fits rule.now row.now }
{
    row.may_set || rule.sets.len() == 0
}

/// Whether a condition reads the requester or the others.
fn reads_me(atom: Atom) -> bool
    ensures { result ≡ reads_me atom }
{
    matches!(atom, Atom::Me(_) | Atom::OthersAll(_) | Atom::OthersAny(_))
}

/// Whether a guard reads the requester or the others.
fn guard_reads_me(guard: &[Atom]) -> bool
    ensures { result ≡ list_any reads_me guard.now }
{
    guard.iter().any(|atom| reads_me(*atom))
}

/// Whether a template's guard may read the requester and the others.
fn guard_sees_me(name: TemplateName) -> bool
    ensures { result ≡ guard_sees_me name }
{
    !matches!(
        name,
        TemplateName::RqUp
            | TemplateName::RqUpSelf
            | TemplateName::ImmUp
            | TemplateName::RqDownDown
            | TemplateName::RsUpUp
    )
}

/// Whether the guard reads only what the template lets it read.
pub(crate) fn scope_fits(rule: &Rule, name: TemplateName) -> bool
    ensures { result ≡ scope_fits rule.now name }
{
    guard_sees_me(name) || !guard_reads_me(rule.guard.as_slice())
}
