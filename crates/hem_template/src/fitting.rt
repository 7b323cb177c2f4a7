//! The template of a rule.

ghost use Rattle.std.specs.Prelude.{◌≡◌};
ghost use Rattle.hem_template.specs.Template.{fitted, template_of};

use crate::class::class_fits;
use crate::level::level_fits;
use crate::names::names_fit;
use crate::row::row_of;
use crate::scope::{locks_fit, scope_fits, silent_fits};
use crate::shape::shape_of;
use crate::{Clause, TemplateName};
use hem_base::Kind;
use hem_syntax::{Protocol, Rule};

/// The template whose shape the rule has, or the first of the clauses that are left that the rule fails.
fn fitted(p: &Protocol, kind: Kind, rule: &Rule, name: TemplateName) -> Result<TemplateName, Clause>
    ensures { result ≡ fitted p.now kind rule.now name }
{
    let row = row_of(name);
    if !locks_fit(rule, &row) {
        return Err(Clause::Locks);
    }
    if !silent_fits(rule, &row) {
        return Err(Clause::Silent);
    }
    if !scope_fits(rule, name) {
        return Err(Clause::Scope);
    }
    if !names_fit(p, kind, rule, &row) {
        return Err(Clause::Names);
    }
    Ok(name)
}

/// The template of a rule of the kind, or the first of the seven clauses that the rule fails: level, class, shape,
/// locks, silent, scope, names. It takes no memory.
pub fn template(p: &Protocol, kind: Kind, rule: &Rule) -> Result<TemplateName, Clause>
    ensures { result ≡ template_of p.now kind rule.now }
{
    if !level_fits(kind, rule) {
        return Err(Clause::Level);
    }
    if !class_fits(p, kind, rule) {
        return Err(Clause::Class);
    }
    match shape_of(p, rule) {
        Some(name) => fitted(p, kind, rule, name),
        None => Err(Clause::Shape),
    }
}
