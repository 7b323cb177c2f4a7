//! Laws of the discipline. Each function does nothing, and its contract is a law.

ghost use Rattle.std.specs.Prelude.{◌≡◌, ◌↔◌, None};
ghost use Rattle.hem_syntax.specs.Protocol.{Protocol};
ghost use Rattle.hem_rows.specs.Rows.{AllHaveTemplates};
ghost use Rattle.hem_abstract.specs.Stable.{IsStable};
ghost use Rattle.hem_check.specs.Discipline.{IsDisciplined, first_broken};

/// In a disciplined protocol each rule has a template, and each upward request is stable.
pub fn disciplined_protocols_are_templated_and_stable()
    ensures templates { (p : Protocol) → IsDisciplined p → AllHaveTemplates p }
    ensures stable { (p : Protocol) → IsDisciplined p → IsStable p }
{}

/// A protocol is disciplined exactly where no rule is the first that breaks a clause.
pub fn first_broken_rules_are_exact()
    ensures { (p : Protocol) → (first_broken p ≡ None) ↔ IsDisciplined p }
{}
