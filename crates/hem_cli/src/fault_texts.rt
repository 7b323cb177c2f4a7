//! The texts of faults.

ghost use Rattle.std.specs.Prelude.{◌≡◌, IfOk, string_bytes};
ghost use Rattle.hem_cli.specs.Texts.{cause_text, rule_text, fault_text, setup_text};

use hem_base::OutOfMemory;
use hem_text::{Cause, Place, TextFault};
use hem_tree::{SetupCause, SetupFault};
use std::alloc::Global;

/// Why a token can't stand.
fn cause_text(cause: Cause) -> &'static str
    ensures { result.now ≡ cause_text cause }
{
    match cause {
        Cause::Unknown => "unknown",
        Cause::Repeated => "repeated",
        Cause::Expected => "expected",
        Cause::TooMany => "too many",
    }
}

/// Which rule of a tree or a work is broken.
fn rule_text(rule: SetupCause) -> &'static str
    ensures { result.now ≡ rule_text rule }
{
    match rule {
        SetupCause::Objects => "objects",
        SetupCause::Children => "children",
        SetupCause::Levels => "levels",
        SetupCause::Lines => "lines",
        SetupCause::SelfCount => "self",
        SetupCause::Object => "object",
        SetupCause::Line => "line",
        SetupCause::Request => "request",
        SetupCause::Requests => "requests",
        SetupCause::Starts => "starts",
    }
}

/// The first fault of a text.
pub(crate) fn fault_text(alloc: Global, fault: TextFault) -> Result<String, OutOfMemory>
    ensures { IfOk result (λ s. string_bytes s ≡ fault_text fault) }
{
    let Place { line, column } = fault.place;
    let cause = cause_text(fault.cause);
    Ok(format!(in alloc; "text {line}:{column} {cause}\n")?)
}

/// The first broken rule of a tree or a work.
pub(crate) fn setup_text(alloc: Global, fault: SetupFault) -> Result<String, OutOfMemory>
    ensures { IfOk result (λ s. string_bytes s ≡ setup_text fault) }
{
    let Place { line, column } = fault.place;
    let rule = rule_text(fault.cause);
    Ok(format!(in alloc; "setup {line}:{column} {rule}\n")?)
}
