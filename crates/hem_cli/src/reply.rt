//! Replies: a status and the text that goes with it.

ghost use Rattle.std.specs.Prelude.{◌≡◌, Some, option_map, string_bytes, IfOk};
ghost use Rattle.hem_syntax.specs.Protocol.{Protocol};
ghost use Rattle.hem_check.specs.Discipline.{first_broken};
ghost use Rattle.hem_check.specs.Refused.{refusal_of};
ghost use Rattle.hem_cli.specs.Refusals.{IsRefused};
ghost use Rattle.hem_cli.specs.Texts.{fault_text, setup_text};
ghost use Rattle.hem_cli.specs.declared.status.Status.{Status};

use crate::Status;
use crate::fault_texts::{fault_text, setup_text};
use hem_base::OutOfMemory;
use hem_check::Refusal;
use hem_report::refusal_text;
use hem_text::TextFault;
use hem_tree::SetupFault;
use std::alloc::Global;

/// A status and the text that goes with it.
#[derive(Drop)]
pub(crate) struct Reply {
    pub(crate) status: Status,
    pub(crate) text: String,
}

/// The answer, with what it was made from let go.
pub(crate) fn letting_go<A: Drop, B>(_made_from: A, answer: B) -> B
    ensures { result ≡ answer }
{
    answer
}

/// The reply of a status with a promised text.
pub(crate) fn reply_of(alloc: Global, status: Status, text: &str) -> Result<Reply, OutOfMemory>
    ensures status { IfOk result (λ r. r.status ≡ status) }
    ensures text { IfOk result (λ r. string_bytes r.text ≡ text.now) }
{
    let text = String::from_str(alloc, text)?;
    Ok(Reply { status, text })
}

/// The reply of a status with a text of the program's own.
pub(crate) fn reply_with(status: Status, text: String) -> Reply
    ensures status { result.status ≡ status }
    ensures text { string_bytes result.text ≡ string_bytes text }
{
    Reply { status, text }
}

/// The reply to bytes with a fault.
pub(crate) fn unread(alloc: Global, fault: TextFault) -> Result<Reply, OutOfMemory>
    ensures status { IfOk result (λ r. r.status ≡ Status.Text) }
    ensures text { IfOk result (λ r. string_bytes r.text ≡ fault_text fault) }
{
    let text = fault_text(alloc, fault)?;
    Ok(reply_with(Status::Text, text))
}

/// The reply to a protocol that isn't disciplined.
pub(crate) fn refused(alloc: Global, refusal: &Refusal) -> Result<Reply, OutOfMemory>
    ensures status { IfOk result (λ r. r.status ≡ Status.Refused) }
    ensures text { IfOk result (λ r. (p : Protocol) → option_map (refusal_of p) (first_broken p) ≡ Some refusal.now → IsRefused p (string_bytes r.text)) }
{
    let text = refusal_text(alloc, refusal)?;
    Ok(reply_with(Status::Refused, text))
}

/// The reply to a document of which the tree or the work isn't lawful.
pub(crate) fn unlawful(alloc: Global, fault: SetupFault) -> Result<Reply, OutOfMemory>
    ensures status { IfOk result (λ r. r.status ≡ Status.Setup) }
    ensures text { IfOk result (λ r. string_bytes r.text ≡ setup_text fault) }
{
    let text = setup_text(alloc, fault)?;
    Ok(reply_with(Status::Setup, text))
}
