//! The job `check`: whether a protocol is disciplined.

ghost use Rattle.std.specs.Prelude.{◌≡◌, ◌≤◌, length, string_bytes, IfOk};
ghost use Rattle.hem_cli.specs.Answer.{most_bytes, IsVerdict, IsJobAnswer};
ghost use Rattle.hem_words.specs.declared.job.Job.{Job};

use crate::Status;
use crate::reply::{Reply, letting_go, refused, reply_with, unread};
use hem_base::OutOfMemory;
use hem_check::check;
use hem_document::read_protocol_document;
use hem_report::accepted_text;
use hem_syntax::Protocol;
use hem_text::TextError;
use std::alloc::Global;

/// The answer to a protocol.
fn verdict(alloc: Global, protocol: Protocol) -> Result<Reply, OutOfMemory>
    ensures { IfOk result (λ r. IsVerdict protocol r.status (string_bytes r.text)) }
{
    match check(protocol) {
        Ok(accepted) => {
            let text = accepted_text(alloc, &accepted);
            Ok(reply_with(Status::Done, letting_go(accepted, text)?))
        }
        Err(refusal) => {
            let reply = refused(alloc, &refusal);
            letting_go(refusal, reply)
        }
    }
}

/// The answer of `check` to a whole input.
pub(crate) fn checked(alloc: Global, bytes: &[u8]) -> Result<Reply, OutOfMemory>
    requires { length bytes.now ≤ most_bytes }
    ensures { IfOk result (λ r. IsJobAnswer Job.Check bytes.now r.status (string_bytes r.text)) }
{
    match read_protocol_document(alloc, bytes) {
        Ok(protocol) => verdict(alloc, protocol),
        Err(TextError::Text(fault)) => unread(alloc, fault),
        Err(TextError::OutOfMemory) => Err(OutOfMemory),
    }
}
