//! The job `emit`: a protocol on a tree as modules.

ghost use Rattle.std.specs.Prelude.{◌≡◌, ◌≤◌, length, string_bytes, IfOk};
ghost use Rattle.hem_words.specs.declared.job.Job.{Job};
ghost use Rattle.hem_cli.specs.Answer.{most_bytes, IsJobAnswer};
ghost use Rattle.hem_cli.specs.Emitting.{IsEmitted, IsOnTree, IsEmitReply};

use crate::Status;
use crate::reply::{Reply, letting_go, refused, reply_with, unlawful, unread};
use hem_base::OutOfMemory;
use hem_check::{Accepted, check};
use hem_document::{TreeDocument, read_tree_document};
use hem_modprint::modules_text;
use hem_text::TextError;
use hem_translate::emit;
use hem_tree::{RawTree, SetupError, Tree};
use std::alloc::Global;

/// The text of the modules of a protocol on a tree.
fn emitted(alloc: Global, accepted: &Accepted, tree: &Tree) -> Result<String, OutOfMemory>
    ensures { IfOk result (λ text. IsEmitted accepted.now tree.now (string_bytes text)) }
{
    let modules = emit(alloc, accepted, tree)?;
    modules_text(alloc, &modules)
}

/// The reply to a disciplined protocol and a tree.
fn emitted_on(alloc: Global, accepted: &Accepted, raw: &RawTree) -> Result<Reply, OutOfMemory>
    ensures { IfOk result (λ r. IsOnTree accepted.now raw.now r.status (string_bytes r.text)) }
{
    match Tree::build(alloc, raw) {
        Ok(tree) => {
            let text = emitted(alloc, accepted, &tree)?;
            Ok(reply_with(Status::Done, text))
        }
        Err(SetupError::Setup(fault)) => unlawful(alloc, fault),
        Err(SetupError::OutOfMemory) => Err(OutOfMemory),
    }
}

/// The reply to a document.
fn document_reply(alloc: Global, document: TreeDocument) -> Result<Reply, OutOfMemory>
    ensures { IfOk result (λ r. IsEmitReply document r.status (string_bytes r.text)) }
{
    let TreeDocument { protocol, tree } = document;
    match check(protocol) {
        Ok(accepted) => {
            let reply = emitted_on(alloc, &accepted, &tree);
            letting_go(accepted, reply)
        }
        Err(refusal) => {
            let reply = refused(alloc, &refusal);
            letting_go(refusal, reply)
        }
    }
}

/// The answer of `emit` to a whole input.
pub(crate) fn emit_from(alloc: Global, bytes: &[u8]) -> Result<Reply, OutOfMemory>
    requires { length bytes.now ≤ most_bytes }
    ensures { IfOk result (λ r. IsJobAnswer Job.Emit bytes.now r.status (string_bytes r.text)) }
{
    match read_tree_document(alloc, bytes) {
        Ok(document) => document_reply(alloc, document),
        Err(TextError::Text(fault)) => unread(alloc, fault),
        Err(TextError::OutOfMemory) => Err(OutOfMemory),
    }
}
