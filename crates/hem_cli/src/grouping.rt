//! The job `group`: a history by transactions.

ghost use Rattle.std.specs.Prelude.{◌≡◌, ◌≤◌, length, string_bytes, IfOk};
ghost use Rattle.hem_words.specs.declared.job.Job.{Job};
ghost use Rattle.hem_cli.specs.Answer.{most_bytes, IsGroupReply, IsJobAnswer};
ghost use Rattle.hem_cli.specs.Grouping.{IsReplayed};

use crate::Status;
use crate::history_texts::{grouped_text, stopped_text};
use crate::preparing::{Prepared, Ready, prepare};
use crate::reply::{Reply, letting_go, reply_with, unread};
use hem_base::{Firing, OutOfMemory};
use hem_document::{Document, read_document};
use hem_regroup::{Regrouped, replay_and_regroup};
use hem_system::ReplayFault;
use hem_text::TextError;
use std::alloc::Global;
use std::thread::Threads;

/// The reply to a history over what is ready.
fn replayed<R: Threads + Sync>(
    rt: &R,
    alloc: Global,
    ready: &Ready,
    history: &[Firing],
) -> Result<Reply, OutOfMemory>
    ensures { IfOk result (λ r. IsReplayed ready.now.accepted ready.now.tree ready.now.work history.now r.status (string_bytes r.text)) }
{
    let p = ready.accepted.protocol();
    let tree = &ready.tree;
    match replay_and_regroup(rt, alloc, &ready.accepted, tree, &ready.work, history) {
        Ok(Regrouped { end, blocks }) => {
            let text = grouped_text(alloc, p, tree, &blocks, &end)?;
            Ok(reply_with(Status::Done, text))
        }
        Err(ReplayFault::Illegal { place, state }) => {
            let text = stopped_text(alloc, p, tree, place, &state)?;
            Ok(reply_with(Status::Illegal, text))
        }
        Err(ReplayFault::OutOfMemory) => Err(OutOfMemory),
    }
}

/// The reply to a document.
fn document_reply<R: Threads + Sync>(
    rt: &R,
    alloc: Global,
    document: Document,
) -> Result<Reply, OutOfMemory>
    ensures { IfOk result (λ r. IsGroupReply document r.status (string_bytes r.text)) }
{
    let Document { setup, history } = document;
    match prepare(alloc, setup)? {
        Prepared::ForJob(ready) => {
            let reply = replayed(rt, alloc, &ready, history.as_slice());
            letting_go(ready, reply)
        }
        Prepared::Answered(reply) => Ok(reply),
    }
}

/// The answer of `group` to a whole input.
pub(crate) fn grouped<R: Threads + Sync>(
    rt: &R,
    alloc: Global,
    bytes: &[u8],
) -> Result<Reply, OutOfMemory>
    requires { length bytes.now ≤ most_bytes }
    ensures { IfOk result (λ r. IsJobAnswer Job.Group bytes.now r.status (string_bytes r.text)) }
{
    match read_document(alloc, bytes) {
        Ok(document) => document_reply(rt, alloc, document),
        Err(TextError::Text(fault)) => unread(alloc, fault),
        Err(TextError::OutOfMemory) => Err(OutOfMemory),
    }
}
