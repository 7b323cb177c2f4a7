//! The jobs `run` and `walk`: from the start of a work to its end.

ghost use Rattle.std.specs.Prelude.{◌≡◌, ◌≤◌, length, string_bytes, Some, IfOk};
ghost use Rattle.hem_work.specs.Lawful.{IsLawfulWork};
ghost use Rattle.hem_document.specs.Documents.{IsWorkDocument, IsWorkDocumentFault};
ghost use Rattle.hem_cli.specs.Refusals.{IsAnswerTo};
ghost use Rattle.hem_cli.specs.Answer.{most_bytes, IsEndReply};
ghost use Rattle.hem_cli.specs.Running.{IsToEnd, MayMake, IsTold, ComesTo, IsSummed, IsEndOf};

use crate::Status;
use crate::history_texts::ended_text;
use crate::preparing::{Prepared, Ready, prepare};
use crate::reply::{Reply, letting_go, reply_with, unlawful, unread};
use crate::summary::{summary_text, tally_of};
use hem_base::{Firing, Gate, List, OutOfMemory};
use hem_document::{WorkDocument, read_work_document};
use hem_regroup::{RegroupFault, regroup};
use hem_ring::RingNet;
use hem_runner::{Ran, Tally, run, tally_run};
use hem_system::System;
use hem_text::TextError;
use hem_tree::SetupError;
use hem_walk::{Walked, walk};
use hem_work::Work;
use std::alloc::Global;
use std::thread::Threads;

/// Who makes the firings of a history to its end.
#[derive(Clone, Copy)]
pub(crate) enum Maker {
    /// A worker for each object.
    Workers,
    /// One thread, by the draws from a seed.
    OneThread { seed: u64 },
}

/// A history to its end: its firings in order, and the state to which they lead.
#[derive(Drop)]
struct ToEnd {
    journal: List<Firing>,
    end: System,
}

/// A history from the start of a work over what is ready to its end.
fn history<R: Threads + Sync, G: Gate>(
    rt: &R,
    alloc: Global,
    gate: &G,
    maker: Maker,
    ready: &Ready,
) -> Result<ToEnd, OutOfMemory>
    requires { IsLawfulWork ready.now.accepted ready.now.tree ready.now.work }
    ensures to_end { IfOk result (λ h. IsToEnd ready.now.accepted ready.now.tree ready.now.work h.journal h.end) }
    ensures made { IfOk result (λ h. MayMake maker ready.now.accepted ready.now.tree ready.now.work h.journal h.end) }
{
    let Ready {
        accepted,
        tree,
        work,
    } = ready;
    match maker {
        Maker::Workers => {
            let mut net = RingNet::new();
            let Ran { journal, system } = run(rt, alloc, accepted, tree, work, &mut net, gate)?;
            Ok(ToEnd {
                journal,
                end: system,
            })
        }
        Maker::OneThread { seed } => {
            let Walked { journal, system } = walk(alloc, accepted, tree, work, seed)?;
            Ok(ToEnd {
                journal,
                end: system,
            })
        }
    }
}

/// The text of a history to its end, with its blocks.
fn told<R: Threads + Sync, G: Gate>(
    rt: &R,
    alloc: Global,
    gate: &G,
    maker: Maker,
    ready: &Ready,
) -> Result<String, OutOfMemory>
    requires { IsLawfulWork ready.now.accepted ready.now.tree ready.now.work }
    ensures { IfOk result (λ text. IsTold maker ready.now.accepted ready.now.tree ready.now.work (string_bytes text)) }
{
    let p = ready.accepted.protocol();
    let tree = &ready.tree;
    let ToEnd { journal, end } = history(rt, alloc, gate, maker, ready)?;
    match regroup(
        rt,
        alloc,
        &ready.accepted,
        tree,
        &ready.work,
        journal.as_slice(),
    ) {
        Ok(blocks) => ended_text(alloc, p, tree, journal.as_slice(), &blocks, &end),
        Err(RegroupFault::OutOfMemory) => Err(OutOfMemory),
    }
}

/// What a history over a work to its end comes to. That of workers is read off the workers, without a journal.
fn tallied<R: Threads + Sync, G: Gate>(
    rt: &R,
    alloc: Global,
    gate: &G,
    maker: Maker,
    ready: &Ready,
    work: &Work,
) -> Result<Tally, OutOfMemory>
    requires { IsLawfulWork ready.now.accepted ready.now.tree work.now }
    ensures { IfOk result (λ t. ComesTo maker ready.now.accepted ready.now.tree work.now t.quiet t.answers) }
{
    let (accepted, tree) = (&ready.accepted, &ready.tree);
    match maker {
        Maker::Workers => {
            let mut net = RingNet::new();
            tally_run(rt, alloc, accepted, tree, work, &mut net, gate)
        }
        Maker::OneThread { seed } => {
            let Walked { system, .. } = walk(alloc, accepted, tree, work, seed)?;
            tally_of(&system).ok_or(OutOfMemory)
        }
    }
}

/// The text of what a history over a work to its end comes to.
fn summed<R: Threads + Sync, G: Gate>(
    rt: &R,
    alloc: Global,
    gate: &G,
    maker: Maker,
    ready: &Ready,
    work: &Work,
) -> Result<String, OutOfMemory>
    requires { IsLawfulWork ready.now.accepted ready.now.tree work.now }
    ensures { IfOk result (λ text. IsSummed maker ready.now.accepted ready.now.tree work.now (string_bytes text)) }
{
    let tally = tallied(rt, alloc, gate, maker, ready, work)?;
    summary_text(alloc, &ready.tree, work, tally)
}

/// The reply with so many generated requests.
fn counted<R: Threads + Sync, G: Gate>(
    rt: &R,
    alloc: Global,
    gate: &G,
    maker: Maker,
    ready: &Ready,
    count: u32,
    seed: u64,
) -> Result<Reply, OutOfMemory>
    requires { IsLawfulWork ready.now.accepted ready.now.tree ready.now.work }
    ensures { IfOk result (λ r. IsEndOf maker (Some count) seed ready.now.accepted ready.now.tree ready.now.work r.status (string_bytes r.text)) }
{
    let p = ready.accepted.protocol();
    match ready.work.make(alloc, p, &ready.tree, count, seed) {
        Ok(work) => {
            let text = summed(rt, alloc, gate, maker, ready, &work)?;
            Ok(reply_with(Status::Done, text))
        }
        Err(SetupError::Setup(fault)) => unlawful(alloc, fault),
        Err(SetupError::OutOfMemory) => Err(OutOfMemory),
    }
}

/// The reply with a count or without.
fn end_of<R: Threads + Sync, G: Gate>(
    rt: &R,
    alloc: Global,
    gate: &G,
    maker: Maker,
    ready: &Ready,
    count: Option<u32>,
    seed: u64,
) -> Result<Reply, OutOfMemory>
    requires { IsLawfulWork ready.now.accepted ready.now.tree ready.now.work }
    ensures { IfOk result (λ r. IsEndOf maker count seed ready.now.accepted ready.now.tree ready.now.work r.status (string_bytes r.text)) }
{
    match count {
        Some(count) => counted(rt, alloc, gate, maker, ready, count, seed),
        None => {
            let text = told(rt, alloc, gate, maker, ready)?;
            Ok(reply_with(Status::Done, text))
        }
    }
}

/// The reply to a document.
fn document_reply<R: Threads + Sync, G: Gate>(
    rt: &R,
    alloc: Global,
    gate: &G,
    maker: Maker,
    document: WorkDocument,
    count: Option<u32>,
    seed: u64,
) -> Result<Reply, OutOfMemory>
    ensures { IfOk result (λ r. IsEndReply maker count seed document r.status (string_bytes r.text)) }
{
    match prepare(alloc, document)? {
        Prepared::ForJob(ready) => {
            let reply = end_of(rt, alloc, gate, maker, &ready, count, seed);
            letting_go(ready, reply)
        }
        Prepared::Answered(reply) => Ok(reply),
    }
}

/// The answer of `run` or `walk` to a whole input.
pub(crate) fn end_from<R: Threads + Sync, G: Gate>(
    rt: &R,
    alloc: Global,
    gate: &G,
    maker: Maker,
    count: Option<u32>,
    seed: u64,
    bytes: &[u8],
) -> Result<Reply, OutOfMemory>
    requires { length bytes.now ≤ most_bytes }
    ensures { IfOk result (λ r. IsAnswerTo (IsWorkDocumentFault bytes.now) (IsWorkDocument bytes.now) (IsEndReply maker count seed) r.status (string_bytes r.text)) }
{
    match read_work_document(alloc, bytes) {
        Ok(document) => document_reply(rt, alloc, gate, maker, document, count, seed),
        Err(TextError::Text(fault)) => unread(alloc, fault),
        Err(TextError::OutOfMemory) => Err(OutOfMemory),
    }
}
