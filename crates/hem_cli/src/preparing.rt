//! The preparing of a document for its job: its protocol is checked, and then its tree and its work.

ghost use Rattle.std.specs.Prelude.{◌≡◌, IfOk};
ghost use Rattle.hem_check.specs.Discipline.{IsDisciplined};
ghost use Rattle.hem_document.specs.SetUp.{document_of};
ghost use Rattle.hem_cli.specs.Preparing.{IsPrepared};

use crate::reply::{Reply, letting_go, refused, unlawful};
use hem_base::OutOfMemory;
use hem_check::{Accepted, check};
use hem_document::{Lawful, WorkDocument, set_up};
use hem_tree::{RawTree, SetupError, Tree};
use hem_work::{RawWork, Work};
use std::alloc::Global;

/// A disciplined protocol, and a lawful tree and a lawful work over it.
#[derive(Drop)]
pub(crate) struct Ready {
    pub(crate) accepted: Accepted,
    pub(crate) tree: Tree,
    pub(crate) work: Work,
}

/// A document that is ready for its job, or that has its reply before it.
#[derive(Drop)]
pub(crate) enum Prepared {
    ForJob(Ready),
    Answered(Reply),
}

/// Prepares a document with a disciplined protocol.
fn prepare_over(
    alloc: Global,
    accepted: Accepted,
    tree: &RawTree,
    work: &RawWork,
) -> Result<Prepared, OutOfMemory>
    ensures { IfOk result (IsPrepared (document_of accepted tree.now work.now)) }
{
    match set_up(alloc, accepted.protocol(), tree, work) {
        Ok(Lawful { tree, work }) => Ok(Prepared::ForJob(Ready {
            accepted,
            tree,
            work,
        })),
        Err(SetupError::Setup(fault)) => Ok(Prepared::Answered(unlawful(alloc, fault)?)),
        Err(SetupError::OutOfMemory) => Err(OutOfMemory),
    }
}

/// Prepares a document for its job.
pub(crate) fn prepare(alloc: Global, document: WorkDocument) -> Result<Prepared, OutOfMemory>
    ensures { IfOk result (IsPrepared document) }
{
    let WorkDocument {
        protocol,
        tree,
        work,
    } = document;
    match check(protocol) {
        Ok(accepted) => prepare_over(alloc, accepted, &tree, &work),
        Err(refusal) => {
            let reply = refused(alloc, &refusal);
            Ok(Prepared::Answered(letting_go(refusal, reply)?))
        }
    }
}
