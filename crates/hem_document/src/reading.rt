//! The reader of documents: each part in turn, and then the end.

ghost use Rattle.std.specs.Prelude.{◌≡◌, ◌<◌, [], length, IfOk, IfErr, OnOk};
ghost use Rattle.hem_document.specs.Fronts.{ReadsToTree, ReadsToWork, ReadsToHistory, IsFaultToTree, IsFaultToWork, IsFaultToHistory, OfFault};
ghost use Rattle.hem_document.specs.Documents.{IsTooLong, IsProtocolDocument, IsTreeDocument, IsWorkDocument, IsDocument, IsProtocolDocumentFault, IsTreeDocumentFault, IsWorkDocumentFault, IsDocumentFault};

use crate::documents::{Document, TreeDocument, WorkDocument};
use hem_base::List;
use hem_history::read_history;
use hem_parser::protocol;
use hem_syntax::Protocol;
use hem_text::{Cause, Cursor, TextError, TextFault};
use hem_tree::read_tree;
use hem_work::read_work;
use std::alloc::Global;

/// What was read first, with what was read after it.
pub(crate) fn joined<A: Drop, B>(
    first: A,
    second: Result<B, TextError>,
) -> Result<(A, B), TextError>
    ensures ok { IfOk result (λ both. (both.0 ≡ first) × (second ≡ Ok both.1)) }
    ensures err { IfErr result (λ e. second ≡ Err e) }
{
    match second {
        Ok(second) => Ok((first, second)),
        Err(e) => Err(e),
    }
}

/// Reads a protocol and a tree.
fn read_to_tree(alloc: Global, cursor: &mut Cursor<'_>) -> Result<TreeDocument, TextError>
    ensures ok { IfOk result (ReadsToTree cursor.old.tokens cursor.new.tokens) }
    ensures text { IfErr result (OfFault (IsFaultToTree cursor.old.tokens cursor.old.end)) }
    ensures end { cursor.new.end ≡ cursor.old.end }
{
    let protocol = protocol(alloc, cursor)?;
    let tree = read_tree(alloc, cursor);
    match joined(protocol, tree) {
        Ok((protocol, tree)) => Ok(TreeDocument { protocol, tree }),
        Err(e) => Err(e),
    }
}

/// Reads a protocol, a tree and a work.
fn read_to_work(alloc: Global, cursor: &mut Cursor<'_>) -> Result<WorkDocument, TextError>
    ensures ok { IfOk result (ReadsToWork cursor.old.tokens cursor.new.tokens) }
    ensures text { IfErr result (OfFault (IsFaultToWork cursor.old.tokens cursor.old.end)) }
    ensures end { cursor.new.end ≡ cursor.old.end }
{
    let before = read_to_tree(alloc, cursor)?;
    let work = read_work(alloc, cursor, &before.protocol);
    match joined(before, work) {
        Ok((TreeDocument { protocol, tree }, work)) => Ok(WorkDocument {
            protocol,
            tree,
            work,
        }),
        Err(e) => Err(e),
    }
}

/// Reads a protocol, a tree, a work and a history.
fn read_to_history(alloc: Global, cursor: &mut Cursor<'_>) -> Result<Document, TextError>
    ensures ok { IfOk result (ReadsToHistory cursor.old.tokens cursor.new.tokens) }
    ensures text { IfErr result (OfFault (IsFaultToHistory cursor.old.tokens cursor.old.end)) }
    ensures end { cursor.new.end ≡ cursor.old.end }
{
    let setup = read_to_work(alloc, cursor)?;
    let history = read_history(alloc, cursor, &setup.protocol);
    match joined(setup, history) {
        Ok((setup, history)) => Ok(Document {
            setup,
            history: List::from_vec(history),
        }),
        Err(e) => Err(e),
    }
}

/// What was read, where no token is left, and else the fault of the first that is.
pub(crate) fn ended<D: Drop>(cursor: &Cursor<'_>, document: D) -> Result<D, TextError>
    ensures same { IfOk result (λ d. d ≡ document) }
    ensures ok { OnOk result (cursor.now.tokens ≡ []) }
    ensures text { IfErr result (OfFault (IsTooLong cursor.now.tokens)) }
{
    match cursor.peek() {
        Some(token) => Err(TextError::Text(TextFault {
            place: token.place(),
            cause: Cause::Expected,
        })),
        None => Ok(document),
    }
}

/// The protocol that the bytes are, alone. An answer `Text` is their first fault.
pub fn read_protocol_document(alloc: Global, bytes: &[u8]) -> Result<Protocol, TextError>
    requires { length bytes.now < 4294967295 }
    ensures ok { IfOk result (IsProtocolDocument bytes.now) }
    ensures text { IfErr result (OfFault (IsProtocolDocumentFault bytes.now)) }
{
    let mut cursor = Cursor::new(bytes);
    let document = protocol(alloc, &mut cursor)?;
    ended(&cursor, document)
}

/// The protocol and the tree that the bytes are. An answer `Text` is their first fault.
pub fn read_tree_document(alloc: Global, bytes: &[u8]) -> Result<TreeDocument, TextError>
    requires { length bytes.now < 4294967295 }
    ensures ok { IfOk result (IsTreeDocument bytes.now) }
    ensures text { IfErr result (OfFault (IsTreeDocumentFault bytes.now)) }
{
    let mut cursor = Cursor::new(bytes);
    let document = read_to_tree(alloc, &mut cursor)?;
    ended(&cursor, document)
}

/// The protocol, the tree and the work that the bytes are. An answer `Text` is their first fault.
pub fn read_work_document(alloc: Global, bytes: &[u8]) -> Result<WorkDocument, TextError>
    requires { length bytes.now < 4294967295 }
    ensures ok { IfOk result (IsWorkDocument bytes.now) }
    ensures text { IfErr result (OfFault (IsWorkDocumentFault bytes.now)) }
{
    let mut cursor = Cursor::new(bytes);
    let document = read_to_work(alloc, &mut cursor)?;
    ended(&cursor, document)
}

/// The document that the bytes are: protocol, tree, work and history. An answer `Text` is their first fault.
pub fn read_document(alloc: Global, bytes: &[u8]) -> Result<Document, TextError>
    requires { length bytes.now < 4294967295 }
    ensures ok { IfOk result (IsDocument bytes.now) }
    ensures text { IfErr result (OfFault (IsDocumentFault bytes.now)) }
{
    let mut cursor = Cursor::new(bytes);
    let document = read_to_history(alloc, &mut cursor)?;
    ended(&cursor, document)
}
