//! The job `make`: a document with generated requests.

ghost use Rattle.std.specs.Prelude.{◌≡◌, ◌≤◌, ◌<◌, ◌++◌, length, string_bytes, option_map, IsTrue, IfOk};
ghost use Rattle.hem_base.specs.Words.{is_word_text};
ghost use Rattle.hem_text.specs.Tokens.{tokens_of};
ghost use Rattle.hem_words.specs.declared.job.Job.{Job};
ghost use Rattle.hem_work.specs.Lawful.{IsLawfulWork};
ghost use Rattle.hem_document.specs.Documents.{IsWorkDocument};
ghost use Rattle.hem_cli.specs.Generating.{IsGenerated};
ghost use Rattle.hem_cli.specs.Making.{used_name, UsesWord, use_line, protocol_part, made_text};
ghost use Rattle.hem_cli.specs.Answer.{most_bytes, IsMakeReply, IsJobAnswer};

use crate::Status;
use crate::preparing::{Prepared, Ready, prepare};
use crate::reply::{Reply, letting_go, unlawful, unread};
use hem_base::{OutOfMemory, Reserved};
use hem_document::{WorkDocument, read_work_document};
use hem_print::protocol_text;
use hem_syntax::Protocol;
use hem_text::{Cursor, TextError};
use hem_tree::SetupError;
use hem_work::Work;
use hem_worktext::{tree_text, work_text};
use std::alloc::Global;

/// The name of the shipped protocol that a document uses, where it begins with `use`.
fn used_name(bytes: &[u8]) -> Option<&[u8]>
    requires { length bytes.now ≤ most_bytes }
    ensures { option_map (λ name. name.now) result ≡ used_name (tokens_of bytes.now) }
{
    let mut cursor = Cursor::new(bytes);
    let first = cursor.next()?;
    let name = cursor.next()?;
    if first.is_the_word(Reserved::Use) {
        Some(name.text())
    } else {
        None
    }
}

/// The line of a shipped protocol.
fn use_line(alloc: Global, name: &[u8]) -> Result<String, OutOfMemory>
    requires { IsTrue (is_word_text name.now) }
    ensures { IfOk result (λ text. string_bytes text ≡ use_line name.now) }
{
    match str::from_utf8(name) {
        Ok(name) => Ok(format!(in alloc; "use {name}\n")?),
        Err(_) => unreachable!("a word is ASCII"),
    }
}

/// The protocol of a document: its line `use NAME` where it has one, else the protocol written out.
fn protocol_part(alloc: Global, bytes: &[u8], p: &Protocol) -> Result<String, OutOfMemory>
    requires short { length bytes.now ≤ most_bytes }
    requires word { UsesWord bytes.now }
    ensures { IfOk result (λ text. string_bytes text ≡ protocol_part bytes.now p.now) }
{
    match used_name(bytes) {
        Some(name) => use_line(alloc, name),
        None => protocol_text(alloc, p),
    }
}

/// The text of a document of these bytes with another work.
fn made_text(alloc: Global, bytes: &[u8], ready: &Ready, work: &Work) -> Result<String, OutOfMemory>
    requires short { length bytes.now ≤ most_bytes }
    requires word { UsesWord bytes.now }
    ensures { IfOk result (λ text. string_bytes text ≡ made_text bytes.now ready.now.accepted ready.now.tree work.now) }
{
    let p = ready.accepted.protocol();
    let mut text = protocol_part(alloc, bytes, p)?;
    let tree = tree_text(alloc, &ready.tree)?;
    text.push_str(&tree)?;
    let work = work_text(alloc, p, work)?;
    text.push_str(&work)?;
    Ok(text)
}

/// The reply with so many generated requests.
fn made(
    alloc: Global,
    bytes: &[u8],
    ready: &Ready,
    count: u32,
    seed: u64,
) -> Result<Reply, OutOfMemory>
    requires short { length bytes.now ≤ most_bytes }
    requires word { UsesWord bytes.now }
    requires lawful { IsLawfulWork ready.now.accepted ready.now.tree ready.now.work }
    ensures { IfOk result (λ r. IsGenerated ready.now.accepted ready.now.tree ready.now.work count seed (λ with_more text. text ≡ made_text bytes.now ready.now.accepted ready.now.tree with_more) r.status (string_bytes r.text)) }
{
    let p = ready.accepted.protocol();
    match ready.work.make(alloc, p, &ready.tree, count, seed) {
        Ok(work) => Ok(Reply {
            status: Status::Done,
            text: made_text(alloc, bytes, ready, &work)?,
        }),
        Err(SetupError::Setup(fault)) => unlawful(alloc, fault),
        Err(SetupError::OutOfMemory) => Err(OutOfMemory),
    }
}

/// The reply to a document of these bytes.
fn document_reply(
    alloc: Global,
    bytes: &[u8],
    document: WorkDocument,
    count: u32,
    seed: u64,
) -> Result<Reply, OutOfMemory>
    requires short { length bytes.now ≤ most_bytes }
    requires reads { IsWorkDocument bytes.now document }
    ensures { IfOk result (λ r. IsMakeReply bytes.now count seed document r.status (string_bytes r.text)) }
{
    match prepare(alloc, document)? {
        Prepared::ForJob(ready) => {
            let reply = made(alloc, bytes, &ready, count, seed);
            letting_go(ready, reply)
        }
        Prepared::Answered(reply) => Ok(reply),
    }
}

/// The answer of `make` to a whole input.
pub(crate) fn make(alloc: Global, count: u32, seed: u64, bytes: &[u8]) -> Result<Reply, OutOfMemory>
    requires { length bytes.now ≤ most_bytes }
    ensures { IfOk result (λ r. IsJobAnswer (Job.Make count seed) bytes.now r.status (string_bytes r.text)) }
{
    match read_work_document(alloc, bytes) {
        Ok(document) => document_reply(alloc, bytes, document, count, seed),
        Err(TextError::Text(fault)) => unread(alloc, fault),
        Err(TextError::OutOfMemory) => Err(OutOfMemory),
    }
}
