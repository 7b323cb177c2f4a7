//! The job `play`: modules, with their queues fed, at work.

ghost use Rattle.std.specs.Prelude.{◌≡◌, ◌≤◌, length, fold, string_bytes, IfOk, OnOk};
ghost use Rattle.hem_words.specs.declared.job.Job.{Job};
ghost use Rattle.hem_cli.specs.Answer.{most_bytes, IsJobAnswer};
ghost use Rattle.hem_cli.specs.Playing.{fed_one, fed_start, IsPlay, IsPlayReply};

use crate::Status;
use crate::reply::{Reply, letting_go, reply_with, unread};
use hem_base::OutOfMemory;
use hem_document::{PlayDocument, read_play_document};
use hem_modprint::play_text;
use hem_modtext::Fed;
use hem_module::{ModState, Modules, play};
use hem_text::TextError;
use std::alloc::Global;

/// Feeds a queue an item. One that isn't there is fed nothing.
#[tactic(auto, using(crate::proofs::PlayOnce::fed_nowhere))]
fn feed_one(s: &mut ModState, fed: Fed) -> Result<(), OutOfMemory>
    ensures { OnOk result (s.new ≡ fed_one s.old fed) }
{
    if fed.queue < s.queue_count() {
        s.feed(fed.queue, fed.item)
    } else {
        Ok(())
    }
}

/// Feeds queues their items, one after another.
fn feed_all(s: &mut ModState, feed: &[Fed]) -> Result<(), OutOfMemory>
    ensures { OnOk result (s.new ≡ fold fed_one s.old feed.now) }
{
    for fed in feed {
        feed_one(s, *fed)?;
    }
    Ok(())
}

/// The state of modules at the start, with their queues fed.
fn fed_start(alloc: Global, m: &Modules, feed: &[Fed]) -> Result<ModState, OutOfMemory>
    ensures { IfOk result (λ s. s ≡ fed_start m.now feed.now) }
{
    let mut s = ModState::start(alloc, m)?;
    feed_all(&mut s, feed)?;
    Ok(s)
}

/// The text of a play of modules with their queues fed.
fn played(alloc: Global, m: &Modules, feed: &[Fed], most: u32) -> Result<String, OutOfMemory>
    ensures { IfOk result (λ text. IsPlay m.now feed.now most (string_bytes text)) }
{
    let mut s = fed_start(alloc, m, feed)?;
    let played = play(alloc, m, &mut s, most)?;
    play_text(alloc, m, &s, played)
}

/// The reply to a document.
fn document_reply(alloc: Global, document: PlayDocument, most: u32) -> Result<Reply, OutOfMemory>
    ensures { IfOk result (λ r. IsPlayReply most document r.status (string_bytes r.text)) }
{
    let text = played(alloc, &document.modules, document.feed.as_slice(), most);
    Ok(reply_with(Status::Done, letting_go(document, text)?))
}

/// The answer of `play` to a whole input.
pub(crate) fn play_from(alloc: Global, most: u32, bytes: &[u8]) -> Result<Reply, OutOfMemory>
    requires { length bytes.now ≤ most_bytes }
    ensures { IfOk result (λ r. IsJobAnswer (Job.Play most) bytes.now r.status (string_bytes r.text)) }
{
    match read_play_document(alloc, bytes) {
        Ok(document) => document_reply(alloc, document, most),
        Err(TextError::Text(fault)) => unread(alloc, fault),
        Err(TextError::OutOfMemory) => Err(OutOfMemory),
    }
}
