//! The reader of modules and of what their queues are fed.

ghost use Rattle.std.specs.Prelude.{◌≡◌, ◌<◌, length, IfOk, IfErr};
ghost use Rattle.hem_document.specs.Fronts.{OfFault};
ghost use Rattle.hem_document.specs.Playing.{ReadsToFeed, IsFaultToFeed, IsPlayDocument, IsPlayDocumentFault};

use crate::documents::PlayDocument;
use crate::reading::{ended, joined};
use hem_base::List;
use hem_modtext::{read_feed, read_modules};
use hem_text::{Cursor, TextError};
use std::alloc::Global;

/// Reads modules, and a feed of their queues.
fn read_to_feed(alloc: Global, cursor: &mut Cursor<'_>) -> Result<PlayDocument, TextError>
    ensures ok { IfOk result (ReadsToFeed cursor.old.tokens cursor.new.tokens) }
    ensures text { IfErr result (OfFault (IsFaultToFeed cursor.old.tokens cursor.old.end)) }
    ensures end { cursor.new.end ≡ cursor.old.end }
{
    let modules = read_modules(alloc, cursor)?;
    let feed = read_feed(alloc, cursor, &modules);
    match joined(modules, feed) {
        Ok((modules, feed)) => Ok(PlayDocument {
            modules,
            feed: List::from_vec(feed),
        }),
        Err(e) => Err(e),
    }
}

/// The modules and the feed that the bytes are. An answer `Text` is their first fault.
pub fn read_play_document(alloc: Global, bytes: &[u8]) -> Result<PlayDocument, TextError>
    requires { length bytes.now < 4294967295 }
    ensures ok { IfOk result (IsPlayDocument bytes.now) }
    ensures text { IfErr result (OfFault (IsPlayDocumentFault bytes.now)) }
{
    let mut cursor = Cursor::new(bytes);
    let document = read_to_feed(alloc, &mut cursor)?;
    ended(&cursor, document)
}
