//! Works as their text gives them.

ghost use Rattle.std.specs.Prelude.{◌≡◌, IfOk, IfErr, OnErr};
ghost use Rattle.hem_text.specs.Grammars.{state};
ghost use Rattle.hem_text.specs.Faults.{IsFirstFault};
ghost use Rattle.hem_work.specs.Grammar.{start, grammar, nothing};
ghost use Rattle.hem_work.specs.WorkReading.{ReadsWork, raw_of};

use crate::draft::{WorkDraft, nothing, start};
use hem_base::{List, Message};
use hem_syntax::Protocol;
use hem_text::{Cursor, Place, TextError, read_part};
use std::alloc::Global;

/// An entry of a work's text: an object and a line, each as a number with its place, and requests, each with the place of
/// its message's name.
#[derive(Debug, Drop)]
pub struct RawEntry {
    pub object: (u32, Place),
    pub line: (u32, Place),
    pub requests: List<(Message, Place)>,
}

/// A work as its text gives it: the place of its word `work`, the number of lines and the number of self firings, each
/// with its place, and the entries.
#[derive(Debug, Drop)]
pub struct RawWork {
    pub place: Place,
    pub lines: (u32, Place),
    pub self_count: (u32, Place),
    pub entries: List<RawEntry>,
}

/// What has been read.
fn raw_of(draft: WorkDraft<'_>) -> RawWork
    ensures { result ≡ raw_of draft.entry }
{
    RawWork {
        place: draft.place,
        lines: draft.lines,
        self_count: draft.self_count,
        entries: draft.entries,
    }
}

/// Reads the work that begins at the cursor, with the messages of the protocol, and moves the cursor past it. An answer
/// `Text` is the first fault. After an error the cursor stays where it was.
pub fn read_work(alloc: Global, cursor: &mut Cursor<'_>, p: &Protocol) -> Result<RawWork, TextError>
    ensures ok { IfOk result (ReadsWork p.now cursor.old.tokens cursor.new.tokens) }
    ensures text { IfErr result (IsFirstFault grammar (state (nothing p.now) start) cursor.old.tokens cursor.old.end) }
    ensures end { cursor.new.end ≡ cursor.old.end }
    ensures stays { OnErr result (cursor.new ≡ cursor.old) }
{
    let begin = nothing(alloc, p);
    match read_part(alloc, cursor, begin, start()) {
        Ok(draft) => Ok(raw_of(draft)),
        Err(e) => Err(e),
    }
}
