//! Reads a part of a document, or finds its first fault.

ghost use Rattle.std.specs.Prelude.{◌≡◌, IfOk, OnOk, IfErr, OnErr};
ghost use Rattle.hem_text.specs.Grammars.{state};
ghost use Rattle.hem_text.specs.Parts.{IsPart};
ghost use Rattle.hem_text.specs.Faults.{IsFirstFault, refused_at};
ghost use Rattle.hem_text.specs.declared.reader.TextError.TheVariants.{OutOfMemory as Memory};

use crate::cursor::Cursor;
use crate::language::Language;
use crate::machine::{Refusal, step};
use crate::stack::Stack;
use crate::{Cause, Place, Symbol};
use hem_base::OutOfMemory;
use std::alloc::Global;

/// The first fault of a text.
#[derive(Clone, Copy, Debug, PartialEq, Eq)]
pub struct TextFault {
    pub place: Place,
    pub cause: Cause,
}

/// Why a text wasn't read.
#[derive(Clone, Copy, Debug, PartialEq, Eq)]
pub enum TextError {
    Text(TextFault),
    OutOfMemory,
}

impl From<OutOfMemory> for TextError {
    ghost from_gives = { λ _ e. e ≡ Memory };

    fn from(_e: OutOfMemory) -> TextError {
        TextError::OutOfMemory
    }
}

/// The answer to a token that wasn't read.
fn refused_at(refusal: Refusal, place: Place) -> TextError
    ensures { result ≡ refused_at place refusal }
{
    match refusal {
        Refusal::Fault(cause) => TextError::Text(TextFault { place, cause }),
        Refusal::OutOfMemory => TextError::OutOfMemory,
    }
}

/// Reads tokens until nothing is to come, and moves the cursor past them.
fn read<L: Language>(
    env: &mut L,
    stack: &mut Stack<L::Terminal, L::Item>,
    cursor: &mut Cursor<'_>,
) -> Result<(), TextError>
    ensures ok { OnOk result (IsPart L.grammar (state env.old stack.old) cursor.old.tokens cursor.new.tokens env.new) }
    ensures text { IfErr result (IsFirstFault L.grammar (state env.old stack.old) cursor.old.tokens cursor.old.end) }
    ensures end { cursor.new.end ≡ cursor.old.end }
    ensures stays { OnErr result (cursor.new ≡ cursor.old) }
{
    let mut ahead = cursor.from_here();
    while !stack.is_empty() {
        match ahead.next() {
            Some(token) => match step(env, stack, &token) {
                Ok(()) => {}
                Err(refusal) => return Err(refused_at(refusal, token.place())),
            },
            None => {
                return Err(TextError::Text(TextFault {
                    place: cursor.end(),
                    cause: Cause::Expected,
                }));
            }
        }
    }
    *cursor = ahead;
    Ok(())
}

/// Reads the part of a document that begins at the cursor, where nothing but the draft's start is read yet and `start` is
/// to come, and moves the cursor past it. An answer `Text` is the first fault: its place is that of the first token at
/// which no document goes on, or the end of the text. After an error the cursor stays where it was.
pub fn read_part<L: Language + Drop>(
    alloc: Global,
    cursor: &mut Cursor<'_>,
    draft: L,
    start: &[Symbol<L::Terminal, L::Item>],
) -> Result<L, TextError>
    ensures ok { IfOk result (λ read. IsPart L.grammar (state draft start.now) cursor.old.tokens cursor.new.tokens read) }
    ensures text { IfErr result (IsFirstFault L.grammar (state draft start.now) cursor.old.tokens cursor.old.end) }
    ensures end { cursor.new.end ≡ cursor.old.end }
    ensures stays { OnErr result (cursor.new ≡ cursor.old) }
{
    let mut env = draft;
    let mut stack = Stack::new(alloc);
    stack.put(start)?;
    match read(&mut env, &mut stack, cursor) {
        Ok(()) => Ok(env),
        Err(e) => Err(e),
    }
}
