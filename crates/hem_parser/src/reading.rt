//! Reads a protocol, written out or by its name.

ghost use Rattle.std.specs.Prelude.{◌≡◌, true, Some, IfOk, IfErr, OnErr};
ghost use Rattle.hem_parser.specs.ProtocolReading.{ReadsProtocol, IsFirstProtocolFault, IsUsedAs, begins_use, use_cause};

use crate::shipped_text::by_name;
use crate::written::written;
use hem_base::{OutOfMemory, Reserved};
use hem_syntax::Protocol;
use hem_text::{Cause, Cursor, Lexeme, TextError, TextFault};
use std::alloc::Global;

/// Whether the token at the cursor is the word `use`.
fn begins_use(cursor: &Cursor<'_>) -> bool
    ensures { result ≡ begins_use cursor.now.tokens }
{
    match cursor.peek() {
        Some(token) => token.is_the_word(Reserved::Use),
        None => false,
    }
}

/// Why a token names no shipped protocol.
fn use_cause(token: &Lexeme<'_>) -> Cause
    ensures { result ≡ use_cause (Some token.now) }
{
    if token.is_name() {
        Cause::Unknown
    } else {
        Cause::Expected
    }
}

/// The shipped protocol that a token names.
fn named(alloc: Global, token: &Lexeme<'_>) -> Result<Option<Protocol>, OutOfMemory>
    ensures { IfOk result (IsUsedAs token.now) }
{
    if token.is_name() {
        by_name(alloc, token.text())
    } else {
        Ok(None)
    }
}

/// Reads `use` and the name of a shipped protocol.
fn used(alloc: Global, cursor: &mut Cursor<'_>) -> Result<Protocol, TextError>
    requires { begins_use cursor.old.tokens ≡ true }
    ensures ok { IfOk result (ReadsProtocol cursor.old.tokens cursor.new.tokens) }
    ensures text { IfErr result (IsFirstProtocolFault cursor.old.tokens cursor.old.end) }
    ensures end { cursor.new.end ≡ cursor.old.end }
    ensures stays { OnErr result (cursor.new ≡ cursor.old) }
{
    let mut ahead = cursor.from_here();
    let _use = ahead.next();
    let Some(token) = ahead.next() else {
        let place = cursor.end();
        let cause = Cause::Expected;
        return Err(TextError::Text(TextFault { place, cause }));
    };
    match named(alloc, &token)? {
        Some(p) => {
            *cursor = ahead;
            Ok(p)
        }
        None => {
            let place = token.place();
            let cause = use_cause(&token);
            Err(TextError::Text(TextFault { place, cause }))
        }
    }
}

/// Reads the protocol that begins at the cursor, written out or named after `use`, and moves the cursor past it. An
/// answer `Text` is the first fault. After an error the cursor stays where it was.
pub fn protocol(alloc: Global, cursor: &mut Cursor<'_>) -> Result<Protocol, TextError>
    ensures ok { IfOk result (ReadsProtocol cursor.old.tokens cursor.new.tokens) }
    ensures text { IfErr result (IsFirstProtocolFault cursor.old.tokens cursor.old.end) }
    ensures end { cursor.new.end ≡ cursor.old.end }
    ensures stays { OnErr result (cursor.new ≡ cursor.old) }
{
    if begins_use(cursor) {
        used(alloc, cursor)
    } else {
        written(alloc, cursor)
    }
}
