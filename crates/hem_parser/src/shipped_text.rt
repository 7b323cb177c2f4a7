//! Reads the shipped protocols.

ghost use Rattle.std.specs.Prelude.{◌<◌, length, IfOk};
ghost use Rattle.hem_parser.specs.ProtocolReading.{IsProtocolOf, IsShippedAs};

use crate::written::written;
use hem_base::OutOfMemory;
use hem_shipped::shipped;
use hem_syntax::Protocol;
use hem_text::{Cursor, TextError};
use std::alloc::Global;

/// The protocol that the whole text is, if it is one.
fn whole(alloc: Global, bytes: &[u8]) -> Result<Option<Protocol>, OutOfMemory>
    requires { length bytes.now < 4294967295 }
    ensures { IfOk result (IsProtocolOf bytes.now) }
{
    let mut cursor = Cursor::new(bytes);
    match written(alloc, &mut cursor) {
        Ok(p) => {
            if cursor.is_at_end() {
                Ok(Some(p))
            } else {
                Ok(None)
            }
        }
        Err(TextError::Text(_)) => Ok(None),
        Err(TextError::OutOfMemory) => Err(OutOfMemory),
    }
}

/// The shipped protocol of that name, if its text reads.
pub fn by_name(alloc: Global, name: &[u8]) -> Result<Option<Protocol>, OutOfMemory>
    ensures { IfOk result (IsShippedAs name.now) }
{
    match shipped(name) {
        Some(text) => whole(alloc, text.as_bytes()),
        None => Ok(None),
    }
}
