//! Reads and prints protocols.

ghost use Rattle.std.specs.Prelude.{◌<◌, length};

use hem_parser::protocol;
use hem_print::protocol_text;
use hem_syntax::Protocol;
use hem_text::Cursor;
use std::alloc::Global;
use std::test::Fail;

/// The protocol that stands at the front of a text.
pub fn protocol_of(alloc: Global, text: &[u8]) -> Result<Protocol, Fail> {
    if text.len() > 1_000_000 {
        return Err("the text is too long")?;
    }
    Ok(read(alloc, text).ok_or("the text is no protocol")?)
}

/// The protocol that stands at the front of a text, where one does.
fn read(alloc: Global, text: &[u8]) -> Option<Protocol>
    requires { length text.now < 4294967295 }
{
    let mut cursor = Cursor::new(text);
    match protocol(alloc, &mut cursor) {
        Ok(p) => Some(p),
        Err(_) => None,
    }
}

/// Whether a protocol is printed as wanted.
fn is_printed(alloc: Global, p: &Protocol, want: &str) -> Result<bool, Fail> {
    let printed = protocol_text(alloc, p)?;
    Ok(printed.as_str() == want)
}

/// Whether a text, read as a protocol and printed, is as wanted.
pub fn prints_as(alloc: Global, text: &str, want: &str) -> Result<bool, Fail> {
    let p = protocol_of(alloc, text.as_bytes())?;
    is_printed(alloc, &p, want)
}
