//! The bytes that a text of the table stands for.
//!
//! A text stands for itself, but for its escapes: `\t`, `\r` and `\n` are the blanks of these names, `\\` is `\`, `\xff` is
//! the byte with these two digits in base 16, in small letters.

ghost use Rattle.std.specs.Prelude.{◌≡◌, ◌+◌, ◌*◌, ◌<◌, IfSome};

use crate::cause::Cause;

/// How a text ends.
#[derive(Clone, Copy, Debug, PartialEq, Eq)]
pub(crate) enum Ending {
    /// With a byte of its own.
    Plain,
    /// With a lone `\`: no line feed comes behind it.
    Joined,
}

/// Where the reading of a text stands.
#[derive(Clone, Copy)]
enum Reading {
    /// Outside of an escape.
    Plain,
    /// Behind `\`.
    Escape,
    /// Behind `\x`.
    FirstDigit,
    /// Behind `\x` and the digit of this value.
    SecondDigit(u8),
}

/// The value of a digit in base 16.
fn digit(byte: u8) -> Option<u8> {
    match byte {
        b'0'..=b'9' => Some(byte - b'0'),
        b'a'..=b'f' => Some(byte - b'a' + 10),
        _ => None,
    }
}

/// Reads the byte behind `\`.
fn escaped(bytes: &mut Vec<u8>, byte: u8) -> Result<Reading, Cause> {
    let told = match byte {
        b'x' => return Ok(Reading::FirstDigit),
        b't' => b'\t',
        b'r' => b'\r',
        b'n' => b'\n',
        b'\\' => b'\\',
        _ => return Err(Cause::Escape),
    };
    bytes.push(told)?;
    Ok(Reading::Plain)
}

impl Reading {
    /// Where the reading stands behind one byte more. What that byte completes goes to the end of `bytes`.
    fn behind(self, bytes: &mut Vec<u8>, byte: u8) -> Result<Reading, Cause> {
        match self {
            Reading::Plain if byte == b'\\' => Ok(Reading::Escape),
            Reading::Plain => {
                bytes.push(byte)?;
                Ok(Reading::Plain)
            }
            Reading::Escape => escaped(bytes, byte),
            Reading::FirstDigit => {
                let first = digit(byte).ok_or(Cause::Escape)?;
                Ok(Reading::SecondDigit(first))
            }
            Reading::SecondDigit(first) => {
                let second = digit(byte).ok_or(Cause::Escape)?;
                bytes.push((first << 4) | second)?;
                Ok(Reading::Plain)
            }
        }
    }
}

/// Appends what a text stands for.
pub(crate) fn push_text(bytes: &mut Vec<u8>, text: &str) -> Result<Ending, Cause> {
    let mut reading = Reading::Plain;
    for byte in text.as_bytes() {
        reading = reading.behind(bytes, *byte)?;
    }
    match reading {
        Reading::Plain => Ok(Ending::Plain),
        Reading::Escape => Ok(Ending::Joined),
        _ => Err(Cause::Escape),
    }
}

/// Appends what a text stands for, as a line: with a line feed behind it, unless a lone `\` ends it.
pub(crate) fn push_line(bytes: &mut Vec<u8>, text: &str) -> Result<(), Cause> {
    match push_text(bytes, text)? {
        Ending::Plain => Ok(bytes.push(b'\n')?),
        Ending::Joined => Ok(()),
    }
}

/// Appends the lines that stand in one text with `/` between them.
pub(crate) fn push_lines(bytes: &mut Vec<u8>, text: &str) -> Result<(), Cause> {
    for line in text.split('/') {
        push_line(bytes, line)?;
    }
    Ok(())
}

/// Appends a whole document that stands in one text with `/` in place of each line feed.
pub(crate) fn push_document(bytes: &mut Vec<u8>, text: &str) -> Result<(), Cause> {
    let last = match text.rsplit_once('/') {
        Some((lines, last)) => {
            push_lines(bytes, lines)?;
            last
        }
        None => text,
    };
    push_text(bytes, last)?;
    Ok(())
}
