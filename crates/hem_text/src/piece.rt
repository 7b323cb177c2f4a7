//! One piece of a text: a token, or bytes between tokens.

ghost use Rattle.std.specs.Prelude.{◌≡◌, ◌+◌, ◌^◌, ◌<◌, ◌≤◌, true, length, get_or, fold, take};
ghost use Rattle.std.specs.List.{prefix_len};
ghost use Rattle.std.specs.Char.{is_ascii_digit, is_ascii_alphabetic};
ghost use Rattle.hem_text.specs.Tokens.{is_space, is_sign, is_not_line_feed, is_pair, kind_by, run_at, piece_of, advance};
ghost use Rattle.hem_base.specs.Words.{is_word_byte};

use crate::text::{Piece, Place, TokenKind};

fn is_space(b: u8) -> bool
    ensures { result ≡ is_space b }
{
    b == b' ' || b == b'\t' || b == b'\r' || b == b'\n'
}

fn is_word_byte(b: u8) -> bool
    ensures { result ≡ is_word_byte b }
{
    b.is_ascii_alphabetic() || b.is_ascii_digit() || b == b'_'
}

fn is_sign(b: u8) -> bool
    ensures { result ≡ is_sign b }
{
    b == b'(' || b == b')' || b == b',' || b == b'=' || b == b'|'
}

/// How many bytes a comment at the front has.
fn comment_len(bytes: &[u8]) -> usize
    ensures same { result ≡ prefix_len is_not_line_feed bytes.now }
    ensures within { result ≤ length bytes.now }
{
    bytes.iter().take_while(|b| **b != b'\n').count()
}

/// How many digits stand at the front.
fn digits_len(bytes: &[u8]) -> usize
    ensures same { result ≡ prefix_len is_ascii_digit bytes.now }
    ensures within { result ≤ length bytes.now }
{
    bytes.iter().take_while(|b| b.is_ascii_digit()).count()
}

/// How many bytes the run at the front has.
fn run_len(bytes: &[u8]) -> usize
    ensures same { result ≡ prefix_len is_word_byte bytes.now }
    ensures within { result ≤ length bytes.now }
{
    bytes.iter().take_while(|b| is_word_byte(**b)).count()
}

/// What a run is that begins with this byte and has so many bytes after its first digits.
fn kind_of_run(first: u8, others: usize) -> TokenKind
    ensures { result ≡ kind_by (is_ascii_alphabetic first) others }
{
    if first.is_ascii_alphabetic() {
        TokenKind::Word
    } else if others == 0 {
        TokenKind::Number
    } else {
        TokenKind::Bad
    }
}

/// The run at the front, of which each byte is looked at once.
fn run_at(bytes: &[u8]) -> Piece
    requires some { 0 < length bytes.now }
    requires word { is_word_byte (get_or bytes.now 0 0) ≡ true }
    ensures same { result ≡ run_at bytes.now }
    ensures within { result.len ≤ length bytes.now }
{
    let digits = digits_len(bytes);
    let others = run_len(&bytes[digits..]);
    let kind = kind_of_run(bytes[0], others);
    Piece {
        kind: Some(kind),
        len: digits + others,
    }
}

/// Whether `:=` or `!=` stands at the front.
fn is_pair(bytes: &[u8]) -> bool
    ensures { result ≡ is_pair bytes.now }
{
    match bytes {
        [first, b'=', ..] => *first == b':' || *first == b'!',
        _ => false,
    }
}

/// What stands at the front.
pub fn piece_at(bytes: &[u8]) -> Piece
    requires { 0 < length bytes.now }
    ensures same { result ≡ piece_of bytes.now }
    ensures some { 0 < result.len }
    ensures within { result.len ≤ length bytes.now }
{
    let first = bytes[0];
    if is_space(first) {
        Piece { kind: None, len: 1 }
    } else if first == b'#' {
        Piece {
            kind: None,
            len: comment_len(bytes),
        }
    } else if is_word_byte(first) {
        run_at(bytes)
    } else if is_pair(bytes) {
        Piece {
            kind: Some(TokenKind::Sign),
            len: 2,
        }
    } else if is_sign(first) {
        Piece {
            kind: Some(TokenKind::Sign),
            len: 1,
        }
    } else {
        Piece {
            kind: Some(TokenKind::Bad),
            len: 1,
        }
    }
}

/// The place just after the piece at the front, which has `len` bytes and the first of them at `place`. Both lines and
/// columns count from 1, and a column is a byte.
pub fn place_behind(place: Place, bytes: &[u8], len: usize) -> Place
    requires some { 0 < length bytes.now }
    requires piece { len ≡ (piece_of bytes.now).len }
    requires within { len ≤ length bytes.now }
    requires line { place.line + length bytes.now < 2 ^ 32 }
    requires column { place.column + length bytes.now < 2 ^ 32 }
    ensures same { result ≡ fold advance place (take len bytes.now) }
    ensures line { result.line ≤ place.line + len }
    ensures column { result.column ≤ place.column + len }
    ensures first { 1 ≤ place.column → 1 ≤ result.column }
{
    // A line feed is a piece of its own.
    if bytes[0] == b'\n' {
        Place {
            line: place.line + 1,
            column: 1,
        }
    } else {
        Place {
            line: place.line,
            column: place.column + len as u32,
        }
    }
}

/// The place just after these bytes, the first of which stands at `place`.
pub fn place_after(place: Place, bytes: &[u8]) -> Place
    requires line { place.line + length bytes.now < 2 ^ 32 }
    requires column { place.column + length bytes.now < 2 ^ 32 }
    requires first { 1 ≤ place.column }
    ensures { result ≡ fold advance place bytes.now }
{
    let mut line = place.line;
    let mut column = place.column;
    for b in bytes {
        if *b == b'\n' {
            line += 1;
            column = 1;
        } else {
            column += 1;
        }
    }
    Place { line, column }
}
