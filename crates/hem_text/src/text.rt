//! Tokens of a text, places in it, and why a token can't stand.

/// A place in a text: line and column, both from 1, the column in bytes.
#[derive(Clone, Copy, Debug, PartialEq, Eq)]
pub struct Place {
    /// The line, from 1. A line feed ends a line.
    pub line: u32,
    /// The column in bytes, from 1.
    pub column: u32,
}

/// What a token is. A run of letters, digits and `_` that is neither a word nor a number is bad, and so is
/// every other byte that is no sign.
#[derive(Clone, Copy, Debug, PartialEq, Eq)]
pub enum TokenKind {
    /// A letter, and then letters, digits and `_`.
    Word,
    /// Digits alone.
    Number,
    /// One of `(`, `)`, `,`, `=`, `|`, `:=` and `!=`.
    Sign,
    /// Bytes that are none of these.
    Bad,
}

/// What stands at the front of a text: a token of this kind or bytes between tokens, and its length in bytes.
#[derive(Clone, Copy, Debug, PartialEq, Eq)]
pub struct Piece {
    /// The kind of the token, or `None` for a space or a comment.
    pub kind: Option<TokenKind>,
    /// Its length in bytes.
    pub len: usize,
}

/// Why a token can't stand: it is an unknown name, it repeats something, another token is expected there, or it
/// would be right but passes a limit.
#[derive(Clone, Copy, Debug, PartialEq, Eq)]
pub enum Cause {
    /// A name stands where only declared names may, and it is none of them.
    Unknown,
    /// It repeats what may be said once.
    Repeated,
    /// Another token is expected there.
    Expected,
    /// It would be right, but passes a limit.
    TooMany,
}
