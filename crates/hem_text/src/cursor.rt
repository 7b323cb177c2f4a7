//! The tokens of a text, cut as they are read.

ghost use Rattle.std.specs.Prelude.{◌≡◌, ◌<◌, ◌↔◌, [], length, drop, slice_get, IsTrue};
ghost use Rattle.hem_text.specs.Unread.{unread_of};
ghost use Rattle.hem_text.specs.Faults.{place_at};

use crate::Place;
use crate::lexeme::Lexeme;
use crate::piece::{piece_at, place_after, place_behind};
use std::marker::Model;

/// A place in a text from which readers go on, seen as the tokens that are left, and the place of the end of the text. It
/// cuts a token when it is asked for one, and keeps none.
#[derive(Debug, Drop)]
pub struct Cursor<'a> {
    /// The bytes that are left.
    left: &'a [u8],
    /// The place of the first of them, or of the end.
    place: Place,
}

impl<'a> Model for Cursor<'a> {
    ghost use Rattle.std.specs.Prelude.{◌+◌, ◌^◌, ◌<◌, ◌≤◌, length};
    ghost use Rattle.hem_text.specs.Unread.{Unread, unread_from};

    ghost Value = { Unread };

    ghost view = { λ c. unread_from c.place c.left.now };

    ghost invariant = { λ c. (c.place.line + length c.left.now < 2 ^ 32) × (c.place.column + length c.left.now < 2 ^ 32) × (1 ≤ c.place.column) };
}

impl<'a> Cursor<'a> {
    /// Before the first token of a text.
    pub fn new(bytes: &'a [u8]) -> Cursor<'a>
        requires { length bytes.now < 4294967295 }
        ensures { result ≡ unread_of bytes.now }
    {
        Cursor {
            left: bytes,
            place: Place { line: 1, column: 1 },
        }
    }

    /// A second cursor at the same place.
    pub fn from_here(&self) -> Cursor<'a>
        ensures { result ≡ self.now }
    {
        Cursor {
            left: self.left,
            place: self.place,
        }
    }

    /// The place of the end of the text.
    pub fn end(&self) -> Place
        ensures { result ≡ self.now.end }
    {
        place_after(self.place, self.left)
    }

    /// Reads a token, if any is left. White space and comments stand between tokens.
    pub fn next(&mut self) -> Option<Lexeme<'a>>
        ensures token { result ≡ slice_get self.old.tokens 0 }
        ensures moved { self.new ≡ record self.old { tokens = drop 1 self.old.tokens } }
    {
        let mut left = self.left;
        let mut place = self.place;
        while !left.is_empty() {
            let piece = piece_at(left);
            let text = &left[..piece.len];
            let after = place_behind(place, left, piece.len);
            left = &left[piece.len..];
            if let Some(kind) = piece.kind {
                self.left = left;
                self.place = after;
                return Some(Lexeme { kind, text, place });
            }
            place = after;
        }
        None
    }

    /// The next token, if any is left.
    pub fn peek(&self) -> Option<Lexeme<'a>>
        ensures { result ≡ slice_get self.now.tokens 0 }
    {
        let mut ahead = self.from_here();
        ahead.next()
    }

    /// Whether no token is left.
    pub fn is_at_end(&self) -> bool
        ensures { IsTrue result ↔ (self.now.tokens ≡ []) }
    {
        self.peek().is_none()
    }

    /// The place of the next token, or of the end.
    pub fn place(&self) -> Place
        ensures { result ≡ place_at self.now.tokens self.now.end 0 }
    {
        match self.peek() {
            Some(token) => token.place(),
            None => self.end(),
        }
    }
}
