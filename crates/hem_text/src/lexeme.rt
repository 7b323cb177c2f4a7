//! Tokens with their bytes.

ghost use Rattle.std.specs.Prelude.{◌≡◌, ◌==◌};
ghost use Rattle.std.specs.List.{list_all};
ghost use Rattle.hem_text.specs.Spelling.{is_word_kind, is_sign_kind, is_number_kind, is_word, is_number, is_the_word, is_the_sign, is_zero, is_name};

use crate::{Place, TokenKind};
use hem_base::{Reserved, Sign, is_reserved, is_word_text, sign_bytes, word_bytes};
use std::marker::Model;

/// A token of a text: its kind, its bytes, and the place of the first of them.
#[derive(Debug, Drop)]
pub struct Lexeme<'a> {
    pub(crate) kind: TokenKind,
    pub(crate) text: &'a [u8],
    pub(crate) place: Place,
}

impl<'a> Model for Lexeme<'a> {
    ghost use Rattle.hem_text.specs.Lexemes.{Lexeme as Seen};

    ghost Value = { Seen };

    ghost view = { λ t. record { kind = t.kind; text = t.text.now; place = t.place } };
}

fn is_word_kind(kind: TokenKind) -> bool
    ensures { result ≡ is_word_kind kind }
{
    match kind {
        TokenKind::Word => true,
        _ => false,
    }
}

fn is_sign_kind(kind: TokenKind) -> bool
    ensures { result ≡ is_sign_kind kind }
{
    match kind {
        TokenKind::Sign => true,
        _ => false,
    }
}

fn is_number_kind(kind: TokenKind) -> bool
    ensures { result ≡ is_number_kind kind }
{
    match kind {
        TokenKind::Number => true,
        _ => false,
    }
}

/// Whether these digits are all 0.
fn all_zero(text: &[u8]) -> bool
    ensures { result ≡ list_all (λ b. b == 48) text.now }
{
    text.iter().all(|b| *b == b'0')
}

impl<'a> Lexeme<'a> {
    pub fn kind(&self) -> TokenKind
        ensures { result ≡ self.now.kind }
    {
        self.kind
    }

    pub fn text(&self) -> &'a [u8]
        ensures { result.now ≡ self.now.text }
    {
        self.text
    }

    /// The place of the first byte.
    pub fn place(&self) -> Place
        ensures { result ≡ self.now.place }
    {
        self.place
    }

    pub fn is_word(&self) -> bool
        ensures { result ≡ is_word self.now }
    {
        is_word_kind(self.kind())
    }

    pub fn is_number(&self) -> bool
        ensures { result ≡ is_number self.now }
    {
        is_number_kind(self.kind())
    }

    /// Whether it is this reserved word.
    pub fn is_the_word(&self, word: Reserved) -> bool
        ensures { result ≡ is_the_word word self.now }
    {
        self.is_word() && word_bytes(word) == self.text()
    }

    /// Whether it is this sign.
    pub fn is_the_sign(&self, sign: Sign) -> bool
        ensures { result ≡ is_the_sign sign self.now }
    {
        is_sign_kind(self.kind()) && sign_bytes(sign) == self.text()
    }

    /// Whether it is a number of value 0.
    pub fn is_zero(&self) -> bool
        ensures { result ≡ is_zero self.now }
    {
        self.is_number() && all_zero(self.text())
    }

    /// Whether it is a word that isn't reserved.
    pub fn is_name(&self) -> bool
        ensures { result ≡ is_name self.now }
    {
        self.is_word() && is_word_text(self.text()) && !is_reserved(self.text())
    }
}
