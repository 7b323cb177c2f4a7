//! What a reader asks of a grammar.

ghost use Rattle.std.specs.Prelude.{◌≡◌, OnOk, OnErr, IsTrue};
ghost use Rattle.hem_text.specs.Grammars.{Grammar};

use crate::{Lexeme, Stands, Symbol};
use hem_base::OutOfMemory;

/// A grammar, at what has been read so far of a document.
pub trait Language {
    /// The tokens, by what they mean.
    type Terminal: Copy + 'static;
    /// The items: what may stand at a place, or repeatedly.
    type Item: Copy + 'static;

    ghost grammar: { Grammar Self Self.Terminal Self.Item };

    /// The tokens with which an item may begin.
    fn firsts(item: Self::Item) -> &'static [Self::Terminal]
        ensures { result.now ≡ grammar.firsts item };

    /// What must follow a token.
    fn follows(terminal: Self::Terminal) -> &'static [Symbol<Self::Terminal, Self::Item>]
        ensures { result.now ≡ grammar.follows terminal };

    /// Whether a token is a reserved word, a used name or something else.
    fn stands(terminal: Self::Terminal) -> Stands
        ensures { result ≡ grammar.stands terminal };

    /// Whether a token is spelled so, and declared if it is a used name.
    fn spells(&self, terminal: Self::Terminal, token: &Lexeme<'_>) -> bool
        ensures { result ≡ grammar.spells self.now terminal token.now };

    /// Whether a token that is spelled so keeps the limits.
    fn is_within(&self, terminal: Self::Terminal, token: &Lexeme<'_>) -> bool
        ensures { result ≡ grammar.is_within self.now terminal token.now };

    /// Whether a token that is spelled so repeats nothing that must not be repeated.
    fn is_fresh(&self, terminal: Self::Terminal, token: &Lexeme<'_>) -> bool
        ensures { result ≡ grammar.is_fresh self.now terminal token.now };

    /// Takes in a token. Where memory is wanted, what was read stays as it was.
    fn read(&mut self, terminal: Self::Terminal, token: &Lexeme<'_>) -> Result<(), OutOfMemory>
        requires spelled { IsTrue (grammar.spells self.old terminal token.now) }
        requires within { IsTrue (grammar.is_within self.old terminal token.now) }
        requires fresh { IsTrue (grammar.is_fresh self.old terminal token.now) }
        ensures ok { OnOk result (self.new ≡ grammar.after self.old terminal token.now) }
        ensures err { OnErr result (self.new ≡ self.old) };
}
