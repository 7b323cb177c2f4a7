//! How names and values are spelled.

ghost use Rattle.std.specs.Prelude.{◌≡◌};
ghost use Rattle.hem_grammar.specs.Grammar.{value_stands};
ghost use Rattle.hem_grammar.specs.Draft.{is_short, spells_value};

use hem_base::Reserved;
use hem_syntax::Value;
use hem_text::{Lexeme, Stands};

/// Whether a text has the length of a name.
pub fn is_short(text: &[u8]) -> bool
    ensures { result ≡ is_short text.now }
{
    1 <= text.len() && text.len() <= 32
}

/// Whether a token is this value.
pub fn spells_value(value: Value, token: &Lexeme<'_>) -> bool
    ensures { result ≡ spells_value value token.now }
{
    match value {
        Value::Val => token.is_the_word(Reserved::Val),
        Value::Msg => token.is_the_word(Reserved::Msg),
        Value::Kept => token.is_the_word(Reserved::Kept),
        Value::Rs => token.is_the_word(Reserved::Rs),
        Value::Zero => token.is_zero(),
    }
}

/// A value is a reserved word or a number.
pub fn value_stands(value: Value) -> Stands
    ensures { result ≡ value_stands value }
{
    match value {
        Value::Zero => Stands::Other,
        _ => Stands::Reserved,
    }
}
