//! Tokens of sends.

ghost use Rattle.std.specs.Prelude.{◌≡◌};
ghost use Rattle.hem_grammar.specs.Grammar.{send_follows, send_stands};
ghost use Rattle.hem_grammar.specs.Draft.{send_spells, send_fresh, send_said};

use crate::draft::Draft;
use crate::sets::{send_set, send_with_message, send_with_status, send_with_value};
use crate::words::{spells_value, value_stands};
use hem_base::{MsgId, Reserved, StatusSet};
use hem_grammar::{Item, SendPart, Terminal};
use hem_syntax::{SendTo, Value};
use hem_text::{Lexeme, Stands, Symbol};

/// What must follow a token of the send.
pub fn send_follows(part: SendPart) -> &'static [Symbol<Terminal, Item>]
    ensures { result.now ≡ send_follows part }
{
    match part {
        SendPart::Send => &[Symbol::Item(Item::SendTo)],
        SendPart::Me | SendPart::Parent => &[
            Symbol::One(Terminal::Send(SendPart::Message)),
            Symbol::Item(Item::SendValue),
        ],
        SendPart::Kids | SendPart::Others => &[
            Symbol::One(Terminal::Word(Reserved::In)),
            Symbol::One(Terminal::Send(SendPart::Status)),
            Symbol::Many(Item::SendMore),
            Symbol::One(Terminal::Send(SendPart::Message)),
            Symbol::Item(Item::SendValue),
        ],
        _ => &[],
    }
}

/// Whether the token is a reserved word, a used name or something else.
pub fn send_stands(part: SendPart) -> Stands
    ensures { result ≡ send_stands part }
{
    match part {
        SendPart::Status | SendPart::More | SendPart::Message => Stands::Used,
        SendPart::Value(value) => value_stands(value),
        _ => Stands::Reserved,
    }
}

impl Draft {
    pub(crate) fn send_spells(&self, part: SendPart, token: &Lexeme<'_>) -> bool
        ensures { result ≡ send_spells self.now part token.now }
    {
        match part {
            SendPart::Send => token.is_the_word(Reserved::Send),
            SendPart::Me => token.is_the_word(Reserved::Me),
            SendPart::Parent => token.is_the_word(Reserved::Parent),
            SendPart::Kids => token.is_the_word(Reserved::Kids),
            SendPart::Others => token.is_the_word(Reserved::Others),
            SendPart::Status | SendPart::More => self.is_status(token),
            SendPart::Message => self.is_message(token),
            SendPart::Value(value) => spells_value(value, token),
        }
    }

    pub(crate) fn send_fresh(&self, part: SendPart, text: &[u8]) -> bool
        ensures { result ≡ send_fresh self.now part text.now }
    {
        match part {
            SendPart::More => !send_set(self.rule.send).has(self.status(text)),
            _ => true,
        }
    }

    /// What the rule sends once the token is read.
    fn send_said(&self, part: SendPart, text: &[u8]) -> SendTo
        ensures { result ≡ send_said self.now part text.now }
    {
        let send = self.rule.send;
        let id = MsgId(0);
        match part {
            SendPart::Send => send,
            SendPart::Me => SendTo::Me(id, Value::Zero),
            SendPart::Parent => SendTo::Parent(id, Value::Zero),
            SendPart::Kids => SendTo::Kids(StatusSet(0), id, Value::Zero),
            SendPart::Others => SendTo::Others(StatusSet(0), id, Value::Zero),
            SendPart::Status | SendPart::More => send_with_status(send, self.status(text)),
            SendPart::Message => send_with_message(send, self.message(text)),
            SendPart::Value(value) => send_with_value(send, value),
        }
    }

    pub(crate) fn read_send(&mut self, part: SendPart, text: &[u8])
        ensures { self.new ≡ record self.old { rule = record self.old.rule { send = send_said self.old part text.now } } }
    {
        self.rule.send = self.send_said(part, text);
    }
}
