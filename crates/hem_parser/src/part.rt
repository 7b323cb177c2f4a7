//! Tokens of declarations.

ghost use Rattle.std.specs.Prelude.{◌≡◌, IsTrue, OnOk, OnErr};
ghost use Rattle.hem_grammar.specs.Grammar.{part_follows, part_stands};
ghost use Rattle.hem_grammar.specs.Draft.{part_spells, part_within, part_fresh, part_after};

use crate::draft::{Draft, is_among, name_of};
use crate::last::set_start;
use crate::words::is_short;
use hem_base::{OutOfMemory, Reserved, Status8};
use hem_grammar::{Item, Part, Terminal, class_word};
use hem_syntax::Class;
use hem_text::{Lexeme, Stands, Symbol};

/// How many statuses a protocol may have.
const MOST_STATUSES: usize = 4;

/// How many messages a protocol may have.
const MOST_MESSAGES: usize = 64;

/// How many fields a kind may have.
const MOST_FIELDS: usize = 3;

/// What must follow a token of a declaration.
pub fn part_follows(part: Part) -> &'static [Symbol<Terminal, Item>]
    ensures { result.now ≡ part_follows part }
{
    match part {
        Part::Message => &[
            Symbol::One(Terminal::Part(Part::NewMessage)),
            Symbol::Item(Item::Classes),
        ],
        Part::Field => &[
            Symbol::One(Terminal::Part(Part::NewField)),
            Symbol::One(Terminal::Word(Reserved::Init)),
            Symbol::One(Terminal::Part(Part::FieldStart)),
        ],
        _ => &[],
    }
}

/// Whether the token is a reserved word, a used name or something else.
pub fn part_stands(part: Part) -> Stands
    ensures { result ≡ part_stands part }
{
    match part {
        Part::FieldStart | Part::DirStart => Stands::Used,
        Part::Name | Part::NewStatus | Part::NewMessage | Part::NewField => Stands::Other,
        _ => Stands::Reserved,
    }
}

impl Draft {
    pub(crate) fn part_spells(&self, part: Part, token: &Lexeme<'_>) -> bool
        ensures { result ≡ part_spells self.now part token.now }
    {
        match part {
            Part::Name | Part::NewStatus | Part::NewMessage | Part::NewField => token.is_name(),
            Part::Message => token.is_the_word(Reserved::Message),
            Part::Class(class) => token.is_the_word(class_word(class)),
            Part::Field => token.is_the_word(Reserved::Field),
            Part::FieldStart | Part::DirStart => self.is_status(token),
            Part::EndRoot | Part::EndMid => token.is_the_word(Reserved::End),
        }
    }

    pub(crate) fn part_within(&self, part: Part, text: &[u8]) -> bool
        ensures { result ≡ part_within self.now part text.now }
    {
        match part {
            Part::Name => is_short(text),
            Part::NewStatus => is_short(text) && self.statuses.len() < MOST_STATUSES,
            Part::Message => self.messages.len() < MOST_MESSAGES,
            Part::NewMessage => is_short(text) && self.messages.len() < MOST_MESSAGES,
            Part::Field => self.fields.len() < MOST_FIELDS,
            Part::NewField => is_short(text) && self.fields.len() < MOST_FIELDS,
            _ => true,
        }
    }

    pub(crate) fn part_fresh(&self, part: Part, text: &[u8]) -> bool
        ensures { result ≡ part_fresh self.now part text.now }
    {
        match part {
            Part::NewStatus | Part::NewMessage => {
                !(self.statuses.has(text) || self.messages.has(text))
            }
            Part::NewField => !is_among(self.fields.as_slice(), text),
            _ => true,
        }
    }

    pub(crate) fn read_part(&mut self, part: Part, text: &[u8]) -> Result<(), OutOfMemory>
        requires within { IsTrue (part_within self.old part text.now) }
        requires fresh { IsTrue (part_fresh self.old part text.now) }
        ensures ok { OnOk result (self.new ≡ part_after self.old part text.now) }
        ensures err { OnErr result (self.new ≡ self.old) }
    {
        match part {
            Part::Name => self.name = name_of(text),
            Part::NewStatus => self.statuses.push(name_of(text))?,
            Part::NewMessage => self.messages.push(name_of(text), Class::ExtReq)?,
            Part::Class(class) => self.messages.set_last(class),
            Part::NewField => self.fields.push((name_of(text), Status8(0)))?,
            Part::FieldStart => {
                let status = self.status(text);
                set_start(&mut self.fields, status);
            }
            Part::DirStart => self.dir = Some(self.status(text)),
            Part::EndRoot => self.root = self.take_kind(),
            Part::EndMid => self.mid = self.take_kind(),
            Part::Message | Part::Field => {}
        }
        Ok(())
    }
}
