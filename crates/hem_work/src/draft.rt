//! The grammar of works.

ghost use Rattle.std.specs.Prelude.{◌≡◌, ◌-◌, ◌<◌, IfOk, OnOk, OnErr, length, slice_get};
ghost use Rattle.hem_work.specs.Grammar.{start, firsts, follows, stands, id_of, with_request, with_request_at, grammar, nothing};

use crate::limits::{MOST_NUMBER, MOST_VALUE};
use crate::raw::RawEntry;
use hem_base::{List, Message, MsgId, OutOfMemory, Reserved};
use hem_syntax::{Class, Named, Protocol};
use hem_text::{Language, Lexeme, Place, Stands, Symbol, is_at_most, value_of};
use std::alloc::Global;
use std::marker::Model;

/// A token of a work, by what it means.
#[derive(Clone, Copy, Debug, PartialEq, Eq)]
pub enum Terminal {
    Work,
    Lines,
    LinesNumber,
    SelfWord,
    SelfNumber,
    At,
    Object,
    LineWord,
    Line,
    Msg,
    Value,
    End,
}

/// What may stand several times in a work.
#[derive(Clone, Copy, Debug, PartialEq, Eq)]
pub enum Item {
    Entry,
    Request,
}

/// A work as far as it has been read, over the messages of a protocol.
#[derive(Debug, Drop)]
pub struct WorkDraft<'a> {
    pub(crate) alloc: Global,
    pub(crate) messages: &'a Named<Class>,
    pub(crate) place: Place,
    pub(crate) lines: (u32, Place),
    pub(crate) self_count: (u32, Place),
    pub(crate) entries: List<RawEntry>,
    pub(crate) object: (u32, Place),
    pub(crate) message: (MsgId, Place),
}

impl<'a> Model for WorkDraft<'a> {
    ghost use Rattle.hem_work.specs.Grammar.{Read};

    ghost Value = { Read };

    ghost view = { λ d. record {
      messages = d.messages.now;
      place = d.place;
      lines = d.lines;
      self_count = d.self_count;
      entries = d.entries;
      object = d.object;
      message = d.message;
    } };
}

/// What a work's text begins with.
pub fn start() -> &'static [Symbol<Terminal, Item>]
    ensures { result.now ≡ start }
{
    &[
        Symbol::One(Terminal::Work),
        Symbol::One(Terminal::Lines),
        Symbol::One(Terminal::LinesNumber),
        Symbol::One(Terminal::SelfWord),
        Symbol::One(Terminal::SelfNumber),
        Symbol::Many(Item::Entry),
        Symbol::One(Terminal::End),
    ]
}

/// Nothing is read yet.
pub fn nothing<'a>(alloc: Global, p: &'a Protocol) -> WorkDraft<'a>
    ensures { result ≡ nothing p.entry.now }
{
    let nowhere = Place { line: 0, column: 0 };
    WorkDraft {
        alloc,
        messages: p.messages(),
        place: nowhere,
        lines: (0, nowhere),
        self_count: (0, nowhere),
        entries: List::new(alloc),
        object: (0, nowhere),
        message: (MsgId(0), nowhere),
    }
}

/// The id of the message of that name.
fn id_of(messages: &Named<Class>, text: &[u8]) -> Result<MsgId, OutOfMemory>
    ensures { IfOk result (λ id. id ≡ id_of messages.now text.now) }
{
    match u32::try_from(messages.place(text).unwrap_or(0)) {
        Ok(id) => Ok(MsgId(id)),
        // So many messages don't fit into memory.
        Err(_) => Err(OutOfMemory),
    }
}

/// Puts a request at the end of those of an entry that is there. Where memory is wanted the entries stay as they were.
#[tactic(auto, using(crate::proofs::Drafts::set_get_same))]
fn add_request_at(
    entries: &mut List<RawEntry>,
    at: usize,
    request: (Message, Place),
) -> Result<(), OutOfMemory>
    requires { at < length entries.old }
    ensures ok { OnOk result (entries.new ≡ with_request_at entries.old at (slice_get entries.old at) request) }
    ensures err { OnErr result (entries.new ≡ entries.old) }
{
    let entry = entries.at_mut(at);
    entry.requests.push(request)
}

/// Puts a request at the end of those of the last entry, where there is one. Where memory is wanted the entries stay as
/// they were.
fn add_request(entries: &mut List<RawEntry>, request: (Message, Place)) -> Result<(), OutOfMemory>
    ensures ok { OnOk result (entries.new ≡ with_request entries.old (slice_get entries.old (length entries.old - 1)) request) }
    ensures err { OnErr result (entries.new ≡ entries.old) }
{
    let len = entries.len();
    if len > 0 {
        add_request_at(entries, len - 1, request)
    } else {
        Ok(())
    }
}

impl<'a> Language for WorkDraft<'a> {
    type Terminal = Terminal;

    type Item = Item;

    ghost grammar = { grammar };

    fn firsts(item: Item) -> &'static [Terminal]
        ensures { result.now ≡ firsts item }
    {
        match item {
            Item::Entry => &[Terminal::At],
            Item::Request => &[Terminal::Msg],
        }
    }

    fn follows(terminal: Terminal) -> &'static [Symbol<Terminal, Item>]
        ensures { result.now ≡ follows terminal }
    {
        match terminal {
            Terminal::At => &[
                Symbol::One(Terminal::Object),
                Symbol::One(Terminal::LineWord),
                Symbol::One(Terminal::Line),
                Symbol::Many(Item::Request),
            ],
            Terminal::Msg => &[Symbol::One(Terminal::Value)],
            _ => &[],
        }
    }

    fn stands(terminal: Terminal) -> Stands
        ensures { result ≡ stands terminal }
    {
        match terminal {
            Terminal::Msg => Stands::Used,
            Terminal::LinesNumber
            | Terminal::SelfNumber
            | Terminal::Object
            | Terminal::Line
            | Terminal::Value => Stands::Other,
            _ => Stands::Reserved,
        }
    }

    fn spells(&self, terminal: Terminal, token: &Lexeme<'_>) -> bool {
        match terminal {
            Terminal::Work => token.is_the_word(Reserved::Work),
            Terminal::Lines => token.is_the_word(Reserved::Lines),
            Terminal::SelfWord => token.is_the_word(Reserved::Own),
            Terminal::At => token.is_the_word(Reserved::At),
            Terminal::LineWord => token.is_the_word(Reserved::Line),
            Terminal::End => token.is_the_word(Reserved::End),
            Terminal::Msg => token.is_word() && self.messages.has(token.text()),
            Terminal::LinesNumber
            | Terminal::SelfNumber
            | Terminal::Object
            | Terminal::Line
            | Terminal::Value => token.is_number(),
        }
    }

    fn is_within(&self, terminal: Terminal, token: &Lexeme<'_>) -> bool {
        match terminal {
            Terminal::LinesNumber | Terminal::SelfNumber | Terminal::Object | Terminal::Line => {
                is_at_most(token.text(), MOST_NUMBER)
            }
            Terminal::Value => is_at_most(token.text(), MOST_VALUE),
            _ => true,
        }
    }

    fn is_fresh(&self, _terminal: Terminal, _token: &Lexeme<'_>) -> bool {
        true
    }

    fn read(&mut self, terminal: Terminal, token: &Lexeme<'_>) -> Result<(), OutOfMemory> {
        let place = token.place();
        match terminal {
            Terminal::Work => self.place = place,
            Terminal::LinesNumber => self.lines = (value_of(token.text()) as u32, place),
            Terminal::SelfNumber => self.self_count = (value_of(token.text()) as u32, place),
            Terminal::Object => self.object = (value_of(token.text()) as u32, place),
            Terminal::Line => {
                let entry = RawEntry {
                    object: self.object,
                    line: (value_of(token.text()) as u32, place),
                    requests: List::new(self.alloc),
                };
                self.entries.push(entry)?;
            }
            Terminal::Msg => {
                let id = id_of(self.messages, token.text())?;
                self.message = (id, place);
            }
            Terminal::Value => {
                let (id, at) = self.message;
                let value = value_of(token.text());
                add_request(&mut self.entries, (Message { id, value }, at))?;
            }
            _ => {}
        }
        Ok(())
    }
}
