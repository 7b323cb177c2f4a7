//! The reader of what queues are fed.

ghost use Rattle.std.specs.Prelude.{◌≡◌, IfOk, IfErr, OnErr};
ghost use Rattle.hem_text.specs.Grammars.{state};
ghost use Rattle.hem_text.specs.Faults.{IsFirstFault};
ghost use Rattle.hem_modtext.specs.Feeding.{start, firsts, follows, stands, grammar, nothing, ReadsFeed};

use crate::limits::{MOST_ID, MOST_NUMBER};
use hem_base::{List, Message, MsgId, OutOfMemory, Reserved};
use hem_module::Modules;
use hem_syntax::Names;
use hem_text::{
    Cursor, Language, Lexeme, Stands, Symbol, TextError, is_at_most, read_part, value_of,
};
use std::alloc::Global;
use std::marker::Model;

/// A message that a queue is fed.
#[derive(Clone, Copy, Debug, PartialEq, Eq)]
pub struct Fed {
    /// The queue's place in text order.
    pub queue: usize,
    /// The message.
    pub item: Message,
}

/// A token of a feed, by what it means.
#[derive(Clone, Copy, Debug, PartialEq, Eq)]
pub enum FeedTerminal {
    /// The word that begins a feed.
    Feed,
    /// The queue, with which an entry begins.
    Queue,
    Id,
    Value,
    /// The word that ends a feed.
    End,
}

/// What may stand several times in a feed.
#[derive(Clone, Copy, Debug, PartialEq, Eq)]
pub enum FeedItem {
    Entry,
}

/// A feed as far as it has been read, over the queues of modules. `queue` and `id` are of the entry that is being read.
#[derive(Drop)]
pub struct FeedDraft<'a> {
    pub(crate) queues: &'a Names,
    pub(crate) fed: List<Fed>,
    pub(crate) queue: usize,
    pub(crate) id: MsgId,
}

impl<'a> Model for FeedDraft<'a> {
    ghost use Rattle.hem_modtext.specs.Feeding.{FeedRead};

    ghost Value = { FeedRead };

    ghost view = { λ d. record { queues = d.queues.now; fed = d.fed; queue = d.queue; id = d.id } };
}

/// What a feed begins with.
fn start() -> &'static [Symbol<FeedTerminal, FeedItem>]
    ensures { result.now ≡ start }
{
    &[
        Symbol::One(FeedTerminal::Feed),
        Symbol::Many(FeedItem::Entry),
        Symbol::One(FeedTerminal::End),
    ]
}

/// Nothing is read yet.
fn nothing<'a>(alloc: Global, m: &'a Modules) -> FeedDraft<'a>
    ensures { result ≡ nothing m.entry.now }
{
    FeedDraft {
        queues: m.queues(),
        fed: List::new(alloc),
        queue: 0,
        id: MsgId(0),
    }
}

impl<'a> Language for FeedDraft<'a> {
    type Terminal = FeedTerminal;

    type Item = FeedItem;

    ghost grammar = { grammar };

    fn firsts(item: FeedItem) -> &'static [FeedTerminal]
        ensures { result.now ≡ firsts item }
    {
        match item {
            FeedItem::Entry => &[FeedTerminal::Queue],
        }
    }

    fn follows(terminal: FeedTerminal) -> &'static [Symbol<FeedTerminal, FeedItem>]
        ensures { result.now ≡ follows terminal }
    {
        match terminal {
            FeedTerminal::Queue => &[
                Symbol::One(FeedTerminal::Id),
                Symbol::One(FeedTerminal::Value),
            ],
            _ => &[],
        }
    }

    fn stands(terminal: FeedTerminal) -> Stands
        ensures { result ≡ stands terminal }
    {
        match terminal {
            FeedTerminal::Queue => Stands::Used,
            FeedTerminal::Id | FeedTerminal::Value => Stands::Other,
            _ => Stands::Reserved,
        }
    }

    fn spells(&self, terminal: FeedTerminal, token: &Lexeme<'_>) -> bool {
        match terminal {
            FeedTerminal::Feed => token.is_the_word(Reserved::Feed),
            FeedTerminal::Queue => token.is_word() && self.queues.has(token.text()),
            FeedTerminal::Id | FeedTerminal::Value => token.is_number(),
            FeedTerminal::End => token.is_the_word(Reserved::End),
        }
    }

    fn is_within(&self, terminal: FeedTerminal, token: &Lexeme<'_>) -> bool {
        match terminal {
            FeedTerminal::Id => is_at_most(token.text(), MOST_ID),
            FeedTerminal::Value => is_at_most(token.text(), MOST_NUMBER),
            _ => true,
        }
    }

    fn is_fresh(&self, _terminal: FeedTerminal, _token: &Lexeme<'_>) -> bool {
        true
    }

    fn read(&mut self, terminal: FeedTerminal, token: &Lexeme<'_>) -> Result<(), OutOfMemory> {
        match terminal {
            FeedTerminal::Queue => self.queue = self.queues.place(token.text()).unwrap_or(0),
            FeedTerminal::Id => self.id = MsgId(value_of(token.text()) as u32),
            FeedTerminal::Value => {
                let item = Message {
                    id: self.id,
                    value: value_of(token.text()),
                };
                self.fed.push(Fed {
                    queue: self.queue,
                    item,
                })?;
            }
            FeedTerminal::Feed | FeedTerminal::End => {}
        }
        Ok(())
    }
}

/// Reads the feed that begins at the cursor, over the queues of modules, and moves the cursor past it. An answer `Text`
/// is the first fault. After an error the cursor stays where it was.
pub fn read_feed(alloc: Global, cursor: &mut Cursor<'_>, m: &Modules) -> Result<Vec<Fed>, TextError>
    ensures ok { IfOk result (λ fed. ReadsFeed m.now cursor.old.tokens cursor.new.tokens fed.items) }
    ensures text { IfErr result (IsFirstFault grammar (state (nothing m.now) start) cursor.old.tokens cursor.old.end) }
    ensures end { cursor.new.end ≡ cursor.old.end }
    ensures stays { OnErr result (cursor.new ≡ cursor.old) }
{
    let begin = nothing(alloc, m);
    match read_part(alloc, cursor, begin, start()) {
        Ok(draft) => Ok(draft.fed.into_vec()),
        Err(e) => Err(e),
    }
}
