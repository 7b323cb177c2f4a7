//! The grammar of histories.

ghost use Rattle.std.specs.Prelude.{◌≡◌, ◌-◌, length, slice_get, unwrap_or, IfOk};
ghost use Rattle.hem_syntax.specs.Names.{place_in};
ghost use Rattle.hem_history.specs.Grammar.{start, firsts, follows, stands, with_child, grammar, nothing};

use crate::limits::{MOST_FIRINGS, MOST_NUMBER};
use hem_base::{Firing, LineId, List, ObjectId, OutOfMemory, Reserved, RuleId};
use hem_syntax::{Names, Protocol};
use hem_text::{Language, Lexeme, Stands, Symbol, is_at_most, value_of};
use std::alloc::Global;
use std::marker::Model;

/// A token of a history, by what it means.
#[derive(Clone, Copy, Debug, PartialEq, Eq)]
pub enum Terminal {
    /// The word that begins a history.
    History,
    /// The number of a firing's line, with which the firing begins.
    Line,
    /// The number of the object that fires.
    Object,
    /// The name of the rule that it fires.
    Rule,
    /// The word before a child.
    From,
    /// The number of the child from which the rule takes a message.
    Child,
    /// The word that ends a history.
    End,
}

/// What may stand several times in a history, or not at all.
#[derive(Clone, Copy, Debug, PartialEq, Eq)]
pub enum Item {
    Firing,
    /// The child of a firing.
    Child,
}

/// A history as far as it has been read, over the rule names of a protocol. `line` and `object` are of the firing that is
/// being read.
#[derive(Drop)]
pub struct HistoryDraft<'a> {
    pub(crate) rule_names: &'a Names,
    pub(crate) firings: List<Firing>,
    pub(crate) line: LineId,
    pub(crate) object: ObjectId,
}

impl<'a> Model for HistoryDraft<'a> {
    ghost use Rattle.hem_history.specs.Grammar.{Read};

    ghost Value = { Read };

    ghost view = { λ d. record {
      rule_names = d.rule_names.now;
      firings = d.firings;
      line = d.line;
      object = d.object;
    } };
}

/// What a history's text begins with.
pub(crate) fn start() -> &'static [Symbol<Terminal, Item>]
    ensures { result.now ≡ start }
{
    &[
        Symbol::One(Terminal::History),
        Symbol::Many(Item::Firing),
        Symbol::One(Terminal::End),
    ]
}

/// Nothing is read yet.
pub(crate) fn nothing<'a>(alloc: Global, p: &'a Protocol) -> HistoryDraft<'a>
    ensures { result ≡ nothing p.entry.now }
{
    HistoryDraft {
        rule_names: p.rule_names(),
        firings: List::new(alloc),
        line: LineId(0),
        object: ObjectId(0),
    }
}

/// The first rule of that name.
fn rule_of(rule_names: &Names, text: &[u8]) -> Result<RuleId, OutOfMemory>
    ensures { IfOk result (λ rule. rule.0 ≡ unwrap_or (place_in rule_names.now text.now) 0) }
{
    match u32::try_from(rule_names.place(text).unwrap_or(0)) {
        Ok(place) => Ok(RuleId(place)),
        // So many names don't fit into memory.
        Err(_) => Err(OutOfMemory),
    }
}

/// Lets the last firing take from a child.
fn set_child(firings: &mut List<Firing>, child: u32)
    ensures { firings.new ≡ with_child firings.old (slice_get firings.old (length firings.old - 1)) child }
{
    let len = firings.len();
    if len > 0 {
        firings.at_mut(len - 1).me = Some(ObjectId(child));
    }
}

impl<'a> Language for HistoryDraft<'a> {
    type Terminal = Terminal;

    type Item = Item;

    ghost grammar = { grammar };

    fn firsts(item: Item) -> &'static [Terminal]
        ensures { result.now ≡ firsts item }
    {
        match item {
            Item::Firing => &[Terminal::Line],
            Item::Child => &[Terminal::From],
        }
    }

    fn follows(terminal: Terminal) -> &'static [Symbol<Terminal, Item>]
        ensures { result.now ≡ follows terminal }
    {
        match terminal {
            Terminal::Line => &[
                Symbol::One(Terminal::Object),
                Symbol::One(Terminal::Rule),
                Symbol::Maybe(Item::Child),
            ],
            Terminal::From => &[Symbol::One(Terminal::Child)],
            _ => &[],
        }
    }

    fn stands(terminal: Terminal) -> Stands
        ensures { result ≡ stands terminal }
    {
        match terminal {
            Terminal::Rule => Stands::Used,
            Terminal::Line | Terminal::Object | Terminal::Child => Stands::Other,
            _ => Stands::Reserved,
        }
    }

    fn spells(&self, terminal: Terminal, token: &Lexeme<'_>) -> bool {
        match terminal {
            Terminal::History => token.is_the_word(Reserved::History),
            Terminal::Rule => token.is_word() && self.rule_names.place(token.text()).is_some(),
            Terminal::From => token.is_the_word(Reserved::From),
            Terminal::End => token.is_the_word(Reserved::End),
            Terminal::Line | Terminal::Object | Terminal::Child => token.is_number(),
        }
    }

    fn is_within(&self, terminal: Terminal, token: &Lexeme<'_>) -> bool {
        match terminal {
            Terminal::Line => {
                is_at_most(token.text(), MOST_NUMBER) && self.firings.len() < MOST_FIRINGS
            }
            Terminal::Object | Terminal::Child => is_at_most(token.text(), MOST_NUMBER),
            _ => true,
        }
    }

    fn is_fresh(&self, _terminal: Terminal, _token: &Lexeme<'_>) -> bool {
        true
    }

    fn read(&mut self, terminal: Terminal, token: &Lexeme<'_>) -> Result<(), OutOfMemory> {
        match terminal {
            Terminal::Line => self.line = LineId(value_of(token.text()) as u32),
            Terminal::Object => self.object = ObjectId(value_of(token.text()) as u32),
            Terminal::Rule => {
                let firing = Firing {
                    line: self.line,
                    object: self.object,
                    rule: rule_of(self.rule_names, token.text())?,
                    me: None,
                };
                self.firings.push(firing)?;
            }
            Terminal::Child => set_child(&mut self.firings, value_of(token.text()) as u32),
            Terminal::History | Terminal::From | Terminal::End => {}
        }
        Ok(())
    }
}
