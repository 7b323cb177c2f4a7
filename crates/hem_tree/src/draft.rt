//! The grammar of trees.

ghost use Rattle.std.specs.Prelude.{◌≡◌};
ghost use Rattle.hem_tree.specs.Grammar.{start, word_of, grammar, nothing};

use crate::raw::RawNode;
use hem_base::{Kind, List, OutOfMemory, Reserved, Sign};
use hem_text::{Language, Lexeme, Stands, Symbol};
use std::alloc::Global;

/// A token of a tree, by what it means.
#[derive(Clone, Copy, Debug, PartialEq, Eq)]
pub enum Terminal {
    /// The word that begins a tree.
    Tree,
    Node(Kind),
    Open,
    Close,
}

/// What may stand several times in a tree.
#[derive(Clone, Copy, Debug, PartialEq, Eq)]
pub enum Item {
    /// A node that isn't the root.
    Node,
}

/// A tree as far as it has been read: its nodes in order, and the level of the next one.
#[derive(Debug, Drop)]
pub struct TreeDraft {
    pub nodes: List<RawNode>,
    pub level: u32,
}

/// What a tree's text begins with.
pub fn start() -> &'static [Symbol<Terminal, Item>]
    ensures { result.now ≡ start }
{
    &[
        Symbol::One(Terminal::Tree),
        Symbol::One(Terminal::Node(Kind::Root)),
    ]
}

/// No node is read yet.
pub fn nothing(alloc: Global) -> TreeDraft
    ensures { result ≡ nothing }
{
    TreeDraft {
        nodes: List::new(alloc),
        level: 1,
    }
}

/// The word of a kind of objects.
fn word_of(kind: Kind) -> Reserved
    ensures { result ≡ word_of kind }
{
    match kind {
        Kind::Root => Reserved::Root,
        Kind::Mid => Reserved::Mid,
        Kind::Leaf => Reserved::Leaf,
    }
}

impl Language for TreeDraft {
    type Terminal = Terminal;

    type Item = Item;

    ghost grammar = { grammar };

    fn firsts(item: Item) -> &'static [Terminal] {
        match item {
            Item::Node => &[Terminal::Node(Kind::Leaf), Terminal::Node(Kind::Mid)],
        }
    }

    fn follows(terminal: Terminal) -> &'static [Symbol<Terminal, Item>] {
        match terminal {
            Terminal::Node(Kind::Root) | Terminal::Node(Kind::Mid) => &[
                Symbol::One(Terminal::Open),
                Symbol::Item(Item::Node),
                Symbol::Many(Item::Node),
                Symbol::One(Terminal::Close),
            ],
            _ => &[],
        }
    }

    fn stands(terminal: Terminal) -> Stands {
        match terminal {
            Terminal::Tree | Terminal::Node(_) => Stands::Reserved,
            Terminal::Open | Terminal::Close => Stands::Other,
        }
    }

    fn spells(&self, terminal: Terminal, token: &Lexeme<'_>) -> bool {
        match terminal {
            Terminal::Tree => token.is_the_word(Reserved::Tree),
            Terminal::Node(kind) => token.is_the_word(word_of(kind)),
            Terminal::Open => token.is_the_sign(Sign::Open),
            Terminal::Close => token.is_the_sign(Sign::Close),
        }
    }

    fn is_within(&self, _terminal: Terminal, _token: &Lexeme<'_>) -> bool {
        true
    }

    fn is_fresh(&self, _terminal: Terminal, _token: &Lexeme<'_>) -> bool {
        true
    }

    fn read(&mut self, terminal: Terminal, token: &Lexeme<'_>) -> Result<(), OutOfMemory> {
        match terminal {
            Terminal::Node(kind) => {
                let node = RawNode {
                    kind,
                    level: self.level,
                    place: token.place(),
                };
                self.nodes.push(node)?;
            }
            // A tree of so many levels doesn't fit into memory.
            Terminal::Open => self.level = self.level.checked_add(1).ok_or(OutOfMemory)?,
            Terminal::Close => self.level = self.level.saturating_sub(1),
            Terminal::Tree => {}
        }
        Ok(())
    }
}
