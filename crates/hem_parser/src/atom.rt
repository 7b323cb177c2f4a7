//! Tokens of guards.

ghost use Rattle.std.specs.Prelude.{◌≡◌, OnOk, OnErr};
ghost use Rattle.hem_grammar.specs.Grammar.{atom_follows, atom_stands};
ghost use Rattle.hem_grammar.specs.Draft.{atom_spells, atom_within, atom_fresh, atom_said};

use crate::draft::Draft;
use crate::last::{last_atom, set_last_atom};
use crate::sets::{atom_set, atom_with};
use hem_base::{MsgId, OutOfMemory, Reserved, Sign, StatusSet};
use hem_grammar::{AtomPart, Item, Terminal};
use hem_syntax::Atom;
use hem_text::{Lexeme, Stands, Symbol};

/// How many atoms a guard may have.
const MOST_ATOMS: usize = 16;

/// What must follow a token of a guard.
pub fn atom_follows(part: AtomPart) -> &'static [Symbol<Terminal, Item>]
    ensures { result.now ≡ atom_follows part }
{
    match part {
        AtomPart::When => &[Symbol::Item(Item::Atom), Symbol::Many(Item::MoreAtoms)],
        AtomPart::Comma => &[Symbol::Item(Item::Atom)],
        AtomPart::Field | AtomPart::Me => &[
            Symbol::One(Terminal::Word(Reserved::In)),
            Symbol::One(Terminal::Atom(AtomPart::Status)),
            Symbol::Many(Item::AtomMore),
        ],
        AtomPart::Kids => &[
            Symbol::Item(Item::KidsHow),
            Symbol::One(Terminal::Atom(AtomPart::Status)),
            Symbol::Many(Item::AtomMore),
        ],
        AtomPart::Others => &[
            Symbol::Item(Item::OthersHow),
            Symbol::One(Terminal::Atom(AtomPart::Status)),
            Symbol::Many(Item::AtomMore),
        ],
        AtomPart::Asked => &[Symbol::One(Terminal::Atom(AtomPart::Message))],
        _ => &[],
    }
}

/// Whether the token is a reserved word, a used name or something else.
pub fn atom_stands(part: AtomPart) -> Stands
    ensures { result ≡ atom_stands part }
{
    match part {
        AtomPart::Field | AtomPart::Status | AtomPart::More | AtomPart::Message => Stands::Used,
        AtomPart::Comma => Stands::Other,
        _ => Stands::Reserved,
    }
}

impl Draft {
    pub(crate) fn atom_spells(&self, part: AtomPart, token: &Lexeme<'_>) -> bool
        ensures { result ≡ atom_spells self.now part token.now }
    {
        match part {
            AtomPart::When => token.is_the_word(Reserved::When),
            AtomPart::Comma => token.is_the_sign(Sign::Comma),
            AtomPart::Field => self.is_field(token),
            AtomPart::Me => token.is_the_word(Reserved::Me),
            AtomPart::Kids => token.is_the_word(Reserved::Kids),
            AtomPart::Others => token.is_the_word(Reserved::Others),
            AtomPart::Asked => token.is_the_word(Reserved::Asked),
            AtomPart::KidsAll | AtomPart::OthersAll => token.is_the_word(Reserved::All),
            AtomPart::KidsAny | AtomPart::OthersAny => token.is_the_word(Reserved::Any),
            AtomPart::Status | AtomPart::More => self.is_status(token),
            AtomPart::Message => self.is_message(token),
        }
    }

    pub(crate) fn atom_within(&self, part: AtomPart) -> bool
        ensures { result ≡ atom_within self.now part }
    {
        match part {
            AtomPart::Field | AtomPart::Me | AtomPart::Kids | AtomPart::Others | AtomPart::Asked =>
                self.rule.guard.len() < MOST_ATOMS,
            _ => true,
        }
    }

    pub(crate) fn atom_fresh(&self, part: AtomPart, text: &[u8]) -> bool
        ensures { result ≡ atom_fresh self.now part text.now }
    {
        match part {
            AtomPart::More => {
                let set = atom_set(last_atom(&self.rule.guard));
                !set.has(self.status(text))
            }
            _ => true,
        }
    }

    pub(crate) fn read_atom(&mut self, part: AtomPart, text: &[u8]) -> Result<(), OutOfMemory>
        ensures ok { OnOk result (self.new ≡ record self.old { rule = atom_said self.old part text.now }) }
        ensures err { OnErr result (self.new ≡ self.old) }
    {
        let none = StatusSet(0);
        match part {
            AtomPart::Field => {
                let field = self.field(text);
                self.rule.guard.push(Atom::Field(field, none))?;
            }
            AtomPart::Me => self.rule.guard.push(Atom::Me(none))?,
            AtomPart::Asked => self.rule.guard.push(Atom::Asked(MsgId(0)))?,
            AtomPart::KidsAll => self.rule.guard.push(Atom::KidsAll(none))?,
            AtomPart::KidsAny => self.rule.guard.push(Atom::KidsAny(none))?,
            AtomPart::OthersAll => self.rule.guard.push(Atom::OthersAll(none))?,
            AtomPart::OthersAny => self.rule.guard.push(Atom::OthersAny(none))?,
            AtomPart::Status | AtomPart::More => {
                let atom = atom_with(last_atom(&self.rule.guard), self.status(text));
                set_last_atom(&mut self.rule.guard, atom);
            }
            AtomPart::Message => {
                let id = self.message(text);
                set_last_atom(&mut self.rule.guard, Atom::Asked(id));
            }
            AtomPart::When | AtomPart::Comma | AtomPart::Kids | AtomPart::Others => {}
        }
        Ok(())
    }
}
