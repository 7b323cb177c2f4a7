//! The grammar of protocols that are written out.

ghost use Rattle.hem_grammar.specs.Draft.{grammar};

use crate::assign::{assign_follows, assign_stands};
use crate::atom::{atom_follows, atom_stands};
use crate::draft::Draft;
use crate::firsts::firsts;
use crate::part::{part_follows, part_stands};
use crate::rule_part::{rule_follows, rule_stands};
use crate::send::{send_follows, send_stands};
use hem_base::OutOfMemory;
use hem_grammar::{Item, Terminal};
use hem_text::{Language, Lexeme, Stands, Symbol};

impl Language for Draft {
    type Terminal = Terminal;

    type Item = Item;

    ghost grammar = { grammar };

    fn firsts(item: Item) -> &'static [Terminal] {
        firsts(item)
    }

    fn follows(terminal: Terminal) -> &'static [Symbol<Terminal, Item>] {
        match terminal {
            Terminal::Word(_) | Terminal::Sign(_) => &[],
            Terminal::Part(part) => part_follows(part),
            Terminal::Rule(part) => rule_follows(part),
            Terminal::Atom(part) => atom_follows(part),
            Terminal::Assign(part) => assign_follows(part),
            Terminal::Send(part) => send_follows(part),
        }
    }

    fn stands(terminal: Terminal) -> Stands {
        match terminal {
            Terminal::Word(_) => Stands::Reserved,
            Terminal::Sign(_) => Stands::Other,
            Terminal::Part(part) => part_stands(part),
            Terminal::Rule(part) => rule_stands(part),
            Terminal::Atom(part) => atom_stands(part),
            Terminal::Assign(part) => assign_stands(part),
            Terminal::Send(part) => send_stands(part),
        }
    }

    fn spells(&self, terminal: Terminal, token: &Lexeme<'_>) -> bool {
        match terminal {
            Terminal::Word(word) => token.is_the_word(word),
            Terminal::Sign(sign) => token.is_the_sign(sign),
            Terminal::Part(part) => self.part_spells(part, token),
            Terminal::Rule(part) => self.rule_spells(part, token),
            Terminal::Atom(part) => self.atom_spells(part, token),
            Terminal::Assign(part) => self.assign_spells(part, token),
            Terminal::Send(part) => self.send_spells(part, token),
        }
    }

    fn is_within(&self, terminal: Terminal, token: &Lexeme<'_>) -> bool {
        match terminal {
            Terminal::Part(part) => self.part_within(part, token.text()),
            Terminal::Rule(part) => self.rule_within(part, token.text()),
            Terminal::Atom(part) => self.atom_within(part),
            Terminal::Assign(part) => self.assign_within(part),
            Terminal::Word(_) | Terminal::Sign(_) | Terminal::Send(_) => true,
        }
    }

    fn is_fresh(&self, terminal: Terminal, token: &Lexeme<'_>) -> bool {
        match terminal {
            Terminal::Part(part) => self.part_fresh(part, token.text()),
            Terminal::Rule(part) => self.rule_fresh(part, token.text()),
            Terminal::Atom(part) => self.atom_fresh(part, token.text()),
            Terminal::Assign(part) => self.assign_fresh(part, token.text()),
            Terminal::Send(part) => self.send_fresh(part, token.text()),
            Terminal::Word(_) | Terminal::Sign(_) => true,
        }
    }

    fn read(&mut self, terminal: Terminal, token: &Lexeme<'_>) -> Result<(), OutOfMemory> {
        match terminal {
            Terminal::Word(_) | Terminal::Sign(_) => {}
            Terminal::Part(part) => self.read_part(part, token.text())?,
            Terminal::Rule(part) => self.read_rule(part, token.text())?,
            Terminal::Atom(part) => self.read_atom(part, token.text())?,
            Terminal::Assign(part) => self.read_assign(part, token.text())?,
            Terminal::Send(part) => self.read_send(part, token.text()),
        }
        Ok(())
    }
}
