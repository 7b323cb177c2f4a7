//! Tokens of rules outside guards, sets and sends.

ghost use Rattle.std.specs.Prelude.{◌≡◌, ◌==◌, [], ◌∷◌, ◌++◌, IsTrue, OnOk, OnErr};
ghost use Rattle.std.specs.List.{list_any};
ghost use Rattle.hem_grammar.specs.declared.terminals.RulePart.TheVariants.{NewRule};
ghost use Rattle.hem_grammar.specs.Grammar.{rule_follows, rule_stands};
ghost use Rattle.hem_grammar.specs.Draft.{rule_spells, rule_within, rule_fresh, rule_after, no_rule};

use crate::draft::{Draft, name_of, no_rule};
use crate::last::set_last_rule;
use crate::sets::take_with;
use crate::words::is_short;
use hem_base::{MsgId, OutOfMemory, Reserved};
use hem_grammar::{Item, RulePart, Terminal, hold_word, origin_word, side_word};
use hem_syntax::{Origin, Rule, Take};
use hem_text::{Lexeme, Stands, Symbol};

/// How many rules a kind may have.
const MOST_RULES: usize = 64;

/// What must follow a token of a rule.
pub fn rule_follows(part: RulePart) -> &'static [Symbol<Terminal, Item>]
    ensures { result.now ≡ rule_follows part }
{
    match part {
        RulePart::Rule => &[
            Symbol::One(Terminal::Rule(RulePart::NewRule)),
            Symbol::One(Terminal::Word(Reserved::Take)),
            Symbol::Item(Item::Take),
            Symbol::One(Terminal::Word(Reserved::Need)),
            Symbol::One(Terminal::Word(Reserved::Up)),
            Symbol::Item(Item::UpHold),
            Symbol::One(Terminal::Word(Reserved::Down)),
            Symbol::Item(Item::DownHold),
            Symbol::Maybe(Item::When),
            Symbol::Maybe(Item::Set),
            Symbol::Maybe(Item::Free),
            Symbol::Maybe(Item::Lock),
            Symbol::Maybe(Item::Send),
            Symbol::One(Terminal::Rule(RulePart::EndRule)),
        ],
        RulePart::TakeMe | RulePart::TakeParent | RulePart::TakeKids => &[Symbol::One(
            Terminal::Rule(RulePart::TakeMessage),
        )],
        RulePart::Free => &[Symbol::Item(Item::FreeSide)],
        RulePart::Lock => &[Symbol::Item(Item::LockSide), Symbol::Item(Item::LockOrigin)],
        _ => &[],
    }
}

/// Whether the token is a reserved word, a used name or something else.
pub fn rule_stands(part: RulePart) -> Stands
    ensures { result ≡ rule_stands part }
{
    match part {
        RulePart::TakeMessage => Stands::Used,
        RulePart::NewRule => Stands::Other,
        _ => Stands::Reserved,
    }
}

/// Whether a rule of that name is there.
fn is_named(rules: &[Rule], name: usize) -> bool
    ensures { result ≡ list_any (λ x. x.name.0 == name) rules.now }
{
    rules.iter().any(|rule| rule.name.0 as usize == name)
}

impl Draft {
    pub(crate) fn rule_spells(&self, part: RulePart, token: &Lexeme<'_>) -> bool
        ensures { result ≡ rule_spells self.now part token.now }
    {
        match part {
            RulePart::Rule => token.is_the_word(Reserved::Rule),
            RulePart::NewRule => token.is_name(),
            RulePart::TakeMe => token.is_the_word(Reserved::Me),
            RulePart::TakeParent => token.is_the_word(Reserved::Parent),
            RulePart::TakeKids => token.is_the_word(Reserved::Kids),
            RulePart::TakeNone => token.is_the_word(Reserved::None),
            RulePart::TakeMessage => self.is_message(token),
            RulePart::Up(hold) | RulePart::Down(hold) => token.is_the_word(hold_word(hold)),
            RulePart::Free => token.is_the_word(Reserved::Free),
            RulePart::FreeSide(side) | RulePart::LockSide(side) => {
                token.is_the_word(side_word(side))
            }
            RulePart::Lock => token.is_the_word(Reserved::Lock),
            RulePart::LockOrigin(origin) => token.is_the_word(origin_word(origin)),
            RulePart::EndRule => token.is_the_word(Reserved::End),
        }
    }

    pub(crate) fn rule_within(&self, part: RulePart, text: &[u8]) -> bool
        ensures { result ≡ rule_within self.now part text.now }
    {
        match part {
            RulePart::Rule => self.rules.len() < MOST_RULES,
            RulePart::NewRule => is_short(text),
            _ => true,
        }
    }

    pub(crate) fn rule_fresh(&self, part: RulePart, text: &[u8]) -> bool
        ensures { result ≡ rule_fresh self.now part text.now }
    {
        match part {
            RulePart::NewRule => !is_named(self.rules.as_slice(), self.rule_place(text)),
            _ => true,
        }
    }

    /// Takes in the name of a rule. Where memory is wanted, what was read stays as it was.
    fn read_name(&mut self, text: &[u8]) -> Result<(), OutOfMemory>
        requires { IsTrue (rule_within self.old (NewRule) text.now) }
        ensures ok { OnOk result (self.new ≡ rule_after self.old (NewRule) text.now) }
        ensures err { OnErr result (self.new ≡ self.old) }
    {
        let id = self.rule_id(text)?;
        if !self.rule_names.has(text) {
            self.rule_names.push(name_of(text))?;
        }
        self.rule.name = id;
        Ok(())
    }

    /// Puts the rule that is being read at the end of the kind's. Where memory is wanted, what was read stays as it was.
    #[tactic(auto, using(crate::proofs::Lists::set_of))]
    fn end_rule(&mut self) -> Result<(), OutOfMemory>
        ensures ok { OnOk result (self.new ≡ record self.old { rules = self.old.rules ++ self.old.rule ∷ []; rule = no_rule }) }
        ensures err { OnErr result (self.new ≡ self.old) }
    {
        self.rules.push(no_rule(self.alloc))?;
        let rule = self.take_rule();
        set_last_rule(&mut self.rules, rule);
        Ok(())
    }

    pub(crate) fn read_rule(&mut self, part: RulePart, text: &[u8]) -> Result<(), OutOfMemory>
        requires { IsTrue (rule_within self.old part text.now) }
        ensures ok { OnOk result (self.new ≡ rule_after self.old part text.now) }
        ensures err { OnErr result (self.new ≡ self.old) }
    {
        match part {
            RulePart::NewRule => self.read_name(text)?,
            RulePart::TakeMe => self.rule.take = Take::Me(MsgId(0)),
            RulePart::TakeParent => self.rule.take = Take::Parent(MsgId(0)),
            RulePart::TakeKids => self.rule.take = Take::Kids(MsgId(0)),
            RulePart::TakeNone => self.rule.take = Take::Nothing,
            RulePart::TakeMessage => {
                let id = self.message(text);
                self.rule.take = take_with(self.rule.take, id);
            }
            RulePart::Up(hold) => self.rule.need.up = hold,
            RulePart::Down(hold) => self.rule.need.down = hold,
            RulePart::FreeSide(side) => self.rule.free = Some(side),
            RulePart::LockSide(side) => self.rule.lock = Some((side, Origin::Own)),
            RulePart::LockOrigin(origin) => {
                self.rule.lock = self.rule.lock.map(|(side, _)| (side, origin));
            }
            RulePart::EndRule => self.end_rule()?,
            RulePart::Rule | RulePart::Free | RulePart::Lock => {}
        }
        Ok(())
    }
}
