//! Tokens of sets.

ghost use Rattle.std.specs.Prelude.{◌≡◌, OnOk, OnErr};
ghost use Rattle.std.specs.List.{list_any};
ghost use Rattle.hem_grammar.specs.Grammar.{assign_follows, assign_stands};
ghost use Rattle.hem_grammar.specs.Draft.{assign_spells, assign_within, assign_fresh, assign_said, sets_field, sets_val, sets_me, sets_targets};

use crate::draft::Draft;
use crate::last::{last_assign, set_last_assign};
use crate::sets::assign_with;
use crate::words::{spells_value, value_stands};
use hem_base::{OutOfMemory, Reserved, Sign, Status8};
use hem_grammar::{AssignPart, Item, Terminal};
use hem_syntax::{Assign, Value};
use hem_text::{Lexeme, Stands, Symbol};

/// How many sets a rule may have.
const MOST_SETS: usize = 8;

/// What must follow a token of the sets.
pub fn assign_follows(part: AssignPart) -> &'static [Symbol<Terminal, Item>]
    ensures { result.now ≡ assign_follows part }
{
    match part {
        AssignPart::Set => &[Symbol::Item(Item::Assign), Symbol::Many(Item::MoreAssigns)],
        AssignPart::Comma => &[Symbol::Item(Item::Assign)],
        AssignPart::Field => &[
            Symbol::One(Terminal::Sign(Sign::Assign)),
            Symbol::One(Terminal::Assign(AssignPart::Status)),
        ],
        AssignPart::Val => &[
            Symbol::One(Terminal::Sign(Sign::Assign)),
            Symbol::Item(Item::AssignValue),
        ],
        AssignPart::Me | AssignPart::Targets => &[
            Symbol::One(Terminal::Sign(Sign::Assign)),
            Symbol::One(Terminal::Assign(AssignPart::Status)),
        ],
        _ => &[],
    }
}

/// Whether the token is a reserved word, a used name or something else.
pub fn assign_stands(part: AssignPart) -> Stands
    ensures { result ≡ assign_stands part }
{
    match part {
        AssignPart::Field | AssignPart::Status => Stands::Used,
        AssignPart::Comma => Stands::Other,
        AssignPart::Value(value) => value_stands(value),
        _ => Stands::Reserved,
    }
}

fn sets_field(field: u8, assign: Assign) -> bool
    ensures { result ≡ sets_field field assign }
{
    match assign {
        Assign::Field(other, _) => field == other,
        _ => false,
    }
}

fn sets_val(assign: Assign) -> bool
    ensures { result ≡ sets_val assign }
{
    match assign {
        Assign::Val(_) => true,
        _ => false,
    }
}

fn sets_me(assign: Assign) -> bool
    ensures { result ≡ sets_me assign }
{
    match assign {
        Assign::Me(_) => true,
        _ => false,
    }
}

fn sets_targets(assign: Assign) -> bool
    ensures { result ≡ sets_targets assign }
{
    match assign {
        Assign::Targets(_) => true,
        _ => false,
    }
}

fn any_sets_field(sets: &[Assign], field: u8) -> bool
    ensures { result ≡ list_any (sets_field field) sets.now }
{
    sets.iter().any(|x| sets_field(field, *x))
}

fn any_sets_val(sets: &[Assign]) -> bool
    ensures { result ≡ list_any sets_val sets.now }
{
    sets.iter().any(|x| sets_val(*x))
}

fn any_sets_me(sets: &[Assign]) -> bool
    ensures { result ≡ list_any sets_me sets.now }
{
    sets.iter().any(|x| sets_me(*x))
}

fn any_sets_targets(sets: &[Assign]) -> bool
    ensures { result ≡ list_any sets_targets sets.now }
{
    sets.iter().any(|x| sets_targets(*x))
}

impl Draft {
    pub(crate) fn assign_spells(&self, part: AssignPart, token: &Lexeme<'_>) -> bool
        ensures { result ≡ assign_spells self.now part token.now }
    {
        match part {
            AssignPart::Set => token.is_the_word(Reserved::Set),
            AssignPart::Comma => token.is_the_sign(Sign::Comma),
            AssignPart::Field => self.is_field(token),
            AssignPart::Val => token.is_the_word(Reserved::Val),
            AssignPart::Me => token.is_the_word(Reserved::Me),
            AssignPart::Targets => token.is_the_word(Reserved::Targets),
            AssignPart::Status => self.is_status(token),
            AssignPart::Value(value) => spells_value(value, token),
        }
    }

    pub(crate) fn assign_within(&self, part: AssignPart) -> bool
        ensures { result ≡ assign_within self.now part }
    {
        match part {
            AssignPart::Field | AssignPart::Val | AssignPart::Me | AssignPart::Targets => {
                self.rule.sets.len() < MOST_SETS
            }
            _ => true,
        }
    }

    pub(crate) fn assign_fresh(&self, part: AssignPart, text: &[u8]) -> bool
        ensures { result ≡ assign_fresh self.now part text.now }
    {
        let sets = self.rule.sets.as_slice();
        match part {
            AssignPart::Field => !any_sets_field(sets, self.field(text)),
            AssignPart::Val => !any_sets_val(sets),
            AssignPart::Me => !any_sets_me(sets),
            AssignPart::Targets => !any_sets_targets(sets),
            _ => true,
        }
    }

    pub(crate) fn read_assign(&mut self, part: AssignPart, text: &[u8]) -> Result<(), OutOfMemory>
        ensures ok { OnOk result (self.new ≡ record self.old { rule = assign_said self.old part text.now }) }
        ensures err { OnErr result (self.new ≡ self.old) }
    {
        let first = Status8(0);
        match part {
            AssignPart::Field => {
                let field = self.field(text);
                self.rule.sets.push(Assign::Field(field, first))?;
            }
            AssignPart::Val => self.rule.sets.push(Assign::Val(Value::Zero))?,
            AssignPart::Me => self.rule.sets.push(Assign::Me(first))?,
            AssignPart::Targets => self.rule.sets.push(Assign::Targets(first))?,
            AssignPart::Status => {
                let assign = assign_with(last_assign(&self.rule.sets), self.status(text));
                set_last_assign(&mut self.rule.sets, assign);
            }
            AssignPart::Value(value) => set_last_assign(&mut self.rule.sets, Assign::Val(value)),
            AssignPart::Set | AssignPart::Comma => {}
        }
        Ok(())
    }
}
