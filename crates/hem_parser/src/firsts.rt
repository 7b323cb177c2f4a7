//! How a protocol and its items begin.

ghost use Rattle.std.specs.Prelude.{◌≡◌};
ghost use Rattle.hem_grammar.specs.Grammar.{start, firsts};

use hem_base::Reserved;
use hem_grammar::{AssignPart, AtomPart, Item, Part, RulePart, SendPart, Terminal};
use hem_syntax::{Class, Hold, Origin, Side, Value};
use hem_text::Symbol;

/// The words of the classes.
const CLASSES: &[Terminal] = &[
    Terminal::Part(Part::Class(Class::ExtReq)),
    Terminal::Part(Part::Class(Class::ExtRsp)),
    Terminal::Part(Part::Class(Class::UpReq)),
    Terminal::Part(Part::Class(Class::UpRsp)),
    Terminal::Part(Part::Class(Class::DownReq)),
    Terminal::Part(Part::Class(Class::DownRsp)),
];

/// How a take begins.
const TAKES: &[Terminal] = &[
    Terminal::Rule(RulePart::TakeMe),
    Terminal::Rule(RulePart::TakeParent),
    Terminal::Rule(RulePart::TakeKids),
    Terminal::Rule(RulePart::TakeNone),
];

/// What a rule may ask of the uplock.
const UP_HOLDS: &[Terminal] = &[
    Terminal::Rule(RulePart::Up(Hold::Any)),
    Terminal::Rule(RulePart::Up(Hold::Free)),
    Terminal::Rule(RulePart::Up(Hold::Child)),
    Terminal::Rule(RulePart::Up(Hold::Parent)),
    Terminal::Rule(RulePart::Up(Hold::Own)),
];

/// What a rule may ask of the downlock.
const DOWN_HOLDS: &[Terminal] = &[
    Terminal::Rule(RulePart::Down(Hold::Any)),
    Terminal::Rule(RulePart::Down(Hold::Free)),
    Terminal::Rule(RulePart::Down(Hold::Child)),
    Terminal::Rule(RulePart::Down(Hold::Parent)),
    Terminal::Rule(RulePart::Down(Hold::Own)),
];

/// How an atom begins.
const ATOMS: &[Terminal] = &[
    Terminal::Atom(AtomPart::Field),
    Terminal::Atom(AtomPart::Me),
    Terminal::Atom(AtomPart::Kids),
    Terminal::Atom(AtomPart::Others),
    Terminal::Atom(AtomPart::Asked),
];

/// How many children an atom may speak of.
const KIDS_HOWS: &[Terminal] = &[
    Terminal::Atom(AtomPart::KidsAll),
    Terminal::Atom(AtomPart::KidsAny),
];

/// How many other children an atom may speak of.
const OTHERS_HOWS: &[Terminal] = &[
    Terminal::Atom(AtomPart::OthersAll),
    Terminal::Atom(AtomPart::OthersAny),
];

/// How a set of a rule begins.
const ASSIGNS: &[Terminal] = &[
    Terminal::Assign(AssignPart::Field),
    Terminal::Assign(AssignPart::Val),
    Terminal::Assign(AssignPart::Me),
    Terminal::Assign(AssignPart::Targets),
];

/// The values of a set.
const ASSIGN_VALUES: &[Terminal] = &[
    Terminal::Assign(AssignPart::Value(Value::Val)),
    Terminal::Assign(AssignPart::Value(Value::Msg)),
    Terminal::Assign(AssignPart::Value(Value::Kept)),
    Terminal::Assign(AssignPart::Value(Value::Rs)),
    Terminal::Assign(AssignPart::Value(Value::Zero)),
];

/// The locks that a rule may free.
const FREE_SIDES: &[Terminal] = &[
    Terminal::Rule(RulePart::FreeSide(Side::Up)),
    Terminal::Rule(RulePart::FreeSide(Side::Down)),
];

/// The locks that a rule may take.
const LOCK_SIDES: &[Terminal] = &[
    Terminal::Rule(RulePart::LockSide(Side::Up)),
    Terminal::Rule(RulePart::LockSide(Side::Down)),
];

/// For whom a rule may lock.
const LOCK_ORIGINS: &[Terminal] = &[
    Terminal::Rule(RulePart::LockOrigin(Origin::Child)),
    Terminal::Rule(RulePart::LockOrigin(Origin::Parent)),
    Terminal::Rule(RulePart::LockOrigin(Origin::Own)),
];

/// To whom a rule may send.
const SEND_TOS: &[Terminal] = &[
    Terminal::Send(SendPart::Me),
    Terminal::Send(SendPart::Parent),
    Terminal::Send(SendPart::Kids),
    Terminal::Send(SendPart::Others),
];

/// The values of a send.
const SEND_VALUES: &[Terminal] = &[
    Terminal::Send(SendPart::Value(Value::Val)),
    Terminal::Send(SendPart::Value(Value::Msg)),
    Terminal::Send(SendPart::Value(Value::Kept)),
    Terminal::Send(SendPart::Value(Value::Rs)),
    Terminal::Send(SendPart::Value(Value::Zero)),
];

/// A protocol from its first word to its last.
const START: &[Symbol<Terminal, Item>] = &[
    Symbol::One(Terminal::Word(Reserved::Protocol)),
    Symbol::One(Terminal::Part(Part::Name)),
    Symbol::One(Terminal::Word(Reserved::Status)),
    Symbol::One(Terminal::Part(Part::NewStatus)),
    Symbol::One(Terminal::Part(Part::NewStatus)),
    Symbol::Many(Item::MoreStatuses),
    Symbol::Many(Item::Messages),
    Symbol::One(Terminal::Word(Reserved::Kind)),
    Symbol::One(Terminal::Word(Reserved::Root)),
    Symbol::Many(Item::Fields),
    Symbol::One(Terminal::Word(Reserved::Dir)),
    Symbol::One(Terminal::Word(Reserved::Init)),
    Symbol::One(Terminal::Part(Part::DirStart)),
    Symbol::Many(Item::Rules),
    Symbol::One(Terminal::Part(Part::EndRoot)),
    Symbol::One(Terminal::Word(Reserved::Kind)),
    Symbol::One(Terminal::Word(Reserved::Mid)),
    Symbol::Many(Item::Fields),
    Symbol::One(Terminal::Word(Reserved::Dir)),
    Symbol::One(Terminal::Word(Reserved::Init)),
    Symbol::One(Terminal::Part(Part::DirStart)),
    Symbol::Many(Item::Rules),
    Symbol::One(Terminal::Part(Part::EndMid)),
    Symbol::One(Terminal::Word(Reserved::Kind)),
    Symbol::One(Terminal::Word(Reserved::Leaf)),
    Symbol::Many(Item::Fields),
    Symbol::Many(Item::Rules),
    Symbol::One(Terminal::Word(Reserved::End)),
    Symbol::One(Terminal::Word(Reserved::End)),
];

/// The tokens with which an item may begin.
pub fn firsts(item: Item) -> &'static [Terminal]
    ensures { result.now ≡ firsts item }
{
    match item {
        Item::MoreStatuses => &[Terminal::Part(Part::NewStatus)],
        Item::Messages => &[Terminal::Part(Part::Message)],
        Item::Classes => CLASSES,
        Item::Fields => &[Terminal::Part(Part::Field)],
        Item::Rules => &[Terminal::Rule(RulePart::Rule)],
        Item::Take => TAKES,
        Item::UpHold => UP_HOLDS,
        Item::DownHold => DOWN_HOLDS,
        Item::When => &[Terminal::Atom(AtomPart::When)],
        Item::Atom => ATOMS,
        Item::MoreAtoms => &[Terminal::Atom(AtomPart::Comma)],
        Item::KidsHow => KIDS_HOWS,
        Item::OthersHow => OTHERS_HOWS,
        Item::AtomMore => &[Terminal::Atom(AtomPart::More)],
        Item::Set => &[Terminal::Assign(AssignPart::Set)],
        Item::Assign => ASSIGNS,
        Item::MoreAssigns => &[Terminal::Assign(AssignPart::Comma)],
        Item::AssignValue => ASSIGN_VALUES,
        Item::Free => &[Terminal::Rule(RulePart::Free)],
        Item::FreeSide => FREE_SIDES,
        Item::Lock => &[Terminal::Rule(RulePart::Lock)],
        Item::LockSide => LOCK_SIDES,
        Item::LockOrigin => LOCK_ORIGINS,
        Item::Send => &[Terminal::Send(SendPart::Send)],
        Item::SendTo => SEND_TOS,
        Item::SendMore => &[Terminal::Send(SendPart::More)],
        Item::SendValue => SEND_VALUES,
    }
}

/// What the text of a protocol that is written out begins with.
pub fn start() -> &'static [Symbol<Terminal, Item>]
    ensures { result.now ≡ start }
{
    START
}
