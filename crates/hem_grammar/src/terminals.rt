//! The tokens and items of a protocol that is written out, by what they mean.

use hem_syntax::{Class, Hold, Origin, Side, Value};
use hem_base::{Reserved, Sign};

/// A token of a protocol.
#[derive(Clone, Copy, Debug, PartialEq, Eq)]
pub enum Terminal {
    Word(Reserved),
    Sign(Sign),
    Part(Part),
    Rule(RulePart),
    Atom(AtomPart),
    Assign(AssignPart),
    Send(SendPart),
}

/// A token of a declaration. `Message` and `Field` are the words with which an item begins, and `EndRoot` and
/// `EndMid` the words that end a kind.
#[derive(Clone, Copy, Debug, PartialEq, Eq)]
pub enum Part {
    Name,
    NewStatus,
    Message,
    NewMessage,
    Class(Class),
    Field,
    NewField,
    FieldStart,
    DirStart,
    EndRoot,
    EndMid,
}

/// A token of a rule outside its guard, sets and send. `Rule`, `Free` and `Lock` are the words themselves.
#[derive(Clone, Copy, Debug, PartialEq, Eq)]
pub enum RulePart {
    Rule,
    NewRule,
    TakeMe,
    TakeParent,
    TakeKids,
    TakeNone,
    TakeMessage,
    Up(Hold),
    Down(Hold),
    Free,
    FreeSide(Side),
    Lock,
    LockSide(Side),
    LockOrigin(Origin),
    EndRule,
}

/// A token of a guard. `When` and `Comma` stand before its atoms, `Field` to `Asked` begin one, `Status` is the first
/// status of a set and `More` a later one.
#[derive(Clone, Copy, Debug, PartialEq, Eq)]
pub enum AtomPart {
    When,
    Comma,
    Field,
    Me,
    Kids,
    Others,
    Asked,
    KidsAll,
    KidsAny,
    OthersAll,
    OthersAny,
    Status,
    More,
    Message,
}

/// A token of the sets of a rule. `Set` and `Comma` stand before them, and `Field` to `Targets` begin one.
#[derive(Clone, Copy, Debug, PartialEq, Eq)]
pub enum AssignPart {
    Set,
    Comma,
    Field,
    Val,
    Me,
    Targets,
    Status,
    Value(Value),
}

/// A token of the send of a rule. `Send` is the word itself, `Me` to `Others` say to whom, `Status` is the first status
/// of a set and `More` a later one.
#[derive(Clone, Copy, Debug, PartialEq, Eq)]
pub enum SendPart {
    Send,
    Me,
    Parent,
    Kids,
    Others,
    Status,
    More,
    Message,
    Value(Value),
}

/// What may stand at a place of a protocol, or repeatedly.
#[derive(Clone, Copy, Debug, PartialEq, Eq)]
pub enum Item {
    MoreStatuses,
    Messages,
    Classes,
    Fields,
    Rules,
    Take,
    UpHold,
    DownHold,
    When,
    Atom,
    MoreAtoms,
    KidsHow,
    OthersHow,
    AtomMore,
    Set,
    Assign,
    MoreAssigns,
    AssignValue,
    Free,
    FreeSide,
    Lock,
    LockSide,
    LockOrigin,
    Send,
    SendTo,
    SendMore,
    SendValue,
}
