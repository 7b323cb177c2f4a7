//! The rules of modules. A register and a queue are named by their places in text order, from 0.

use hem_base::{List, MsgId, Name};

/// A test of a register or of a queue's head.
#[derive(Clone, Copy, Debug, PartialEq, Eq)]
pub enum ModAtom {
    /// The register holds the number.
    Is(usize, u64),
    /// The register holds another number.
    Not(usize, u64),
    /// The queue has a head, and its head has this id.
    Head(usize, MsgId),
}

/// A clause of a rule's condition, which holds where one of its tests does. One without tests never holds.
#[derive(Debug, Drop)]
pub struct ModClause {
    /// The tests, in text order.
    pub atoms: List<ModAtom>,
}

/// A number that an action writes or sends, read from the state before the step.
#[derive(Clone, Copy, Debug, PartialEq, Eq)]
pub enum ModValue {
    /// This number.
    Number(u64),
    /// What the register holds.
    Reg(usize),
    /// The value of the queue's head, and 0 of an empty queue.
    Front(usize),
}

/// What an action does.
#[derive(Clone, Copy, Debug, PartialEq, Eq)]
pub enum Act {
    /// The queue loses its head, if it has one. However many actions say so, it loses one.
    Deq(usize),
    /// The register is written. The last action that writes a register gives its number.
    Set(usize, ModValue),
    /// An item of this id and value goes to the end of the queue.
    Enq(usize, MsgId, ModValue),
}

/// An action, which is done where all its tests hold.
#[derive(Debug, Drop)]
pub struct Action {
    /// The tests, in text order.
    pub cond: List<ModAtom>,
    /// What is done.
    pub act: Act,
}

/// A rule of modules. It can fire where each of its clauses holds.
#[derive(Debug, Drop)]
pub struct ModRule {
    /// The number of the object whose rule it is.
    pub object: u32,
    /// The rule's name.
    pub name: Name,
    /// The child from which it takes a message, where it takes one from a child.
    pub from: Option<u32>,
    /// Whether it starts by itself, without a message.
    pub spontaneous: bool,
    /// The clauses of its condition, in text order.
    pub clauses: List<ModClause>,
    /// Its actions, in text order.
    pub actions: List<Action>,
}
