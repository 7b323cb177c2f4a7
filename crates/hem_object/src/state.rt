//! Plain values of a local state.

use hem_base::{KidSet, Message};

/// For whom a lock is held, or who asks. A child goes by its place among the object's children.
#[derive(Clone, Copy, Debug, PartialEq, Eq)]
pub enum By {
    /// The processor of a leaf.
    Processor,
    /// The child at that place, from 0.
    Kid(u8),
    /// The object's parent.
    Parent,
    /// The object itself.
    Own,
}

/// A held lock.
#[derive(Clone, Copy, Debug, PartialEq, Eq)]
pub struct Lock {
    /// The lock's origin.
    pub by: By,
    /// The request that the lock keeps.
    pub request: Message,
    /// The children whose responses it awaits: nobody at an uplock.
    pub awaited: KidSet,
}

/// What a firing may name.
#[derive(Clone, Copy, Debug, PartialEq, Eq)]
pub struct View {
    /// The requester: a child or the processor.
    pub requester: Option<By>,
    /// The value of the message that is taken from the requester or the parent.
    pub msg: Option<u64>,
    /// The value of the response of the least awaited child.
    pub rs: Option<u64>,
    /// The request that the lock keeps.
    pub kept: Option<Message>,
    /// The awaited children.
    pub awaited: KidSet,
}
