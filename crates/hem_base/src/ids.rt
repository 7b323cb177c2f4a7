//! Numbers that name things, and small plain values.

ghost use Rattle.std.specs.Prelude.{◌≡◌};
ghost use Rattle.hem_base.specs.Sets.{has_bit};

/// An object of the tree, in preorder from 0.
#[derive(Clone, Copy, Debug, PartialEq, Eq, PartialOrd, Ord)]
pub struct ObjectId(pub u32);

/// The place of a rule's name among the protocol's rule names.
#[derive(Clone, Copy, Debug, PartialEq, Eq, PartialOrd, Ord)]
pub struct RuleId(pub u32);

/// A message id, by its place in the order of declaration.
#[derive(Clone, Copy, Debug, PartialEq, Eq, PartialOrd, Ord)]
pub struct MsgId(pub u32);

/// A line of memory.
#[derive(Clone, Copy, Debug, PartialEq, Eq, PartialOrd, Ord)]
pub struct LineId(pub u32);

/// A status, by its place in the order of declaration.
#[derive(Clone, Copy, Debug, Default, PartialEq, Eq, PartialOrd, Ord)]
pub struct Status8(pub u8);

/// A set of statuses, with bit i for status i, counted from 0.
#[derive(Clone, Copy, Debug, PartialEq, Eq)]
pub struct StatusSet(pub u8);

impl StatusSet {
    /// Whether the status is in the set. A status from 8 on is in no set.
    pub fn has(self, status: Status8) -> bool
        ensures { result ≡ has_bit self.0 status.0 }
    {
        status.0 < 8 && (self.0 >> status.0) & 1 == 1
    }
}

/// A set of an object's children, with bit i for the child at place i, counted from 0.
#[derive(Clone, Copy, Debug, PartialEq, Eq)]
pub struct KidSet(pub u16);

impl KidSet {
    /// Whether the child at this place is in the set. A place from 16 on is in no set.
    pub fn has(self, place: usize) -> bool
        ensures { result ≡ has_bit self.0 place }
    {
        place < 16 && (self.0 >> place) & 1 == 1
    }
}

/// The three kinds of object.
#[derive(Clone, Copy, Debug, PartialEq, Eq)]
pub enum Kind {
    /// The memory, which has children and no parent.
    Root,
    /// A cache with a parent and children.
    Mid,
    /// A cache that serves a processor, with a parent and no children.
    Leaf,
}

/// A message: an id and a value.
#[derive(Clone, Copy, Debug, PartialEq, Eq)]
pub struct Message {
    /// Which message of the protocol it is.
    pub id: MsgId,
    /// The value that it carries.
    pub value: u64,
}

/// One firing of a rule at an object on a line.
#[derive(Clone, Copy, Debug, PartialEq, Eq)]
pub struct Firing {
    /// The line on which it comes.
    pub line: LineId,
    /// The object that fires.
    pub object: ObjectId,
    /// The name of the rule that it fires.
    pub rule: RuleId,
    /// The child from which the rule takes a message, where it takes one from a child.
    pub me: Option<ObjectId>,
}

/// A firing with its stamp, which orders it among the firings of all objects.
#[derive(Clone, Copy, Debug, PartialEq, Eq)]
pub struct Stamped {
    /// The firing.
    pub firing: Firing,
    /// Its stamp.
    pub stamp: u64,
}

/// A message on its way, with its line and the stamp of the firing that sent it.
#[derive(Clone, Copy, Debug, PartialEq, Eq)]
pub struct Carried {
    /// The line that it is of.
    pub line: LineId,
    /// The message.
    pub message: Message,
    /// The stamp of the firing that sent it.
    pub stamp: u64,
}
