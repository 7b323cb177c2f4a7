//! What an object holds before a firing, what a firing changes, and the rows of the tables.

use hem_base::{KidSet, Message, MsgId, Status8};
use hem_fire::To;
use hem_object::Lock;

pub(super) const I: Status8 = Status8(0);

pub(super) const S: Status8 = Status8(1);

pub(super) const M: Status8 = Status8(2);

pub(super) const LD: MsgId = MsgId(0);

pub(super) const LD_R: MsgId = MsgId(1);

pub(super) const GET: MsgId = MsgId(2);

pub(super) const GET_R: MsgId = MsgId(3);

pub(super) const INV: MsgId = MsgId(4);

pub(super) const INV_R: MsgId = MsgId(5);

/// What an object with the value 7 holds, and the heads of its lists.
#[derive(Clone, Copy)]
pub(super) struct Scene {
    pub(super) field: Status8,
    pub(super) dir: &'static [Status8],
    pub(super) up: Option<Lock>,
    pub(super) down: Option<Lock>,
    pub(super) request: Option<Message>,
    pub(super) parent: Option<Message>,
    pub(super) kids: &'static [Option<Message>],
}

/// One thing that a firing changes.
#[derive(Clone, Copy)]
pub(super) enum Change {
    Field(Status8),
    Value(u64),
    /// The directory's entry of the child at that place.
    Entry(usize, Status8),
    Up(Option<Lock>),
    Down(Option<Lock>),
}

/// Which heads are taken.
#[derive(Clone, Copy)]
pub(super) struct Taken {
    pub(super) request: bool,
    pub(super) parent: bool,
    pub(super) kids: KidSet,
}

pub(super) const TAKES_NOTHING: Taken = Taken {
    request: false,
    parent: false,
    kids: KidSet(0),
};

pub(super) const TAKES_REQUEST: Taken = Taken {
    request: true,
    parent: false,
    kids: KidSet(0),
};

pub(super) const TAKES_PARENT: Taken = Taken {
    request: false,
    parent: true,
    kids: KidSet(0),
};

/// The message of a firing that sends nothing.
pub(super) const NOTHING: Message = Message {
    id: MsgId(0),
    value: 0,
};

/// A rule that fires: the child from which it takes, what the object holds, and then what changes, what is taken, to whom
/// it sends, and what.
#[derive(Clone, Copy)]
pub(super) struct Fires {
    pub(super) rule: &'static str,
    pub(super) child: Option<u8>,
    pub(super) scene: Scene,
    pub(super) changes: &'static [Change],
    pub(super) taken: Taken,
    pub(super) to: To,
    pub(super) message: Message,
}

/// A rule that can't fire: the child from which it would take, and what the object holds.
#[derive(Clone, Copy)]
pub(super) struct Stays {
    pub(super) rule: &'static str,
    pub(super) child: Option<u8>,
    pub(super) scene: Scene,
}

/// A message: its id and its value.
macro_rules! message {
    ($id:ident $value:literal) => {
        hem_base::Message { id: $id, value: $value }
    };
}

/// A held lock: its origin, its request, and the children that it awaits, one bit each.
macro_rules! held {
    ($by:expr; $id:ident $value:literal; $awaited:literal) => {
        Some(hem_object::Lock {
            by: $by,
            request: hem_base::Message { id: $id, value: $value },
            awaited: hem_base::KidSet($awaited),
        })
    };
}

/// The responses of these children are taken, one bit each.
macro_rules! responses {
    ($kids:literal) => {
        Taken { request: false, parent: false, kids: hem_base::KidSet($kids) }
    };
}

/// A row of a rule that fires.
macro_rules! fires {
    ($rule:literal, $child:expr, $scene:ident => [$($change:expr),*] $taken:expr; $to:expr, $message:expr) => {
        Fires { rule: $rule, child: $child, scene: $scene, changes: &[$($change),*], taken: $taken, to: $to, message: $message }
    };
}

/// A row of a rule that can't fire.
macro_rules! stays {
    ($rule:literal, $child:expr, $scene:ident;) => {
        Stays { rule: $rule, child: $child, scene: $scene }
    };
}

pub(super) use fires;
pub(super) use held;
pub(super) use message;
pub(super) use responses;
pub(super) use stays;
