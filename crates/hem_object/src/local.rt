//! What an object keeps of a line, and its simplest changes.

ghost use Rattle.std.specs.Prelude.{◌≡◌, ◌≤◌, [], length, map, replicate, Some};
ghost use Rattle.std.specs.Option.{option_map_or};
ghost use Rattle.hem_object.specs.Changes.{freed, locked};
ghost use Rattle.hem_object.specs.Start.{first_local};

use crate::Lock;
use arrayvec::ArrayVec;
use hem_base::{Kind, Name, Status8};
use hem_syntax::{Protocol, Side};
use std::marker::Model;

/// What an object keeps of a line.
#[derive(Drop)]
pub struct Local {
    /// The status of each field of the object's kind.
    pub fields: ArrayVec<Status8, 3>,
    /// The status that the object keeps of each child, by the child's place.
    pub dir: ArrayVec<Status8, 8>,
    /// The value of the line, as the object last set it.
    pub val: u64,
    /// The uplock, where it is held.
    pub up: Option<Lock>,
    /// The downlock, where it is held.
    pub down: Option<Lock>,
}

impl Model for Local {
    ghost use Rattle.hem_object.specs.Local.{Local as Kept};

    ghost Value = { Kept };

    ghost view = { λ a. record { fields = a.fields.items; dir = a.dir.items; val = a.val; up = a.up; down = a.down } };
}

/// The first status of each field.
fn first_fields(fields: &[(Name, Status8)]) -> ArrayVec<Status8, 3>
    requires { length fields.now ≤ 3 }
    ensures { result.items ≡ map (λ f. f.1) fields.now }
{
    let mut first = ArrayVec::<Status8, 3>::new();
    for field in fields {
        first.push(field.1);
    }
    first
}

/// The first status of each child's entry; none where the kind has no directory.
fn first_entries(dir: Option<Status8>, children: u8) -> ArrayVec<Status8, 8>
    requires { children ≤ 8 }
    ensures { result.items ≡ option_map_or (λ s. replicate children s) dir [] }
{
    let mut first = ArrayVec::<Status8, 8>::new();
    if let Some(status) = dir {
        for _child in 0..children {
            first.push(status);
        }
    }
    first
}

impl Local {
    /// What an object of the kind with so many children keeps at the start: the first statuses that the protocol
    /// gives, the value 0, and both locks free.
    pub fn start(p: &Protocol, kind: Kind, children: u8) -> Local
        requires { children ≤ 8 }
        ensures { result ≡ first_local p.now kind children }
    {
        let part = p.part(kind);
        Local {
            fields: first_fields(part.fields.as_slice()),
            dir: first_entries(part.dir, children),
            val: 0,
            up: None,
            down: None,
        }
    }

    /// Takes a lock, whatever it held before.
    pub fn lock(&mut self, side: Side, lock: Lock)
        ensures { self.new ≡ locked side lock self.old }
    {
        match side {
            Side::Up => self.up = Some(lock),
            Side::Down => self.down = Some(lock),
        }
    }

    /// Frees a lock, which may be free already.
    pub fn free(&mut self, side: Side)
        ensures { self.new ≡ freed (Some side) self.old }
    {
        match side {
            Side::Up => self.up = None,
            Side::Down => self.down = None,
        }
    }
}
