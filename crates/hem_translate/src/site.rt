//! An object of a tree with its children, and the places of registers and queues.

ghost use Rattle.std.specs.Prelude.{◌≡◌, ◌++◌, ◌∷◌, [], ℕ, List as Items, true, map, not, filter, cond, IfOk, OnOk, nat_lt, slice_get};
ghost use Rattle.std.specs.Option.{option_map_or};
ghost use Rattle.std.specs.List.{enumerate_from};
ghost use Rattle.hem_module.specs.Lawful.{are_apart};
ghost use Rattle.hem_emit.specs.Names.{same_reg, same_queue};
ghost use Rattle.hem_emit.specs.Place.{kids_at, others_at, is_named};
ghost use Rattle.hem_translate.specs.Kids.{numbers_of};
ghost use Rattle.hem_translate.specs.Places.{reg_of, queue_of};
ghost use Rattle.hem_translate.specs.ByPlace.{reg_at, queue_at};

use crate::tables::{Queue, Reg};
use hem_base::{Kind, List, ObjectId, OutOfMemory};
use indexmap::IndexSet;
use std::alloc::Global;
use std::hash::Hash;
use std::marker::Model;

/// A child of an object: its place among the children, and its number. Seen as both.
#[derive(Debug, Drop)]
pub(crate) struct Kid {
    place: u8,
    object: u32,
}

impl Model for Kid {
    ghost use Rattle.std.specs.Prelude.{ℕ};

    ghost Value = { ℕ × ℕ };

    ghost view = { λ k. (k.place, k.object) };
}

impl Kid {
    pub(crate) fn new(place: u8, object: u32) -> Kid
        ensures { result ≡ (place, object) }
    {
        Kid { place, object }
    }

    pub(crate) fn place(&self) -> u8
        ensures { result ≡ self.now.0 }
    {
        self.place
    }

    pub(crate) fn object(&self) -> u32
        ensures { result ≡ self.now.1 }
    {
        self.object
    }
}

/// An object: its kind, its number, its children, and how many statuses there are.
#[derive(Debug, Drop)]
pub(crate) struct Site {
    kind: Kind,
    object: u32,
    kids: List<Kid>,
    statuses: u8,
}

impl Model for Site {
    ghost use Rattle.std.specs.Prelude.{◌≡◌};
    ghost use Rattle.std.specs.List.{enumerate_from};
    ghost use Rattle.hem_translate.specs.Kids.{numbers_of};
    ghost use Rattle.hem_emit.specs.Place.{Place};

    ghost Value = { Place };

    ghost view = { λ s. record { kind = s.kind; object = s.object; kids = numbers_of s.kids; statuses = s.statuses } };

    ghost invariant = { λ s. s.kids ≡ enumerate_from 0 (numbers_of s.kids) };
}

impl Site {
    /// The object of these parts. It takes no memory.
    pub(crate) fn new(kind: Kind, object: u32, kids: List<Kid>, statuses: u8) -> Site
        requires { kids ≡ enumerate_from 0 (numbers_of kids) }
        ensures { result ≡ record { kind = kind; object = object; kids = numbers_of kids; statuses = statuses } }
    {
        Site {
            kind,
            object,
            kids,
            statuses,
        }
    }

    pub(crate) fn kind(&self) -> Kind
        ensures { result ≡ self.now.kind }
    {
        self.kind
    }

    pub(crate) fn object(&self) -> u32
        ensures { result ≡ self.now.object }
    {
        self.object
    }

    pub(crate) fn statuses(&self) -> u8
        ensures { result ≡ self.now.statuses }
    {
        self.statuses
    }

    /// The number of the child at a place; 0 where there is none.
    pub(crate) fn child(&self, place: u8) -> u32
        ensures { result ≡ option_map_or (λ k. k.1) (slice_get (kids_at self.now) place) 0 }
    {
        match self.kids().get(place as usize) {
            Some(kid) => kid.object(),
            None => 0,
        }
    }

    /// The children, in order.
    pub(crate) fn kids(&self) -> &[Kid]
        ensures { result.now ≡ kids_at self.now }
    {
        self.kids.as_slice()
    }
}

/// Registers and queues in text order, found by hash.
#[derive(Debug, Drop)]
pub(crate) struct Places {
    regs: IndexSet<Reg>,
    queues: IndexSet<Queue>,
}

impl Model for Places {
    ghost use Rattle.std.specs.Prelude.{map};
    ghost use Rattle.hem_translate.specs.ByPlace.{Places as Described};
    ghost use Rattle.hem_translate.specs.Places.{reg_of, queue_of};

    ghost Value = { Described };

    ghost view = { λ l. record { regs = map reg_of l.regs.keys; queues = map queue_of l.queues.keys } };
}

/// These as a set, in order.
fn set_of<T: Copy + Eq + Hash + Drop>(
    alloc: Global,
    items: &[T],
) -> Result<IndexSet<T>, OutOfMemory>
    requires { are_apart T.eq items.now ≡ true }
    ensures { IfOk result (λ set. set.keys ≡ items.now) }
{
    let mut set = IndexSet::new(alloc);
    for item in items {
        set.insert(*item)?;
    }
    Ok(set)
}

impl Places {
    /// The places of these registers and queues.
    pub(crate) fn of(alloc: Global, regs: &[Reg], queues: &[Queue]) -> Result<Places, OutOfMemory>
        requires regs { are_apart same_reg (map reg_of regs.now) ≡ true }
        requires queues { are_apart same_queue (map queue_of queues.now) ≡ true }
        ensures { IfOk result (λ l. l ≡ record { regs = map reg_of regs.now; queues = map queue_of queues.now }) }
    {
        let regs = set_of(alloc, regs)?;
        let queues = set_of(alloc, queues)?;
        Ok(Places { regs, queues })
    }

    /// The place of a register; 0 where it isn't there.
    pub(crate) fn reg(&self, r: Reg) -> usize
        ensures { result ≡ reg_at self.now (reg_of r) }
    {
        self.regs.get_index_of(&r).unwrap_or(0)
    }

    /// The place of a queue; 0 where it isn't there.
    pub(crate) fn queue(&self, q: Queue) -> usize
        ensures { result ≡ queue_at self.now (queue_of q) }
    {
        self.queues.get_index_of(&q).unwrap_or(0)
    }
}

/// Whether a place is that of the child that is named.
pub(crate) fn is_named(me: Option<u8>, place: u8) -> bool
    ensures { result ≡ is_named me place }
{
    match me {
        Some(named) => named == place,
        None => false,
    }
}

/// Appends a child where it is kept.
fn keep(kids: &mut List<Kid>, kept: bool, kid: &Kid) -> Result<(), OutOfMemory>
    ensures { OnOk result (kids.new ≡ kids.old ++ cond kept (kid.now ∷ []) []) }
{
    if kept {
        return kids.push(Kid::new(kid.place(), kid.object()));
    }
    Ok(())
}

/// The child that is named.
pub(crate) fn named(alloc: Global, kids: &[Kid], me: Option<u8>) -> Result<List<Kid>, OutOfMemory>
    ensures { IfOk result (λ l. l ≡ filter (λ k. is_named me k.0) kids.now) }
{
    let mut kept = List::new(alloc);
    for kid in kids {
        keep(&mut kept, is_named(me, kid.place()), kid)?;
    }
    Ok(kept)
}

/// The children but the named one.
pub(crate) fn others(alloc: Global, kids: &[Kid], me: Option<u8>) -> Result<List<Kid>, OutOfMemory>
    ensures { IfOk result (λ l. l ≡ filter (λ k. not (is_named me k.0)) kids.now) }
{
    let mut kept = List::new(alloc);
    for kid in kids {
        keep(&mut kept, !is_named(me, kid.place()), kid)?;
    }
    Ok(kept)
}

/// The children before a place.
pub(crate) fn before(alloc: Global, kids: &[Kid], place: u8) -> Result<List<Kid>, OutOfMemory>
    ensures { IfOk result (λ l. l ≡ filter (λ k. nat_lt k.0 place) kids.now) }
{
    let mut kept = List::new(alloc);
    for kid in kids {
        keep(&mut kept, kid.place() < place, kid)?;
    }
    Ok(kept)
}
