//! What the registers hold at the start.

ghost use Rattle.std.specs.Prelude.{◌≡◌};
ghost use Rattle.std.specs.Option.{option_map_or};
ghost use Rattle.hem_tree.specs.Tree.{kind_of, parent_of};
ghost use Rattle.hem_tree.specs.Objects.{number_of};
ghost use Rattle.hem_emit.specs.Written.{start_of};
ghost use Rattle.hem_translate.specs.Places.{reg_of};
ghost use Rattle.hem_translate.specs.Starts.{first_of_field, first_of_entry, first_number};

use crate::tables::Reg;
use hem_base::{Kind, ObjectId};
use hem_syntax::Protocol;
use hem_tree::Tree;

/// The kind of an object, where it is there.
fn kind_of(tree: &Tree, o: u32) -> Option<Kind>
    ensures { result ≡ kind_of tree.now o }
{
    if o < tree.objects() {
        Some(tree.kind(ObjectId(o)))
    } else {
        None
    }
}

/// The parent of an object, where it is there and has one.
pub(crate) fn parent_of(tree: &Tree, o: u32) -> Option<ObjectId>
    ensures { number_of result ≡ parent_of tree.now o }
{
    if o < tree.objects() {
        tree.parent(ObjectId(o))
    } else {
        None
    }
}

/// The first status of a field of a kind, as a number; 0 where there is no such field.
fn first_of_field(p: &Protocol, kind: Kind, place: u8) -> u64
    ensures { result ≡ first_of_field p.now kind place }
{
    match p.part(kind).fields.get(usize::from(place)) {
        Some(field) => u64::from(field.1.0),
        None => 0,
    }
}

/// The first status of each directory entry of a kind, as a number; 0 where it has none.
fn first_of_entry(p: &Protocol, kind: Kind) -> u64
    ensures { result ≡ first_of_entry p.now kind }
{
    match p.part(kind).dir {
        Some(status) => u64::from(status.0),
        None => 0,
    }
}

/// The first status of a field of an object, as a number; 0 where the object or the field isn't there.
fn field_start(p: &Protocol, tree: &Tree, place: u8, o: u32) -> u64
    ensures { result ≡ option_map_or (λ kind. first_of_field p.now kind place) (kind_of tree.now o) 0 }
{
    match kind_of(tree, o) {
        Some(kind) => first_of_field(p, kind, place),
        None => 0,
    }
}

/// The first status of an object's directory entries, as a number; 0 where it isn't there or has none.
fn entries_start(p: &Protocol, tree: &Tree, o: u32) -> u64
    ensures { result ≡ option_map_or (first_of_entry p.now) (kind_of tree.now o) 0 }
{
    match kind_of(tree, o) {
        Some(kind) => first_of_entry(p, kind),
        None => 0,
    }
}

/// The first status of the entry that an object's parent keeps of it, as a number; 0 where it has no parent.
fn entry_start(p: &Protocol, tree: &Tree, c: u32) -> u64
    ensures { result ≡ option_map_or (λ high. option_map_or (first_of_entry p.now) (kind_of tree.now high) 0) (parent_of tree.now c) 0 }
{
    match parent_of(tree, c) {
        Some(parent) => entries_start(p, tree, parent.0),
        None => 0,
    }
}

/// The first status that a register holds, as a number, and else 0.
fn first_number(p: &Protocol, tree: &Tree, reg: Reg) -> u64
    ensures { result ≡ first_number p.now tree.now (reg_of reg) }
{
    match reg {
        Reg::Field(place, o) => field_start(p, tree, place, o),
        Reg::Entry(c) => entry_start(p, tree, c),
        Reg::Val(_) | Reg::Up(_, _) | Reg::Down(_, _) | Reg::Awaits(_) => 0,
    }
}

/// What a register holds at the start.
pub(crate) fn start(p: &Protocol, tree: &Tree, reg: Reg) -> u64
    ensures { result ≡ start_of p.now tree.now (reg_of reg) }
{
    first_number(p, tree, reg)
}
