//! Registers and queues in text order.

ghost use Rattle.std.specs.Prelude.{◌≡◌, ◌≤◌, ◌<◌, [], ◌∷◌, ◌++◌, length, map, OnOk, IfOk};
ghost use Rattle.std.specs.List.{flat_map};
ghost use Rattle.hem_base.specs.declared.ids.Kind.{Kind as Level};
ghost use Rattle.hem_syntax.specs.declared.rule.Side.TheVariants.{Up, Down};
ghost use Rattle.hem_tree.specs.Tree.{below, kind_of};
ghost use Rattle.hem_emit.specs.Names.{field, val, entry, awaits};
ghost use Rattle.hem_emit.specs.Layout.{lock_registers, registers_at, registers, queues_at, queues};
ghost use Rattle.hem_translate.specs.Places.{reg_of, queue_of};

use hem_base::{Kind, List, ObjectId, OutOfMemory};
use hem_syntax::Protocol;
use hem_tree::Tree;
use std::alloc::Global;

/// What is kept of a lock.
#[derive(Clone, Copy, Debug, PartialEq, Eq, Hash)]
pub(crate) enum Part {
    /// Whose it is.
    Origin,
    /// The id of its request.
    Asked,
    /// The value of its request.
    Kept,
}

/// A register. Objects go by their numbers in the tree.
#[derive(Clone, Copy, Debug, PartialEq, Eq, Hash)]
pub(crate) enum Reg {
    /// A field of an object, by its place among the fields.
    Field(u8, u32),
    /// An object's value.
    Val(u32),
    /// A part of an object's uplock.
    Up(Part, u32),
    /// A part of an object's downlock.
    Down(Part, u32),
    /// The directory entry of a child.
    Entry(u32),
    /// Whether a child is awaited.
    Awaits(u32),
}

/// A queue: a list of an object.
#[derive(Clone, Copy, Debug, PartialEq, Eq, Hash)]
pub(crate) enum Queue {
    UpRequests(u32),
    UpResponses(u32),
    Down(u32),
    Requests(u32),
    Answers(u32),
}

/// Appends the registers of an object's fields.
pub(crate) fn push_fields(regs: &mut List<Reg>, o: u32, count: u8) -> Result<(), OutOfMemory>
    ensures { OnOk result (map reg_of regs.new ≡ map reg_of regs.old ++ map (λ i. field i o) (below count)) }
{
    for place in 0..count {
        regs.push(Reg::Field(place, o))?;
    }
    Ok(())
}

/// Appends the registers of an object's uplock.
pub(crate) fn push_uplock(regs: &mut List<Reg>, o: u32) -> Result<(), OutOfMemory>
    ensures { OnOk result (map reg_of regs.new ≡ map reg_of regs.old ++ lock_registers o Up) }
{
    regs.push(Reg::Up(Part::Origin, o))?;
    regs.push(Reg::Up(Part::Asked, o))?;
    regs.push(Reg::Up(Part::Kept, o))
}

/// Appends the registers of an object's downlock.
pub(crate) fn push_downlock(regs: &mut List<Reg>, o: u32) -> Result<(), OutOfMemory>
    ensures { OnOk result (map reg_of regs.new ≡ map reg_of regs.old ++ lock_registers o Down) }
{
    regs.push(Reg::Down(Part::Origin, o))?;
    regs.push(Reg::Down(Part::Asked, o))?;
    regs.push(Reg::Down(Part::Kept, o))
}

/// Appends the registers that an object keeps of a child.
fn push_child(regs: &mut List<Reg>, child: ObjectId) -> Result<(), OutOfMemory>
    ensures { OnOk result (map reg_of regs.new ≡ map reg_of regs.old ++ entry child.0 ∷ awaits child.0 ∷ []) }
{
    regs.push(Reg::Entry(child.0))?;
    regs.push(Reg::Awaits(child.0))
}

/// Appends the registers that an object keeps of its children.
pub(crate) fn push_children(regs: &mut List<Reg>, children: &[ObjectId]) -> Result<(), OutOfMemory>
    ensures { OnOk result (map reg_of regs.new ≡ map reg_of regs.old ++ flat_map (λ c. entry c.0 ∷ awaits c.0 ∷ []) children.now) }
{
    for child in children {
        push_child(regs, *child)?;
    }
    Ok(())
}

/// Appends the queues of an object of a kind.
pub(crate) fn push_queues(queues: &mut List<Queue>, kind: Kind, o: u32) -> Result<(), OutOfMemory>
    ensures { OnOk result (map queue_of queues.new ≡ map queue_of queues.old ++ queues_at kind o) }
{
    if kind != Kind::Root {
        queues.push(Queue::UpRequests(o))?;
        queues.push(Queue::UpResponses(o))?;
        queues.push(Queue::Down(o))?;
    }
    if kind == Kind::Leaf {
        queues.push(Queue::Requests(o))?;
        queues.push(Queue::Answers(o))?;
    }
    Ok(())
}
