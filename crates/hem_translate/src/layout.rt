//! All registers and queues of a protocol on a tree, in text order.

ghost use Rattle.std.specs.Prelude.{◌≡◌, ◌<◌, ◌++◌, length, map, OnOk, IfOk};
ghost use Rattle.std.specs.List.{flat_map};
ghost use Rattle.hem_syntax.specs.Protocol.{part};
ghost use Rattle.hem_tree.specs.Tree.{below, children_of};
ghost use Rattle.hem_emit.specs.Layout.{registers_at, registers, queues};
ghost use Rattle.hem_translate.specs.Places.{reg_of, queue_of};
ghost use Rattle.hem_translate.specs.ByObject.{registers_of_kids, object_registers, object_queues};

use crate::tables::{
    Queue, Reg, push_children, push_downlock, push_fields, push_queues, push_uplock,
};
use hem_base::{Kind, List, ObjectId, OutOfMemory};
use hem_syntax::Protocol;
use hem_tree::Tree;
use std::alloc::Global;

/// How many fields an object of a kind has.
fn field_count(p: &Protocol, kind: Kind) -> u8
    ensures { result ≡ length (part p.now kind).fields }
{
    p.part(kind).fields.len() as u8
}

/// Appends the registers that an object of a tree keeps of its children.
fn push_kids(regs: &mut List<Reg>, tree: &Tree, o: ObjectId) -> Result<(), OutOfMemory>
    requires { o.0 < length tree.now }
    ensures { OnOk result (map reg_of regs.new ≡ map reg_of regs.old ++ registers_of_kids (children_of tree.now o.0)) }
{
    push_children(regs, tree.children(o))
}

/// Appends the registers of an object of a kind.
fn push_kind(
    regs: &mut List<Reg>,
    p: &Protocol,
    tree: &Tree,
    o: ObjectId,
    kind: Kind,
) -> Result<(), OutOfMemory>
    requires { o.0 < length tree.now }
    ensures { OnOk result (map reg_of regs.new ≡ map reg_of regs.old ++ registers_at p.now tree.now o.0 kind) }
{
    push_fields(regs, o.0, field_count(p, kind))?;
    regs.push(Reg::Val(o.0))?;
    push_uplock(regs, o.0)?;
    push_downlock(regs, o.0)?;
    push_kids(regs, tree, o)
}

/// Appends the registers of an object of a tree, whatever its kind is.
fn push_object(
    regs: &mut List<Reg>,
    p: &Protocol,
    tree: &Tree,
    o: ObjectId,
) -> Result<(), OutOfMemory>
    requires { o.0 < length tree.now }
    ensures { OnOk result (map reg_of regs.new ≡ map reg_of regs.old ++ object_registers p.now tree.now o.0) }
{
    let kind = tree.kind(o);
    push_kind(regs, p, tree, o, kind)
}

/// Appends the registers of all objects.
#[tactic(auto, using(crate::proofs::Further::one_object_more))]
fn push_objects(regs: &mut List<Reg>, p: &Protocol, tree: &Tree) -> Result<(), OutOfMemory>
    ensures { OnOk result (map reg_of regs.new ≡ map reg_of regs.old ++ flat_map (object_registers p.now tree.now) (below (length tree.now))) }
{
    for o in 0..tree.objects() {
        push_object(regs, p, tree, ObjectId(o))?;
    }
    Ok(())
}

/// All registers of a protocol on a tree.
pub(crate) fn registers(alloc: Global, p: &Protocol, tree: &Tree) -> Result<List<Reg>, OutOfMemory>
    ensures { IfOk result (λ regs. map reg_of regs ≡ registers p.now tree.now) }
{
    let mut regs = List::new(alloc);
    push_objects(&mut regs, p, tree)?;
    Ok(regs)
}

/// Appends the queues of an object of a tree.
fn push_queues_of(queues: &mut List<Queue>, tree: &Tree, o: ObjectId) -> Result<(), OutOfMemory>
    requires { o.0 < length tree.now }
    ensures { OnOk result (map queue_of queues.new ≡ map queue_of queues.old ++ object_queues tree.now o.0) }
{
    let kind = tree.kind(o);
    push_queues(queues, kind, o.0)
}

/// Appends the queues of all objects.
#[tactic(auto, using(crate::proofs::Further::one_object_more))]
fn push_all_queues(queues: &mut List<Queue>, tree: &Tree) -> Result<(), OutOfMemory>
    ensures { OnOk result (map queue_of queues.new ≡ map queue_of queues.old ++ flat_map (object_queues tree.now) (below (length tree.now))) }
{
    for o in 0..tree.objects() {
        push_queues_of(queues, tree, ObjectId(o))?;
    }
    Ok(())
}

/// All queues of a tree.
pub(crate) fn queues(alloc: Global, tree: &Tree) -> Result<List<Queue>, OutOfMemory>
    ensures { IfOk result (λ l. map queue_of l ≡ queues tree.now) }
{
    let mut queues = List::new(alloc);
    push_all_queues(&mut queues, tree)?;
    Ok(queues)
}
