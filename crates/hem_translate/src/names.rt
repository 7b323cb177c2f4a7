//! The names of registers and queues, and the tables of them.

ghost use Rattle.std.specs.Prelude.{◌≡◌, ◌≤◌, ◌++◌, true, length, map, codes, decimal, IfOk};
ghost use Rattle.hem_base.specs.Names.{IsName};
ghost use Rattle.hem_syntax.specs.declared.rule.Side.TheVariants.{Up, Down};
ghost use Rattle.hem_syntax.specs.Lawful.{are_distinct};
ghost use Rattle.hem_emit.specs.Layout.{registers, queues as all_queues};
ghost use Rattle.hem_emit.specs.Written.{lock_letters, name_of_reg, name_of_queue, written_register};
ghost use Rattle.hem_translate.specs.Places.{part_of, reg_of, queue_of};

use crate::starts::start;
use crate::tables::{Part, Queue, Reg};
use arrayvec::ArrayString;
use hem_base::{Kind, Name, OutOfMemory};
use hem_emit::modules_may_be_written;
use hem_syntax::{Named, Names, Protocol};
use hem_tree::Tree;
use itoa::Buffer;
use std::alloc::Global;

/// A text of 1 to 32 bytes, as a name.
fn name_of(text: &str) -> Name
    requires { IsName text.now }
    ensures { result ≡ text.now }
{
    match Name::from_slice(text.as_bytes()) {
        Some(name) => name,
        None => unreachable!("a text of 1 to 32 bytes is a name"),
    }
}

/// The name of one to three letters and a number.
fn numbered(letters: &str, number: u32) -> Name
    requires some { 1 ≤ length letters.now }
    requires few { length letters.now ≤ 3 }
    ensures { result ≡ letters.now ++ decimal number }
{
    let mut buffer = Buffer::new();
    let mut text = ArrayString::<32>::new();
    text.push_str(letters);
    text.push_str(buffer.format(number));
    name_of(text.as_str())
}

/// The name of a field of an object.
fn field_name(place: u8, o: u32) -> Name
    ensures { result ≡ codes "f" ++ decimal place ++ codes "_" ++ decimal o }
{
    let mut buffer = Buffer::new();
    let mut text = ArrayString::<32>::new();
    text.push_str("f");
    text.push_str(buffer.format(place));
    text.push_str("_");
    text.push_str(buffer.format(o));
    name_of(text.as_str())
}

/// The name of a part of an object's uplock.
fn uplock_name(part: Part, o: u32) -> Name
    ensures { result ≡ lock_letters Up (part_of part) ++ decimal o }
{
    match part {
        Part::Origin => numbered("uo_", o),
        Part::Asked => numbered("ui_", o),
        Part::Kept => numbered("uv_", o),
    }
}

/// The name of a part of an object's downlock.
fn downlock_name(part: Part, o: u32) -> Name
    ensures { result ≡ lock_letters Down (part_of part) ++ decimal o }
{
    match part {
        Part::Origin => numbered("do_", o),
        Part::Asked => numbered("di_", o),
        Part::Kept => numbered("dv_", o),
    }
}

/// The name of a register.
fn reg_name(reg: Reg) -> Name
    ensures { result ≡ name_of_reg (reg_of reg) }
{
    match reg {
        Reg::Field(place, o) => field_name(place, o),
        Reg::Val(o) => numbered("v_", o),
        Reg::Up(part, o) => uplock_name(part, o),
        Reg::Down(part, o) => downlock_name(part, o),
        Reg::Entry(c) => numbered("d_", c),
        Reg::Awaits(c) => numbered("w_", c),
    }
}

/// The name of a queue.
fn queue_name(queue: Queue) -> Name
    ensures { result ≡ name_of_queue (queue_of queue) }
{
    match queue {
        Queue::UpRequests(o) => numbered("qr_", o),
        Queue::UpResponses(o) => numbered("qs_", o),
        Queue::Down(o) => numbered("qd_", o),
        Queue::Requests(o) => numbered("xr_", o),
        Queue::Answers(o) => numbered("xa_", o),
    }
}

/// These registers, no two of one name, each with its name and what it holds at the start.
fn named_registers(
    alloc: Global,
    p: &Protocol,
    tree: &Tree,
    regs: &[Reg],
) -> Result<Named<u64>, OutOfMemory>
    requires { are_distinct (map (λ r. name_of_reg (reg_of r)) regs.now) ≡ true }
    ensures { IfOk result (λ t. t ≡ map (λ r. written_register p.now tree.now (reg_of r)) regs.now) }
{
    let mut table = Named::new(alloc);
    for reg in regs {
        table.push(reg_name(*reg), start(p, tree, *reg))?;
    }
    Ok(table)
}

/// The names of these queues, no two of one name.
fn named_queues(alloc: Global, queues: &[Queue]) -> Result<Names, OutOfMemory>
    requires { are_distinct (map (λ q. name_of_queue (queue_of q)) queues.now) ≡ true }
    ensures { IfOk result (λ n. n ≡ map (λ q. name_of_queue (queue_of q)) queues.now) }
{
    let mut names = Names::new(alloc);
    for queue in queues {
        names.push(queue_name(*queue))?;
    }
    Ok(names)
}

/// That no two registers have one name.
fn registers_are_named_apart(p: &Protocol, tree: &Tree)
    ensures { are_distinct (map name_of_reg (registers p.now tree.now)) ≡ true }
{
    let _lawful = p.part(Kind::Root);
    let _objects = tree.objects();
    modules_may_be_written();
}

/// That no two queues have one name.
fn queues_are_named_apart(tree: &Tree)
    ensures { are_distinct (map name_of_queue (all_queues tree.now)) ≡ true }
{
    let _objects = tree.objects();
    modules_may_be_written();
}

/// The registers in text order, each with its name and what it holds at the start.
pub(crate) fn register_table(
    alloc: Global,
    p: &Protocol,
    tree: &Tree,
    regs: &[Reg],
) -> Result<Named<u64>, OutOfMemory>
    requires { map reg_of regs.now ≡ registers p.now tree.now }
    ensures { IfOk result (λ t. t ≡ map (written_register p.now tree.now) (registers p.now tree.now)) }
{
    registers_are_named_apart(p, tree);
    named_registers(alloc, p, tree, regs)
}

/// The names of the queues in text order.
pub(crate) fn queue_names(
    alloc: Global,
    tree: &Tree,
    queues: &[Queue],
) -> Result<Names, OutOfMemory>
    requires { map queue_of queues.now ≡ all_queues tree.now }
    ensures { IfOk result (λ n. n ≡ map name_of_queue (all_queues tree.now)) }
{
    queues_are_named_apart(tree);
    named_queues(alloc, queues)
}
