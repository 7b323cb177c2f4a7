//! The image of a line: what its registers and queues hold.

ghost use Rattle.std.specs.Prelude.{◌≡◌, ◌==◌, ◌<◌, ◌++◌, ◌∷◌, [], true, length, map, position, slice_index_or, slice_get, cond, IfOk, OnOk};
ghost use Rattle.std.specs.Option.{option_map_or, option_copied};
ghost use Rattle.hem_base.specs.Sets.{has_bit};
ghost use Rattle.hem_tree.specs.Tree.{is_child, children_of, place_among};
ghost use Rattle.hem_fire.specs.Heads.{awaited_of};
ghost use Rattle.hem_system.specs.State.{local_at, list_at};
ghost use Rattle.hem_emit.specs.Layout.{registers, queues as all_queues};
ghost use Rattle.hem_emit.specs.Place.{origin_of, kid_origin};
ghost use Rattle.hem_emit.specs.Image.{lock_number, status_number, in_parent, number_of};
ghost use Rattle.hem_emit.specs.Written.{state_of};
ghost use Rattle.hem_translate.specs.Places.{part_of, reg_of, queue_of};
ghost use Rattle.hem_translate.specs.Lines.{line_at};

use crate::layout::{queues, registers};
use crate::starts::parent_of;
use crate::tables::{Part, Queue, Reg};
use hem_base::{LineId, List, Message, ObjectId, OutOfMemory, Status8};
use hem_check::Accepted;
use hem_fire::awaited_of;
use hem_module::ModState;
use hem_object::{By, Local, Lock};
use hem_syntax::Protocol;
use hem_system::{Lane, System};
use hem_tree::Tree;
use std::alloc::Global;

/// A status as a number; 0 where there is none.
fn status_number(status: Option<Status8>) -> u64
    ensures { result ≡ status_number status }
{
    match status {
        Some(status) => u64::from(status.0),
        None => 0,
    }
}

/// The number of the child at a place; 0 where there is none.
fn child_number(children: &[ObjectId], place: u8) -> u32
    ensures { result ≡ option_map_or (λ id. id.0) (slice_get children.now place) 0 }
{
    match children.get(usize::from(place)) {
        Some(child) => child.0,
        None => 0,
    }
}

/// The origin that is the child at a place.
fn child_origin(children: &[ObjectId], place: u8) -> u64
    ensures { result ≡ kid_origin (slice_index_or (map (λ id. id.0) children.now) place 0) }
{
    3 + u64::from(child_number(children, place))
}

/// The origin of a lock as a number, at an object with these children.
fn origin_number(children: &[ObjectId], by: By) -> u64
    ensures { result ≡ origin_of (map (λ id. id.0) children.now) by }
{
    match by {
        By::Own => 1,
        By::Parent => 2,
        By::Processor => 3,
        By::Kid(place) => child_origin(children, place),
    }
}

/// A part of a lock as a number, at an object with these children; 0 where it is free.
fn lock_number(children: &[ObjectId], part: Part, lock: Option<Lock>) -> u64
    ensures { result ≡ lock_number (map (λ id. id.0) children.now) (part_of part) lock }
{
    match lock {
        Some(lock) => match part {
            Part::Origin => origin_number(children, lock.by),
            Part::Asked => u64::from(lock.request.id.0),
            Part::Kept => lock.request.value,
        },
        None => 0,
    }
}

/// The status of a field as a number; 0 where there is no such field.
fn field_number(local: &Local, place: u8) -> u64
    ensures { result ≡ status_number (slice_get local.now.fields place) }
{
    status_number(local.fields.get(usize::from(place)).copied())
}

/// The status of a child's entry as a number; 0 where there is none.
fn entry_number(local: &Local, place: usize) -> u64
    ensures { result ≡ status_number (slice_get local.now.dir place) }
{
    status_number(local.dir.get(place).copied())
}

/// Whether a child is awaited: 1 or 0.
fn awaits_number(local: &Local, place: usize) -> u64
    ensures { result ≡ cond (has_bit (awaited_of local.now).0 place) 1 0 }
{
    if awaited_of(local).has(place) { 1 } else { 0 }
}

/// The children of an object, in order; none where the tree has no such object.
fn children_at(tree: &Tree, o: u32) -> &[ObjectId]
    ensures { map (λ id. id.0) result.now ≡ children_of tree.now o }
{
    if o < tree.objects() {
        tree.children(ObjectId(o))
    } else {
        &[]
    }
}

/// The place of an object among these, where it is among them.
fn place_in(children: &[ObjectId], c: u32) -> Option<usize>
    ensures { result ≡ position (λ id. id.0 == c) children.now }
{
    children.iter().position(|child| child.0 == c)
}

/// The place of a child among the children of its parent.
fn place_among(tree: &Tree, parent: ObjectId, c: u32) -> usize
    requires { is_child tree.now c parent.0 ≡ true }
    ensures { result ≡ place_among tree.now parent.0 c }
{
    place_in(children_at(tree, parent.0), c).unwrap_or(0)
}

/// What an object keeps of a line, where it is there.
fn local_of(s: &System, line: LineId, o: u32) -> Option<&Local>
    requires { line.0 < length s.now }
    ensures { option_copied result ≡ local_at (line_at s.now line.0) o }
{
    if (o as usize) < s.objects(line.0 as usize) {
        Some(s.local(line, ObjectId(o)))
    } else {
        None
    }
}

/// The number of a field on a line; 0 where the object or the field isn't there.
fn field_at(s: &System, line: LineId, place: u8, o: u32) -> u64
    requires { line.0 < length s.now }
    ensures { result ≡ option_map_or (λ local. status_number (slice_get local.fields place)) (local_at (line_at s.now line.0) o) 0 }
{
    match local_of(s, line, o) {
        Some(local) => field_number(local, place),
        None => 0,
    }
}

/// The value of an object on a line; 0 where it isn't there.
fn value_at(s: &System, line: LineId, o: u32) -> u64
    requires { line.0 < length s.now }
    ensures { result ≡ option_map_or (λ local. local.val) (local_at (line_at s.now line.0) o) 0 }
{
    match local_of(s, line, o) {
        Some(local) => local.val,
        None => 0,
    }
}

/// A part of an object's uplock on a line, as a number; 0 where the object isn't there or the lock is free.
fn uplock_at(tree: &Tree, s: &System, line: LineId, part: Part, o: u32) -> u64
    requires { line.0 < length s.now }
    ensures { result ≡ option_map_or (λ local. lock_number (children_of tree.now o) (part_of part) local.up) (local_at (line_at s.now line.0) o) 0 }
{
    match local_of(s, line, o) {
        Some(local) => lock_number(children_at(tree, o), part, local.up),
        None => 0,
    }
}

/// A part of an object's downlock on a line, as a number; 0 where the object isn't there or the lock is free.
fn downlock_at(tree: &Tree, s: &System, line: LineId, part: Part, o: u32) -> u64
    requires { line.0 < length s.now }
    ensures { result ≡ option_map_or (λ local. lock_number (children_of tree.now o) (part_of part) local.down) (local_at (line_at s.now line.0) o) 0 }
{
    match local_of(s, line, o) {
        Some(local) => lock_number(children_at(tree, o), part, local.down),
        None => 0,
    }
}

/// The status of the entry that a parent keeps of its child on a line, as a number; 0 where the parent isn't there.
fn entry_with(tree: &Tree, s: &System, line: LineId, parent: ObjectId, c: u32) -> u64
    requires line { line.0 < length s.now }
    requires child { is_child tree.now c parent.0 ≡ true }
    ensures { result ≡ option_map_or (λ local. status_number (slice_get local.dir (place_among tree.now parent.0 c))) (local_at (line_at s.now line.0) parent.0) 0 }
{
    match local_of(s, line, parent.0) {
        Some(local) => entry_number(local, place_among(tree, parent, c)),
        None => 0,
    }
}

/// Whether a parent awaits its child on a line: 1 or 0.
fn awaits_with(tree: &Tree, s: &System, line: LineId, parent: ObjectId, c: u32) -> u64
    requires line { line.0 < length s.now }
    requires child { is_child tree.now c parent.0 ≡ true }
    ensures { result ≡ option_map_or (λ local. cond (has_bit (awaited_of local).0 (place_among tree.now parent.0 c)) 1 0) (local_at (line_at s.now line.0) parent.0) 0 }
{
    match local_of(s, line, parent.0) {
        Some(local) => awaits_number(local, place_among(tree, parent, c)),
        None => 0,
    }
}

/// The status of the entry that an object's parent keeps of it on a line, as a number; 0 where it has no parent.
#[tactic(auto, using(crate::proofs::OnLine::child_of))]
fn entry_at(tree: &Tree, s: &System, line: LineId, c: u32) -> u64
    requires { line.0 < length s.now }
    ensures { result ≡ in_parent tree.now (line_at s.now line.0) c (λ k local. status_number (slice_get local.dir k)) }
{
    match parent_of(tree, c) {
        Some(parent) => entry_with(tree, s, line, parent, c),
        None => 0,
    }
}

/// Whether an object's parent awaits it on a line: 1 or 0.
#[tactic(auto, using(crate::proofs::OnLine::child_of))]
fn awaits_at(tree: &Tree, s: &System, line: LineId, c: u32) -> u64
    requires { line.0 < length s.now }
    ensures { result ≡ in_parent tree.now (line_at s.now line.0) c (λ k local. cond (has_bit (awaited_of local).0 k) 1 0) }
{
    match parent_of(tree, c) {
        Some(parent) => awaits_with(tree, s, line, parent, c),
        None => 0,
    }
}

/// What a register holds in the image of a line.
fn number_at(tree: &Tree, s: &System, line: LineId, reg: Reg) -> u64
    requires { line.0 < length s.now }
    ensures { result ≡ number_of tree.now (line_at s.now line.0) (reg_of reg) }
{
    match reg {
        Reg::Field(place, o) => field_at(s, line, place, o),
        Reg::Val(o) => value_at(s, line, o),
        Reg::Up(part, o) => uplock_at(tree, s, line, part, o),
        Reg::Down(part, o) => downlock_at(tree, s, line, part, o),
        Reg::Entry(c) => entry_at(tree, s, line, c),
        Reg::Awaits(c) => awaits_at(tree, s, line, c),
    }
}

/// What these registers hold in the image of a line.
fn numbers_at(
    alloc: Global,
    tree: &Tree,
    s: &System,
    line: LineId,
    regs: &[Reg],
) -> Result<List<u64>, OutOfMemory>
    requires { line.0 < length s.now }
    ensures { IfOk result (λ numbers. numbers ≡ map (λ r. number_of tree.now (line_at s.now line.0) (reg_of r)) regs.now) }
{
    let mut numbers = List::new(alloc);
    for reg in regs {
        numbers.push(number_at(tree, s, line, *reg))?;
    }
    Ok(numbers)
}

/// A list of an object on a line; no message where the object isn't there.
fn list_at(s: &System, line: LineId, o: u32, lane: Lane) -> &[Message]
    requires { line.0 < length s.now }
    ensures { result.now ≡ list_at (line_at s.now line.0) o lane }
{
    if (o as usize) < s.objects(line.0 as usize) {
        s.list(line, ObjectId(o), lane)
    } else {
        &[]
    }
}

/// What a queue holds in the image of a line.
fn messages_at(s: &System, line: LineId, queue: Queue) -> &[Message]
    requires { line.0 < length s.now }
    ensures { result.now ≡ list_at (line_at s.now line.0) (queue_of queue).object (queue_of queue).lane }
{
    match queue {
        Queue::UpRequests(o) => list_at(s, line, o, Lane::UpRequests),
        Queue::UpResponses(o) => list_at(s, line, o, Lane::UpResponses),
        Queue::Down(o) => list_at(s, line, o, Lane::Down),
        Queue::Requests(o) => list_at(s, line, o, Lane::Requests),
        Queue::Answers(o) => list_at(s, line, o, Lane::Answers),
    }
}

/// Appends a queue with what it holds in the image of a line.
fn push_queue(
    alloc: Global,
    state: &mut ModState,
    s: &System,
    line: LineId,
    queue: Queue,
) -> Result<(), OutOfMemory>
    requires { line.0 < length s.now }
    ensures regs { OnOk result (state.new.regs ≡ state.old.regs) }
    ensures queues { OnOk result (state.new.queues ≡ state.old.queues ++ list_at (line_at s.now line.0) (queue_of queue).object (queue_of queue).lane ∷ []) }
{
    state.push_queue(alloc, messages_at(s, line, queue))
}

/// Appends these queues with what they hold in the image of a line.
fn push_queues(
    alloc: Global,
    state: &mut ModState,
    s: &System,
    line: LineId,
    queues: &[Queue],
) -> Result<(), OutOfMemory>
    requires { line.0 < length s.now }
    ensures regs { OnOk result (state.new.regs ≡ state.old.regs) }
    ensures queues { OnOk result (state.new.queues ≡ state.old.queues ++ map (λ q. list_at (line_at s.now line.0) (queue_of q).object (queue_of q).lane) queues.now) }
{
    for queue in queues {
        push_queue(alloc, state, s, line, *queue)?;
    }
    Ok(())
}

/// A state with these registers and queues, and what they hold in the image of a line.
fn filled(
    alloc: Global,
    tree: &Tree,
    s: &System,
    line: LineId,
    regs: &[Reg],
    queues: &[Queue],
) -> Result<ModState, OutOfMemory>
    requires { line.0 < length s.now }
    ensures regs { IfOk result (λ m. m.regs ≡ map (λ r. number_of tree.now (line_at s.now line.0) (reg_of r)) regs.now) }
    ensures queues { IfOk result (λ m. m.queues ≡ map (λ q. list_at (line_at s.now line.0) (queue_of q).object (queue_of q).lane) queues.now) }
{
    let numbers = numbers_at(alloc, tree, s, line, regs)?;
    let mut state = ModState::with_registers(alloc, numbers);
    push_queues(alloc, &mut state, s, line, queues)?;
    Ok(state)
}

/// The image of a line, with the registers and queues in text order.
fn image_of(
    alloc: Global,
    p: &Protocol,
    tree: &Tree,
    s: &System,
    line: LineId,
    regs: &[Reg],
    queues: &[Queue],
) -> Result<ModState, OutOfMemory>
    requires line { line.0 < length s.now }
    requires regs { map reg_of regs.now ≡ registers p.now tree.now }
    requires queues { map queue_of queues.now ≡ all_queues tree.now }
    ensures { IfOk result (λ m. m ≡ state_of p.now tree.now (line_at s.now line.0)) }
{
    filled(alloc, tree, s, line, regs, queues)
}

/// The image of a line, as a state of the modules of a protocol.
fn image_on(
    alloc: Global,
    p: &Protocol,
    tree: &Tree,
    s: &System,
    line: LineId,
) -> Result<ModState, OutOfMemory>
    requires { line.0 < length s.now }
    ensures { IfOk result (λ m. m ≡ state_of p.now tree.now (line_at s.now line.0)) }
{
    let regs = registers(alloc, p, tree)?;
    let lists = queues(alloc, tree)?;
    image_of(alloc, p, tree, s, line, regs.as_slice(), lists.as_slice())
}

/// The image of a line, as a state of the modules that the protocol is translated to: what each register and each queue
/// holds, in text order.
pub fn image(
    alloc: Global,
    a: &Accepted,
    tree: &Tree,
    s: &System,
    line: LineId,
) -> Result<ModState, OutOfMemory>
    requires { line.0 < length s.now }
    ensures { IfOk result (λ m. m ≡ state_of a.now tree.now (slice_index_or s.now line.0 [])) }
{
    image_on(alloc, a.protocol(), tree, s, line)
}
