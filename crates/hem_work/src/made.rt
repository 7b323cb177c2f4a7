//! Generated requests.

ghost use Rattle.std.specs.Prelude.{◌≡◌, ◌<◌, ◌++◌, length, map, IfOk, OnOk};
ghost use Rattle.hem_tree.specs.Tree.{below};
ghost use Rattle.hem_work.specs.Entries.{number_if, CanPick};
ghost use Rattle.hem_work.specs.Generator.{next_number, draw_of};
ghost use Rattle.hem_work.specs.Lawful.{IsLawfulWork};
ghost use Rattle.hem_work.specs.Made.{leaves_of, external_ids, choices_of, picked, request_by, request_after, generated_count, table_with, fault_with};

use crate::faults::{fault_if, is_external, is_leaf};
use crate::generator::Generator;
use crate::limits::{MOST_REQUESTS, MOST_STARTS};
use crate::rows::{add_request, own_rows};
use crate::work::Work;
use hem_base::{Kind, List, Message, MsgId, OutOfMemory};
use hem_syntax::Protocol;
use hem_tree::{SetupCause, SetupFault, Tree};
use std::alloc::Global;

/// A request, with the leaf and the line to which it belongs.
#[derive(Clone, Copy, Debug, PartialEq, Eq)]
pub struct LeafRequest {
    pub leaf: u32,
    pub line: u32,
    pub message: Message,
}

/// From what draws pick: leaves, lines, and ids of requests of a processor.
#[derive(Debug, Drop)]
pub struct Choices {
    pub leaves: List<u32>,
    pub lines: u32,
    pub ids: List<u32>,
}

/// Appends a number, where it is wanted.
fn push_if(numbers: &mut List<u32>, wanted: bool, number: u32) -> Result<(), OutOfMemory>
    ensures { OnOk result (numbers.new ≡ numbers.old ++ number_if wanted number) }
{
    if wanted {
        return numbers.push(number);
    }
    Ok(())
}

/// The leaves of a tree, in order.
fn leaves_of(alloc: Global, tree: &Tree) -> Result<List<u32>, OutOfMemory>
    ensures { IfOk result (λ leaves. leaves ≡ leaves_of tree.now) }
{
    let mut leaves = List::new(alloc);
    for o in 0..tree.objects() {
        push_if(&mut leaves, is_leaf(tree, o), o)?;
    }
    Ok(leaves)
}

/// How many message ids there are.
fn message_count(p: &Protocol) -> u32
    ensures { result ≡ length p.now.messages }
{
    // This call says that the protocol is lawful, so that it has few messages.
    let _root = p.part(Kind::Root);
    p.messages().len() as u32
}

/// The ids of requests of a processor, in order of declaration.
fn external_ids(alloc: Global, p: &Protocol) -> Result<List<u32>, OutOfMemory>
    ensures { IfOk result (λ ids. ids ≡ external_ids p.now) }
{
    let mut ids = List::new(alloc);
    for id in 0..message_count(p) {
        push_if(&mut ids, is_external(p, MsgId(id)), id)?;
    }
    Ok(ids)
}

/// From what the draws pick for a protocol, a tree and so many lines.
pub fn choices_of(
    alloc: Global,
    p: &Protocol,
    tree: &Tree,
    lines: u32,
) -> Result<Choices, OutOfMemory>
    ensures { IfOk result (λ choices. choices ≡ choices_of p.now tree.now lines) }
{
    let leaves = leaves_of(alloc, tree)?;
    let ids = external_ids(alloc, p)?;
    Ok(Choices { leaves, lines, ids })
}

/// What a draw picks from a list.
fn picked(numbers: &[u32], draw: u32) -> u32
    requires { 0 < length numbers.now }
    ensures { result ≡ picked numbers.now draw }
{
    numbers[draw as usize % numbers.len()]
}

/// The request that the next three draws pick.
fn next_request(choices: &Choices, generator: &mut Generator, value: u64) -> LeafRequest
    requires leaf { 0 < length choices.now.leaves }
    requires line { 0 < choices.now.lines }
    requires id { 0 < length choices.now.ids }
    ensures request { result ≡ request_by choices.now (draw_of (next_number generator.old)) (draw_of (next_number (next_number generator.old))) (draw_of generator.new) value }
    ensures steps { generator.new ≡ next_number (next_number (next_number generator.old)) }
{
    let leaf = picked(choices.leaves.as_slice(), generator.draw());
    let line = generator.draw() % choices.lines;
    let id = MsgId(picked(choices.ids.as_slice(), generator.draw()));
    LeafRequest {
        leaf,
        line,
        message: Message { id, value },
    }
}

/// The requests of each line and object of a work, and after them so many generated ones.
pub fn rows_with(
    alloc: Global,
    work: &Work,
    objects: u32,
    choices: &Choices,
    count: u32,
    seed: u64,
) -> Result<List<List<List<Message>>>, OutOfMemory>
    requires lines { choices.now.lines ≡ work.now.lines }
    requires picks { 0 < count → CanPick choices.now objects }
    ensures { IfOk result (λ rows. rows ≡ table_with work.now (map (request_after choices.now seed) (below count)) objects) }
{
    let mut rows = own_rows(alloc, work, objects)?;
    let mut generator = Generator::new(seed);
    for k in 0..count {
        let request = next_request(choices, &mut generator, u64::from(k) + 1);
        add_request(&mut rows, request)?;
    }
    Ok(rows)
}

/// How many requests are generated where so many are wanted: none without an id to pick from.
pub fn generated_count(choices: &Choices, wanted: u32) -> u32
    ensures { result ≡ generated_count choices.now.ids wanted }
{
    if choices.ids.is_empty() { 0 } else { wanted }
}

/// The rule that a lawful work over a tree breaks with so many more requests. It takes no memory.
pub fn fault_with(work: &Work, p: &Protocol, tree: &Tree, more: u32) -> Option<SetupFault>
    requires { IsLawfulWork p.now tree.now work.now }
    ensures { result ≡ fault_with tree.now work.now more }
{
    let requests = work.request_count() as u64 + u64::from(more);
    let firings = u64::from(work.self_count())
        * u64::from(tree.objects())
        * u64::from(work.lines());
    match fault_if(
        requests > MOST_REQUESTS as u64,
        SetupCause::Requests,
        work.place(),
    ) {
        Some(fault) => Some(fault),
        None => fault_if(
            requests + firings > MOST_STARTS,
            SetupCause::Starts,
            work.place(),
        ),
    }
}
