//! A worker for each object, with all lines of the work.

ghost use Rattle.std.specs.Prelude.{◌≡◌, ◌+◌, ◌^◌, ◌<◌, ℕ, Some, length, slice_get, IfOk, OnOk};
ghost use Rattle.hem_work.specs.Work.{requests_of};
ghost use Rattle.hem_system.specs.State.{start};
ghost use Rattle.hem_ends.specs.Ends.{Ends};
ghost use Rattle.hem_worker.specs.Workers.{Worker as Seen, IsAdded, IsChangedAt};
ghost use Rattle.hem_crew.specs.Crew.{IsCrew};
ghost use Rattle.hem_wiring.specs.Wiring.{IsBare, AreBare, CanTake, AreLinesAdded};

use crate::edges::all_ends;
use hem_base::{LineId, List, Message, ObjectId, OutOfMemory};
use hem_ends::LineEnds;
use hem_syntax::Protocol;
use hem_tree::Tree;
use hem_wire::Net;
use hem_work::Work;
use hem_worker::{Worker, turns_lengthen_parts};
use std::alloc::Global;

/// A worker for each object, without lines.
fn bare_workers<N: Net>(
    alloc: Global,
    tree: &Tree,
    self_count: u32,
) -> Result<List<Worker<N>>, OutOfMemory>
    ensures { IfOk result (λ crew. AreBare tree.now self_count (length tree.now) crew) }
{
    let mut crew = List::new(alloc);
    for o in 0..tree.objects() {
        let worker = Worker::make(alloc, tree, ObjectId(o), self_count)?;
        crew.push(worker)?;
    }
    Ok(crew)
}

/// Adds a line to the worker at a place.
fn add_at<N: Net>(
    alloc: Global,
    p: &Protocol,
    requests: &[Message],
    own: LineEnds<N>,
    crew: &mut List<Worker<N>>,
    place: usize,
) -> Result<(), OutOfMemory>
    requires there { place < length crew.old }
    requires takes { (w : Seen) → slice_get crew.old place ≡ Some w → CanTake own w }
    ensures { OnOk result (IsChangedAt (IsAdded p.now requests.now own) place crew.old crew.new) }
{
    let worker = crew.at_mut(place);
    worker.add_line(alloc, p, requests, own)
}

/// Adds a line to each worker, with its object's requests and ends.
fn add_to_all<N: Net>(
    alloc: Global,
    p: &Protocol,
    work: &Work,
    line: LineId,
    row: List<LineEnds<N>>,
    crew: &mut List<Worker<N>>,
) -> Result<(), OutOfMemory>
    requires count { length row ≡ length crew.old }
    requires few { length crew.old < 2 ^ 32 }
    requires takes { (o : ℕ) (w : Seen) (own : Ends) → slice_get crew.old o ≡ Some w → slice_get row o ≡ Some own → CanTake own w }
    ensures { OnOk result (AreLinesAdded p.now (requests_of work.now line.0) row crew.old crew.new) }
{
    let mut left = row.into_vec();
    while let Some(own) = left.pop() {
        let place = left.len();
        let requests = work.requests(ObjectId(place as u32), line);
        add_at(alloc, p, requests, own, crew, place)?;
    }
    Ok(())
}

/// Adds a line to the crew, with new channels of so many slots.
fn add_line<N: Net>(
    alloc: Global,
    p: &Protocol,
    tree: &Tree,
    work: &Work,
    net: &mut N,
    slots: usize,
    line: LineId,
    crew: &mut List<Worker<N>>,
) -> Result<(), OutOfMemory>
    requires slots { 0 < slots }
    requires few { line.0 + 1 < 2 ^ 32 }
    requires crew { IsCrew p.now tree.now (start p.now tree.now (record work.now { lines = line.0 })) work.now.self_count slots crew.old }
    ensures { OnOk result (IsCrew p.now tree.now (start p.now tree.now (record work.now { lines = line.0 + 1 })) work.now.self_count slots crew.new) }
{
    turns_lengthen_parts();
    let _objects = tree.objects();
    let row = all_ends(alloc, tree, net, slots)?;
    add_to_all(alloc, p, work, line, row, crew)
}

/// A worker for each object, with all lines of the work, joined by new channels of so many slots on each line for each edge
/// of the tree.
pub fn make_crew<N: Net>(
    alloc: Global,
    p: &Protocol,
    tree: &Tree,
    work: &Work,
    net: &mut N,
    slots: usize,
) -> Result<Vec<Worker<N>>, OutOfMemory>
    requires { 0 < slots }
    ensures { IfOk result (λ crew. IsCrew p.now tree.now (start p.now tree.now work.now) work.now.self_count slots crew.items) }
{
    let mut crew = bare_workers(alloc, tree, work.self_count())?;
    for line in 0..work.lines() {
        add_line(alloc, p, tree, work, net, slots, LineId(line), &mut crew)?;
    }
    Ok(crew.into_vec())
}
