//! A worker: an object with all that it has of its lines.

ghost use Rattle.std.specs.Prelude.{◌≡◌, ◌+◌, ◌^◌, ◌<◌, ◌≤◌, [], length, IfOk, OnOk, OnErr};
ghost use Rattle.hem_syntax.specs.Protocol.{Protocol as Written};
ghost use Rattle.hem_tree.specs.Tree.{Tree as Described};
ghost use Rattle.hem_system.specs.State.{State};
ghost use Rattle.hem_turns.specs.OnLine.{IsSeen};
ghost use Rattle.hem_worker.specs.LineParts.{Stands, AreUnused};
ghost use Rattle.hem_worker.specs.Edges.{channels};
ghost use Rattle.hem_worker.specs.Workers.{IsChangedAt, AreChanged, IsAdded, IsSameButRoom, IsJournalTaken, HasRoom, IsRound, IsStuck, AreParts};

use crate::rounds::{fire_all, reserve_all, take_journal_at};
use hem_base::{Gate, List, Message, ObjectId, OutOfMemory, Stamped};
use hem_ends::LineEnds;
use hem_object::Local;
use hem_syntax::Protocol;
use hem_tree::Tree;
use hem_turns::{Burst, OnLine, Place};
use hem_wire::Net;
use std::alloc::Global;
use std::marker::Model;

/// An object with all that it has of its lines: it fires there, one line after another, and keeps a journal of each.
/// It shares nothing with other workers but the channels of its edges.
#[derive(Drop)]
pub struct Worker<N: Net> {
    place: Place,
    children: List<ObjectId>,
    pub(crate) lines: List<OnLine<N>>,
    fired: u64,
}

impl<N: Net> Model for Worker<N> {
    ghost use Rattle.hem_worker.specs.Workers.{Worker as Seen, IsWorker};

    ghost Value = { Seen };

    ghost view = { λ w. record { object = w.place.object; kind = w.place.kind; self_count = w.place.self_count; children = w.children; lines = w.lines } };

    ghost invariant = { λ w. IsWorker w.children w.lines };
}

/// The children of an object, in a list of its own.
fn copied(alloc: Global, children: &[ObjectId]) -> Result<List<ObjectId>, OutOfMemory>
    ensures { IfOk result (λ list. list ≡ children.now) }
{
    Ok(List::from_vec(Vec::from_slice(alloc, children)?))
}

impl<N: Net> Worker<N> {
    /// An object's worker without lines, with so many self firings for each line.
    pub fn make(
        alloc: Global,
        tree: &Tree,
        object: ObjectId,
        self_count: u32,
    ) -> Result<Worker<N>, OutOfMemory>
        requires { object.0 < length tree.now }
        ensures stands { IfOk result (λ w. Stands tree.now w.object w.kind w.children) }
        ensures object { IfOk result (λ w. (w.object ≡ object) × (w.self_count ≡ self_count)) }
        ensures lines { IfOk result (λ w. w.lines ≡ []) }
    {
        let _objects = tree.objects();
        let children = copied(alloc, tree.children(object))?;
        Ok(Worker {
            place: Place {
                object,
                kind: tree.kind(object),
                self_count,
            },
            children,
            lines: List::new(alloc),
            fired: 0,
        })
    }

    /// Adds a line, with the processor's requests there and the object's ends, over which nothing went yet. Where memory
    /// is wanted the worker stays as it was.
    pub fn add_line(
        &mut self,
        alloc: Global,
        p: &Protocol,
        requests: &[Message],
        ends: LineEnds<N>,
    ) -> Result<(), OutOfMemory>
        requires few { length self.old.lines + 1 < 2 ^ 32 }
        requires kids { length ends.kids ≡ length self.old.children }
        requires unused { AreUnused ends }
        ensures ok { OnOk result (IsAdded p.now requests.now ends self.old self.new) }
        ensures err { OnErr result (self.new ≡ self.old) }
    {
        let local = Local::start(p, self.place.kind, self.children.len() as u8);
        let line = OnLine::new(alloc, local, requests, ends)?;
        self.lines.push(line)?;
        Ok(())
    }

    /// Makes room for so many firings on each line.
    pub fn reserve(&mut self, burst: usize) -> Result<(), OutOfMemory>
        ensures same { self.new ≡ record self.old { lines = self.new.lines } }
        ensures lines { AreChanged (λ l. IsSameButRoom) self.old.lines self.new.lines }
        ensures room { OnOk result (HasRoom burst self.new.lines) }
    {
        reserve_all(&mut self.lines, burst)
    }

    /// Fires at most so many times, on one line after another, and passes the gate after each firing. It fires fewer times
    /// only where on no line anything is possible any more on what its ends know then. Tells how many times it fired.
    pub fn round<G: Gate>(&mut self, p: &Protocol, gate: &G, burst: u64) -> u64
        requires { HasRoom burst self.old.lines }
        ensures most { result ≤ burst }
        ensures fired { IsRound p.now burst result self.old self.new }
        ensures stuck { result < burst → IsStuck p.now self.new }
        ensures looked { result ≡ 0 → 0 < burst → AreChanged (λ l. IsSeen) self.old.lines self.new.lines }
        ensures channels { channels self.new ≡ channels self.old }
        ensures parts { (tree : Described) (start : State) → AreParts p.now tree start self.old → AreParts p.now tree start self.new }
    {
        let _part = p.part(self.place.kind);
        let fired = fire_all(
            &mut self.lines,
            p,
            self.children.as_slice(),
            self.place,
            gate,
            Burst {
                before: self.fired,
                most: burst,
            },
        );
        self.fired = self.fired.saturating_add(fired);
        fired
    }

    /// Takes the journal of a line out, and leaves an empty one. It takes no memory.
    pub fn take_journal(&mut self, alloc: Global, line: usize) -> List<Stamped>
        requires { line < length self.old.lines }
        ensures same { self.new ≡ record self.old { lines = self.new.lines } }
        ensures journal { IsChangedAt (IsJournalTaken result) line self.old.lines self.new.lines }
    {
        take_journal_at(&mut self.lines, line, alloc)
    }

    /// What the object has of its lines at the end. It takes no memory.
    pub fn finish(self) -> List<OnLine<N>>
        ensures { result ≡ self.lines }
    {
        let Worker { lines, .. } = self;
        lines
    }
}
