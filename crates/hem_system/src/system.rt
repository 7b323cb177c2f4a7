//! Whole states.

ghost use Rattle.std.specs.Prelude.{◌≡◌, ◌<◌, length, slice_index_or, [], Some, option_map, is_some, IfOk, OnOk, OnErr, ◌↔◌, Err, None};
ghost use Rattle.hem_system.specs.State.{start, fire, Fires, list_of, cell_at};
ghost use Rattle.hem_system.specs.Events.{event_in};
ghost use Rattle.hem_system.specs.Quiet.{is_quiet};

use crate::cell::Cell;
use crate::event::Event;
use crate::fault::StepFault;
use crate::firing::step_line;
use crate::lane::Lane;
use crate::possible::can_on;
use crate::quiet::are_idle;
use crate::starting::first_lines;
use hem_base::{Firing, LineId, List, Message, ObjectId, OutOfMemory};
use hem_object::Local;
use hem_syntax::Protocol;
use hem_tree::Tree;
use hem_work::Work;
use std::alloc::Global;
use std::marker::Model;

/// The state of all lines: of each object its local state and its lists.
#[derive(Drop)]
pub struct System {
    lines: List<List<Cell>>,
}

impl Model for System {
    ghost use Rattle.hem_system.specs.State.{State};
    ghost use Rattle.hem_system.specs.Cells.{state_of};

    ghost Value = { State };

    ghost view = { λ s. state_of s.lines };
}

impl System {
    /// The state at the start: all locks free, and all lists empty but the work's requests.
    pub fn start(
        alloc: Global,
        p: &Protocol,
        tree: &Tree,
        work: &Work,
    ) -> Result<System, OutOfMemory>
        ensures { IfOk result (λ system. system ≡ start p.now tree.now work.now) }
    {
        let lines = first_lines(alloc, p, tree, work, work.lines())?;
        Ok(System { lines })
    }

    /// How many lines there are.
    pub fn lines(&self) -> usize
        ensures { result ≡ length self.now }
    {
        self.lines.len()
    }

    /// How many objects there are on the line at a place.
    pub fn objects(&self, line: usize) -> usize
        requires { line < length self.now }
        ensures { result ≡ length (slice_index_or self.now line []) }
    {
        let cells = &self.lines.as_slice()[line];
        cells.len()
    }

    /// What the object at a place keeps of the line at a place. It takes no memory.
    pub fn local_at(&self, line: usize, object: usize) -> &Local
        requires line { line < length self.now }
        requires object { object < length (slice_index_or self.now line []) }
        ensures { option_map (λ cell. cell.local) (cell_at self.now line object) ≡ Some result.now }
    {
        let cells = &self.lines.as_slice()[line];
        let cell = &cells.as_slice()[object];
        &cell.local
    }

    /// A list of the object at a place on the line at a place, head first. It takes no memory.
    pub fn list_at(&self, line: usize, object: usize, lane: Lane) -> &[Message]
        requires line { line < length self.now }
        requires object { object < length (slice_index_or self.now line []) }
        ensures { option_map (λ cell. list_of cell lane) (cell_at self.now line object) ≡ Some result.now }
    {
        let cells = &self.lines.as_slice()[line];
        let cell = &cells.as_slice()[object];
        cell.list(lane)
    }

    /// What an object keeps of a line. It takes no memory.
    pub fn local(&self, line: LineId, object: ObjectId) -> &Local
        requires line { line.0 < length self.now }
        requires object { object.0 < length (slice_index_or self.now line.0 []) }
        ensures { option_map (λ cell. cell.local) (cell_at self.now line.0 object.0) ≡ Some result.now }
    {
        let cells = &self.lines.as_slice()[line.0 as usize];
        let cell = &cells.as_slice()[object.0 as usize];
        &cell.local
    }

    /// A list of an object on a line, head first. It is empty where the object has no such list. It takes no memory.
    pub fn list(&self, line: LineId, object: ObjectId, lane: Lane) -> &[Message]
        requires line { line.0 < length self.now }
        requires object { object.0 < length (slice_index_or self.now line.0 []) }
        ensures { option_map (λ cell. list_of cell lane) (cell_at self.now line.0 object.0) ≡ Some result.now }
    {
        let cells = &self.lines.as_slice()[line.0 as usize];
        let cell = &cells.as_slice()[object.0 as usize];
        cell.list(lane)
    }

    /// Whether a firing is possible: the line, the object, the rule and the child are there, and the rule can fire. It
    /// takes no memory.
    pub fn can(&self, p: &Protocol, tree: &Tree, firing: Firing) -> bool
        ensures { result ≡ is_some (fire p.now tree.now self.now firing) }
    {
        match self.lines.get(firing.line.0 as usize) {
            Some(cells) => can_on(cells.as_slice(), p, tree, firing),
            None => false,
        }
    }

    /// Makes a firing, and tells the event that was made. Where it isn't possible, or memory runs out, nothing changes.
    #[inline(always)]
    pub fn step(&mut self, p: &Protocol, tree: &Tree, firing: Firing) -> Result<Event, StepFault>
        ensures ok { OnOk result (Fires p.now tree.now self.old firing self.new) }
        ensures event { IfOk result (λ event. event_in p.now tree.now self.old firing ≡ Some event) }
        ensures refused { (result ≡ Err StepFault.NotEnabled) ↔ (fire p.now tree.now self.old firing ≡ None) }
        ensures err { OnErr result (self.new ≡ self.old) }
    {
        let line = firing.line.0 as usize;
        if line < self.lines.len() {
            step_line(&mut self.lines, line, p, tree, firing)
        } else {
            Err(StepFault::NotEnabled)
        }
    }

    /// Whether no list but the answers has a message, and no lock is held. It takes no memory.
    pub fn quiet(&self) -> bool
        ensures { result ≡ is_quiet self.now }
    {
        are_idle(self.lines.as_slice())
    }
}
