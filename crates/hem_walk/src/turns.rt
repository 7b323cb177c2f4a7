//! The turns of a walk.

ghost use Rattle.std.specs.Prelude.{◌≡◌, ◌<◌, ◌+◌, ◌^◌, ◌++◌, ◌∷◌, [], true, Some, IfOk, OnOk};
ghost use Rattle.hem_system.specs.Ended.{is_self, self_firings};
ghost use Rattle.hem_walk.specs.Near.{IsMarked};
ghost use Rattle.hem_walk.specs.Walk.{IsThere};
ghost use Rattle.hem_walk.specs.Working.{IsCounted, IsSoFar, IsMade, IsAfterTurn, sends_to};

use crate::marks::Marks;
use crate::working::{Walking, is_self, position};
use hem_base::{Firing, List, OutOfMemory};
use hem_fire::To;
use hem_syntax::Protocol;
use hem_system::System;
use hem_tree::Tree;
use hem_work::{Generator, Work};
use std::alloc::Global;

impl Walking {
    /// A walk from the start, with no firing so far.
    pub(crate) fn start(
        alloc: Global,
        p: &Protocol,
        tree: &Tree,
        work: &Work,
        seed: u64,
    ) -> Result<Walking, OutOfMemory>
        ensures { IfOk result (IsSoFar p.now tree.now work.now seed) }
    {
        let system = System::start(alloc, p, tree, work)?;
        let positions = work.lines() as usize * tree.objects() as usize;
        Ok(Walking {
            system,
            journal: List::new(alloc),
            selfs: vec![in alloc; 0; positions]?,
            generator: Generator::new(seed),
        })
    }

    /// Counts a firing at its position, where it is of a self rule.
    fn count(&mut self, p: &Protocol, tree: &Tree, firing: Firing)
        requires counted { IsCounted p.now tree.now self.old.journal self.old.system self.old.selfs }
        requires there { IsThere tree.now self.old.system firing.line.0 firing.object.0 }
        requires few { is_self p.now tree.now firing ≡ true → self_firings p.now tree.now self.old.journal firing.line.0 firing.object.0 + 1 < 2 ^ 32 }
        ensures counted { IsCounted p.now tree.now (self.old.journal ++ firing ∷ []) self.old.system self.new.selfs }
        ensures system { self.new.system ≡ self.old.system }
        ensures journal { self.new.journal ≡ self.old.journal }
        ensures number { self.new.number ≡ self.old.number }
    {
        if is_self(p, tree, firing) {
            self.selfs[position(tree, firing.line, firing.object)] += 1;
        }
    }

    /// Makes a firing that is possible. Tells where it sends its message.
    fn make(&mut self, p: &Protocol, tree: &Tree, firing: Firing) -> Result<To, OutOfMemory>
        requires counted { IsCounted p.now tree.now self.old.journal self.old.system self.old.selfs }
        requires there { IsThere tree.now self.old.system firing.line.0 firing.object.0 }
        requires few { is_self p.now tree.now firing ≡ true → self_firings p.now tree.now self.old.journal firing.line.0 firing.object.0 + 1 < 2 ^ 32 }
        ensures made { OnOk result (IsMade p.now tree.now firing self.old self.new) }
        ensures sent { IfOk result (λ to. sends_to p.now tree.now self.old.system firing ≡ Some to) }
    {
        self.count(p, tree, firing);
        self.journal.push(firing)?;
        match self.system.step(p, tree, firing) {
            Ok(event) => Ok(event.outs.to),
            // The firing is possible, so memory ran out.
            Err(_fault) => Err(OutOfMemory),
        }
    }

    /// Makes a draw, and the firing of its turn where there is one. Tells whether there was one.
    pub(crate) fn turn(
        &mut self,
        p: &Protocol,
        tree: &Tree,
        work: &Work,
        marks: &mut Marks,
    ) -> Result<bool, OutOfMemory>
        requires counted { IsCounted p.now tree.now self.old.journal self.old.system self.old.selfs }
        requires marked { IsMarked p.now tree.now work.now.self_count self.old.journal self.old.system marks.old }
        ensures turn { IfOk result (IsAfterTurn p.now tree.now work.now.self_count self.old self.new) }
        ensures marked { OnOk result (IsMarked p.now tree.now work.now.self_count self.new.journal self.new.system marks.new) }
    {
        // That a count of self firings is within its type.
        let _self_count = work.self_count();
        let positions = self.positions(tree);
        if positions == 0 {
            return Ok(false);
        }
        let from = self.generator.draw() as usize % positions;
        let Some(firing) = self.choose(p, tree, work, marks, from) else {
            return Ok(false);
        };
        let to = self.make(p, tree, firing)?;
        self.mark_near(tree, marks, firing, to);
        Ok(true)
    }
}
