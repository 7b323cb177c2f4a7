//! Which firings are ready, and the first of them.

ghost use Rattle.std.specs.Prelude.{◌≡◌, ◌<◌, ◌≤◌, ◌/◌, ◌%◌, ◌^◌, nat_le, length, map, find, IfSome, IfNone};
ghost use Rattle.hem_walk.specs.Walk.{IsThere, IsTurn, IsOver, is_spent, is_ready, firing_of, named, firings_of_rule, ready_at, positions};
ghost use Rattle.hem_system.specs.Ended.{self_firings};
ghost use Rattle.hem_tree.specs.Tree.{children_of};
ghost use Rattle.hem_walk.specs.Firsts.{IsGlance, IsRuleOf, names_child};
ghost use Rattle.hem_walk.specs.Near.{IsMarked};
ghost use Rattle.hem_walk.specs.Working.{IsCounted, IsFirst, NoneReady};

use crate::firsts::Glance;
use crate::marks::Marks;
use crate::working::{Walking, is_self, position};
use hem_base::{Firing, LineId, ObjectId};
use hem_syntax::{Protocol, Rule, Take};
use hem_tree::Tree;
use hem_work::Work;

/// An object on a line.
#[derive(Clone, Copy)]
struct Spot {
    line: LineId,
    object: ObjectId,
}

/// Whether a rule with that take names a child, on an object that has some.
fn names_child(take: Take) -> bool
    ensures { result ≡ names_child take }
{
    match take {
        Take::Me(_) => true,
        Take::Parent(_) | Take::Kids(_) | Take::Nothing => false,
    }
}

impl Walking {
    /// How many self firings an object made on a line.
    fn self_firings(&self, p: &Protocol, tree: &Tree, line: LineId, object: ObjectId) -> u32
        requires counted { IsCounted p.now tree.now self.now.journal self.now.system self.now.selfs }
        requires there { IsThere tree.now self.now.system line.0 object.0 }
        ensures { result ≡ self_firings p.now tree.now self.now.journal line.0 object.0 }
    {
        self.selfs[position(tree, line, object)]
    }

    /// Whether an object has made all of its self firings on a line.
    pub(crate) fn are_selfs_spent(
        &self,
        p: &Protocol,
        tree: &Tree,
        work: &Work,
        line: LineId,
        object: ObjectId,
    ) -> bool
        requires counted { IsCounted p.now tree.now self.now.journal self.now.system self.now.selfs }
        requires there { IsThere tree.now self.now.system line.0 object.0 }
        ensures { result ≡ nat_le work.now.self_count (self_firings p.now tree.now self.now.journal line.0 object.0) }
    {
        work.self_count() <= self.self_firings(p, tree, line, object)
    }

    /// Whether a firing is of a self rule, and its object has made all of its self firings on its line.
    fn is_spent(&self, p: &Protocol, tree: &Tree, work: &Work, firing: Firing) -> bool
        requires counted { IsCounted p.now tree.now self.now.journal self.now.system self.now.selfs }
        requires there { IsThere tree.now self.now.system firing.line.0 firing.object.0 }
        ensures { result ≡ is_spent p.now tree.now work.now.self_count self.now.journal firing }
    {
        is_self(p, tree, firing) && self.are_selfs_spent(p, tree, work, firing.line, firing.object)
    }

    /// Whether a firing is possible and not spent.
    pub(crate) fn is_ready(&self, p: &Protocol, tree: &Tree, work: &Work, firing: Firing) -> bool
        requires counted { IsCounted p.now tree.now self.now.journal self.now.system self.now.selfs }
        requires there { IsThere tree.now self.now.system firing.line.0 firing.object.0 }
        ensures { result ≡ is_ready p.now tree.now work.now.self_count self.now.journal self.now.system firing }
    {
        self.system.can(p, tree, firing) && !self.is_spent(p, tree, work, firing)
    }

    /// The ready firing of a rule by an object on a line that names the least child.
    fn first_of_child(
        &self,
        p: &Protocol,
        tree: &Tree,
        work: &Work,
        glance: &Glance<'_>,
        line: LineId,
        object: ObjectId,
        rule: &Rule,
    ) -> Option<Firing>
        requires counted { IsCounted p.now tree.now self.now.journal self.now.system self.now.selfs }
        requires there { IsThere tree.now self.now.system line.0 object.0 }
        requires glance { IsGlance p.now tree.now work.now.self_count self.now.journal self.now.system line.0 object.0 glance.now }
        requires rule { IsRuleOf p.now tree.now object.0 rule.now }
        ensures { result ≡ find (is_ready p.now tree.now work.now.self_count self.now.journal self.now.system) (map (firing_of line.0 object.0 rule.now) (map named (children_of tree.now object.0))) }
    {
        let children = tree.children(object);
        for child in children {
            let firing = Firing {
                line,
                object,
                rule: rule.name,
                me: Some(*child),
            };
            if self.is_ready_with(p, tree, work, glance, firing, rule) {
                return Some(firing);
            }
        }
        None
    }

    /// The ready firing of a rule by an object on a line with the least child.
    fn first_of_rule(
        &self,
        p: &Protocol,
        tree: &Tree,
        work: &Work,
        glance: &Glance<'_>,
        line: LineId,
        object: ObjectId,
        rule: &Rule,
    ) -> Option<Firing>
        requires counted { IsCounted p.now tree.now self.now.journal self.now.system self.now.selfs }
        requires there { IsThere tree.now self.now.system line.0 object.0 }
        requires glance { IsGlance p.now tree.now work.now.self_count self.now.journal self.now.system line.0 object.0 glance.now }
        requires rule { IsRuleOf p.now tree.now object.0 rule.now }
        ensures { result ≡ find (is_ready p.now tree.now work.now.self_count self.now.journal self.now.system) (firings_of_rule tree.now line.0 object.0 rule.now) }
    {
        let alone = Firing {
            line,
            object,
            rule: rule.name,
            me: None,
        };
        if self.is_ready_alone(p, tree, work, glance, alone, rule) {
            return Some(alone);
        }
        if names_child(rule.take) {
            self.first_of_child(p, tree, work, glance, line, object, rule)
        } else {
            None
        }
    }

    /// The first ready firing of an object on a line of which that is seen.
    fn first_seen(
        &self,
        p: &Protocol,
        tree: &Tree,
        work: &Work,
        glance: &Glance<'_>,
        line: LineId,
        object: ObjectId,
    ) -> Option<Firing>
        requires counted { IsCounted p.now tree.now self.now.journal self.now.system self.now.selfs }
        requires there { IsThere tree.now self.now.system line.0 object.0 }
        requires glance { IsGlance p.now tree.now work.now.self_count self.now.journal self.now.system line.0 object.0 glance.now }
        ensures { result ≡ ready_at p.now tree.now work.now.self_count self.now.journal self.now.system line.0 object.0 }
    {
        let kind = tree.kind(object);
        // That no name stands twice among the rules of a kind.
        let _part = p.part(kind);
        let rules = p.rules(kind);
        for rule in rules {
            if let Some(firing) = self.first_of_rule(p, tree, work, glance, line, object, rule) {
                return Some(firing);
            }
        }
        None
    }

    /// The first ready firing of an object on a line.
    fn first_at(
        &self,
        p: &Protocol,
        tree: &Tree,
        work: &Work,
        line: LineId,
        object: ObjectId,
    ) -> Option<Firing>
        requires counted { IsCounted p.now tree.now self.now.journal self.now.system self.now.selfs }
        requires there { IsThere tree.now self.now.system line.0 object.0 }
        ensures { result ≡ ready_at p.now tree.now work.now.self_count self.now.journal self.now.system line.0 object.0 }
    {
        match self.glance(p, tree, work, line, object) {
            Some(glance) => self.first_seen(p, tree, work, &glance, line, object),
            None => None,
        }
    }

    /// The object and the line of a position.
    fn spot(&self, tree: &Tree, at: usize) -> Spot
        requires few_lines { length self.now.system < 2 ^ 32 }
        requires within { at < positions tree.now self.now.system }
        ensures there { IsThere tree.now self.now.system result.line.0 result.object.0 }
        ensures line { result.line.0 ≡ at / length tree.now }
        ensures object { result.object.0 ≡ at % length tree.now }
    {
        let objects = tree.objects() as usize;
        Spot {
            line: LineId((at / objects) as u32),
            object: ObjectId((at % objects) as u32),
        }
    }

    /// The first ready firing at the positions from one on to before another one. Only positions of the set have one; those
    /// that turn out to have none are taken out of it.
    fn first_between(
        &self,
        p: &Protocol,
        tree: &Tree,
        work: &Work,
        marks: &mut Marks,
        from: usize,
        end: usize,
    ) -> Option<Firing>
        requires counted { IsCounted p.now tree.now self.now.journal self.now.system self.now.selfs }
        requires marked { IsMarked p.now tree.now work.now.self_count self.now.journal self.now.system marks.old }
        requires within { end ≤ positions tree.now self.now.system }
        ensures marked { IsMarked p.now tree.now work.now.self_count self.now.journal self.now.system marks.new }
        ensures some { IfSome result (IsFirst p.now tree.now work.now.self_count self.now.journal self.now.system from end) }
        ensures none { IfNone result (NoneReady p.now tree.now work.now.self_count self.now.journal self.now.system from end) }
    {
        let mut at = from;
        while let Some(next) = marks.next(at) {
            if next >= end {
                return None;
            }
            let Spot { line, object } = self.spot(tree, next);
            if let Some(firing) = self.first_at(p, tree, work, line, object) {
                return Some(firing);
            }
            marks.remove(next);
            at = next + 1;
        }
        None
    }

    /// The first ready firing at the positions from one on, where the first comes after the last.
    pub(crate) fn choose(
        &self,
        p: &Protocol,
        tree: &Tree,
        work: &Work,
        marks: &mut Marks,
        from: usize,
    ) -> Option<Firing>
        requires counted { IsCounted p.now tree.now self.now.journal self.now.system self.now.selfs }
        requires marked { IsMarked p.now tree.now work.now.self_count self.now.journal self.now.system marks.old }
        requires within { from ≤ positions tree.now self.now.system }
        ensures marked { IsMarked p.now tree.now work.now.self_count self.now.journal self.now.system marks.new }
        ensures some { IfSome result (IsTurn p.now tree.now work.now.self_count self.now.journal self.now.system from) }
        ensures none { IfNone result (IsOver p.now tree.now work.now.self_count self.now.journal self.now.system) }
    {
        let end = self.positions(tree);
        match self.first_between(p, tree, work, marks, from, end) {
            Some(firing) => Some(firing),
            None => self.first_between(p, tree, work, marks, 0, from),
        }
    }
}
