//! What a rule asks first.

ghost use Rattle.std.specs.Prelude.{◌≡◌, ◌<◌, ◌&&◌, length, None, IsSome, IfSome, IfNone};
ghost use Rattle.std.specs.List.{list_all};
ghost use Rattle.hem_fire.specs.Heads.{has_id};
ghost use Rattle.hem_system.specs.Laws.{local_in};
ghost use Rattle.hem_walk.specs.Walk.{IsThere, firing_of, is_ready};
ghost use Rattle.hem_walk.specs.Firsts.{is_first, asks_alone, asks_child, field_holds, is_open, IsGlance, IsRuleOf};
ghost use Rattle.hem_walk.specs.Working.{IsCounted};

use crate::working::Walking;
use hem_base::{Firing, LineId, Message, MsgId, ObjectId};
use hem_fire::needs_hold;
use hem_object::Local;
use hem_syntax::{Atom, Protocol, Rule, Take};
use hem_system::Lane;
use hem_tree::Tree;
use hem_work::Work;
use std::marker::Model;

/// What is seen of an object on a line before any rule is tried.
#[derive(Drop)]
pub(crate) struct Glance<'w> {
    pub(crate) local: &'w Local,
    /// The first of its processor's requests.
    pub(crate) request: Option<Message>,
    /// The first message from its parent.
    pub(crate) down: Option<Message>,
    /// Whether it has made all of its self firings.
    pub(crate) are_selfs_spent: bool,
}

impl<'w> Model for Glance<'w> {
    ghost use Rattle.hem_walk.specs.Firsts.{Glance as Seen};

    ghost Value = { Seen };

    ghost view = { λ g. record { local = g.local.now; request = g.request; down = g.down; are_selfs_spent = g.are_selfs_spent } };
}

/// Whether a message is there and has the id.
fn has_id(message: Option<Message>, id: MsgId) -> bool
    ensures { result ≡ has_id message id }
{
    match message {
        Some(message) => message.id == id,
        None => false,
    }
}

/// Whether a condition holds that is on a field. Any other passes.
fn field_holds(local: &Local, atom: Atom) -> bool
    ensures { result ≡ field_holds local.now atom }
{
    match atom {
        Atom::Field(field, set) => match local.fields.get(usize::from(field)) {
            Some(status) => set.has(*status),
            None => false,
        },
        _ => true,
    }
}

/// Whether all conditions of a guard hold that are on fields.
fn fields_hold(local: &Local, guard: &[Atom]) -> bool
    ensures { result ≡ list_all (field_holds local.now) guard.now }
{
    guard.iter().all(|atom| field_holds(local, *atom))
}

/// Whether both locks are as a rule needs them, and the fields are as its guard wants them. Where they aren't, it can't
/// fire, whatever messages are there.
pub fn is_open(rule: &Rule, local: &Local) -> bool
    ensures { result ≡ is_open rule.now local.now }
{
    needs_hold(rule, local) && fields_hold(local, rule.guard.as_slice())
}

impl<'w> Glance<'w> {
    /// Whether there is what a firing of a rule with that take asks first, where it names no child.
    fn asks(&self, take: Take) -> bool
        ensures { result ≡ asks_alone self.now take }
    {
        let local = self.local;
        match take {
            Take::Me(id) => has_id(self.request, id),
            Take::Parent(id) => has_id(self.down, id),
            Take::Kids(_) => local.down.is_some(),
            Take::Nothing => !self.are_selfs_spent,
        }
    }

    /// Whether a rule that names no child has what it asks first, and its locks and fields are as it needs them.
    fn may_begin(&self, rule: &Rule) -> bool
        ensures { result ≡ (asks_alone self.now rule.now.take && is_open rule.now self.now.local) }
    {
        self.asks(rule.take) && is_open(rule, self.local)
    }
}

impl Walking {
    /// What is seen of an object on a line, where it is there.
    pub(crate) fn glance(
        &self,
        p: &Protocol,
        tree: &Tree,
        work: &Work,
        line: LineId,
        object: ObjectId,
    ) -> Option<Glance<'_>>
        requires counted { IsCounted p.now tree.now self.now.journal self.now.system self.now.selfs }
        requires there { IsThere tree.now self.now.system line.0 object.0 }
        ensures some { IfSome result (IsGlance p.now tree.now work.now.self_count self.now.journal self.now.system line.0 object.0) }
        ensures none { IfNone result (local_in self.now.system line.0 object.0 ≡ None) }
    {
        if object.0 as usize >= self.system.objects(line.0 as usize) {
            return None;
        }
        Some(Glance {
            local: self.system.local(line, object),
            request: self
                .system
                .list(line, object, Lane::Requests)
                .first()
                .copied(),
            down: self.system.list(line, object, Lane::Down).first().copied(),
            are_selfs_spent: self.are_selfs_spent(p, tree, work, line, object),
        })
    }

    /// Whether the first message of a list has the id.
    fn is_first(&self, line: LineId, object: ObjectId, lane: Lane, id: MsgId) -> bool
        requires { line.0 < length self.now.system }
        ensures { result ≡ is_first self.now.system line.0 object.0 lane id }
    {
        if (object.0 as usize) < self.system.objects(line.0 as usize) {
            has_id(self.system.list(line, object, lane).first().copied(), id)
        } else {
            false
        }
    }

    /// Whether the child that a firing names has sent what a rule with that take takes. It is cheap, and most rules fail it.
    fn asks_child(&self, firing: Firing, take: Take) -> bool
        requires { firing.line.0 < length self.now.system }
        ensures { result ≡ asks_child self.now.system firing.line.0 take firing.me }
    {
        match (take, firing.me) {
            (Take::Me(id), Some(child)) => self.is_first(firing.line, child, Lane::UpRequests, id),
            _ => false,
        }
    }

    /// Whether the child that a firing names has sent what the rule takes, and the rule's locks and fields are as it needs
    /// them.
    fn may_begin_with(&self, local: &Local, firing: Firing, rule: &Rule) -> bool
        requires { firing.line.0 < length self.now.system }
        ensures { result ≡ (asks_child self.now.system firing.line.0 rule.now.take firing.me && is_open rule.now local.now) }
    {
        self.asks_child(firing, rule.take) && is_open(rule, local)
    }

    /// Whether a firing of a rule that names a child is possible and not spent.
    pub(crate) fn is_ready_with(
        &self,
        p: &Protocol,
        tree: &Tree,
        work: &Work,
        glance: &Glance<'_>,
        firing: Firing,
        rule: &Rule,
    ) -> bool
        requires counted { IsCounted p.now tree.now self.now.journal self.now.system self.now.selfs }
        requires there { IsThere tree.now self.now.system firing.line.0 firing.object.0 }
        requires glance { IsGlance p.now tree.now work.now.self_count self.now.journal self.now.system firing.line.0 firing.object.0 glance.now }
        requires rule { IsRuleOf p.now tree.now firing.object.0 rule.now }
        requires firing { firing ≡ firing_of firing.line.0 firing.object.0 rule.now firing.me }
        requires child { IsSome firing.me }
        ensures { result ≡ is_ready p.now tree.now work.now.self_count self.now.journal self.now.system firing }
    {
        self.may_begin_with(glance.local, firing, rule) && self.is_ready(p, tree, work, firing)
    }

    /// Whether a firing of a rule that names no child is possible and not spent.
    pub(crate) fn is_ready_alone(
        &self,
        p: &Protocol,
        tree: &Tree,
        work: &Work,
        glance: &Glance<'_>,
        firing: Firing,
        rule: &Rule,
    ) -> bool
        requires counted { IsCounted p.now tree.now self.now.journal self.now.system self.now.selfs }
        requires there { IsThere tree.now self.now.system firing.line.0 firing.object.0 }
        requires glance { IsGlance p.now tree.now work.now.self_count self.now.journal self.now.system firing.line.0 firing.object.0 glance.now }
        requires rule { IsRuleOf p.now tree.now firing.object.0 rule.now }
        requires firing { firing ≡ firing_of firing.line.0 firing.object.0 rule.now None }
        ensures { result ≡ is_ready p.now tree.now work.now.self_count self.now.journal self.now.system firing }
    {
        glance.may_begin(rule) && self.is_ready(p, tree, work, firing)
    }
}
