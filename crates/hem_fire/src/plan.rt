//! One firing at one object: whether a rule can fire gives a plan, and the plan is then carried out.

ghost use Rattle.std.specs.Prelude.{◌≡◌, ◌&&◌, ℕ, Option, is_some, IsTrue};
ghost use Rattle.std.specs.List.{list_all};
ghost use Rattle.std.specs.Option.{option_map_or};
ghost use Rattle.hem_base.specs.declared.ids.Kind.{Kind};
ghost use Rattle.hem_object.specs.Local.{Local};
ghost use Rattle.hem_object.specs.Guard.{holds};
ghost use Rattle.hem_object.specs.Changes.{assign_names, freed, locked};
ghost use Rattle.hem_object.specs.Targets.{targets_of};
ghost use Rattle.hem_fire.specs.Heads.{Heads};
ghost use Rattle.hem_fire.specs.View.{view_of};
ghost use Rattle.hem_fire.specs.Locks.{lock_names};
ghost use Rattle.hem_fire.specs.Sends.{message_of};
ghost use Rattle.hem_fire.specs.OneFire.{me_fits, can_begin, can_fire, outs_of};

use crate::heads::Heads;
use crate::locks::{lock_names, lock_taken, needs_hold, request_in_hand};
use crate::outs::Outs;
use crate::sends::{goes_to, message_of, send_names};
use crate::view::view_of;
use hem_base::{KidSet, Kind, Message, MsgId};
use hem_object::{Local, Lock, View};
use hem_syntax::{Protocol, Rule, Side, Take};

/// Whether the child fits the rule: it is named exactly where the rule takes from a child.
fn me_fits(kind: Kind, take: Take, me: Option<u8>, children: usize) -> bool
    ensures { result ≡ me_fits kind take me children }
{
    match (kind, take, me) {
        (Kind::Root | Kind::Mid, Take::Me(_), Some(kid)) => usize::from(kid) < children,
        (Kind::Root | Kind::Mid, Take::Me(_), None) => false,
        _ => me.is_none(),
    }
}

/// Whether the child fits, what the rule takes is there, and both locks are as the rule needs them.
fn can_begin(kind: Kind, rule: &Rule, me: Option<u8>, local: &Local, heads: &Heads) -> bool
    ensures { result ≡ can_begin kind rule.now me local.now heads.now }
{
    me_fits(kind, rule.take, me, local.dir.len())
        && heads.takes_there(rule.take, local)
        && needs_hold(rule, local)
}

/// Whether everything that the rule's sets and its lock name exists, and its guard holds.
fn can_change(rule: &Rule, local: &Local, view: &View, request: Option<Message>) -> bool
    ensures { result ≡ (list_all (assign_names local.now view.now) rule.now.sets && lock_names rule.now.lock view.now request && holds rule.now.guard local.now view.now) }
{
    local.all_names_exist(rule.sets.as_slice(), view)
        && lock_names(rule.lock, view, request)
        && local.holds(rule.guard.as_slice(), view)
}

/// What a firing takes and sends, of what its rule names, the message that it sends and the children that it reaches.
fn outs_with(
    p: &Protocol,
    rule: &Rule,
    view: &View,
    message: Option<Message>,
    targets: KidSet,
) -> Outs
    ensures { (kind : Kind) (me : Option ℕ) (local : Local) (heads : Heads) → view.now ≡ view_of rule.now.take me local heads → message ≡ message_of rule.now.send local view.now → targets ≡ targets_of rule.now.send local view.now → result ≡ outs_of p.now kind rule.now me local heads }
{
    Outs {
        taken_request: matches!(rule.take, Take::Me(_)),
        taken_parent: matches!(rule.take, Take::Parent(_)),
        taken_kids: view.awaited,
        to: goes_to(p, rule.send, view, targets),
        message: message.unwrap_or(Message {
            id: MsgId(0),
            value: 0,
        }),
    }
}

/// Frees the lock that a rule names, if it names one.
fn free_named(local: &mut Local, side: Option<Side>)
    ensures { local.new ≡ freed side local.old }
{
    if let Some(side) = side {
        local.free(side);
    }
}

/// Takes the lock that a firing takes, if it takes one.
fn lock_named(local: &mut Local, lock: Option<(Side, Lock)>)
    ensures { local.new ≡ option_map_or (λ l. locked l.0 l.1 local.old) lock local.old }
{
    if let Some((side, lock)) = lock {
        local.lock(side, lock);
    }
}

/// The plan of a firing of a rule that can fire: what the rule names, the lock that the firing takes, and what it takes
/// and sends. All of it reads the local state before the firing.
#[derive(Clone, Copy, Debug, PartialEq, Eq)]
pub struct Plan {
    /// What the rule names.
    pub view: View,
    /// The lock that the firing takes, with its side, where it takes one.
    pub lock: Option<(Side, Lock)>,
    /// What the firing takes and sends.
    pub outs: Outs,
}

impl Plan {
    ghost use Rattle.hem_fire.specs.Plans.{plan_of, left_by};

    /// The plan of the rule at an object of the kind with this local state and these heads, where the rule can fire.
    /// `me` is the place of the child from which the rule takes, and `None` on a leaf or where the rule takes otherwise.
    ///
    /// The rule can fire exactly where the child fits, the messages that it takes are there, both locks are as it needs
    /// them, everything that it names exists, its guard holds, and a send to children reaches one at least.
    #[inline(always)]
    pub fn of(
        p: &Protocol,
        kind: Kind,
        rule: &Rule,
        me: Option<u8>,
        local: &Local,
        heads: &Heads,
    ) -> Option<Plan>
        ensures { result ≡ plan_of p.now kind rule.now me local.now heads.now }
    {
        if !can_begin(kind, rule, me, local, heads) {
            return None;
        }
        let view = view_of(rule.take, me, local, heads);
        let message = message_of(rule.send, local, &view);
        let targets = local.targets(&rule.send, &view);
        let request = request_in_hand(p, rule.take, &view, heads, message);
        if !can_change(rule, local, &view, request) {
            return None;
        }
        if !send_names(kind, rule.send, &view, message, targets) {
            return None;
        }
        let lock = lock_taken(rule.lock, &view, request, targets);
        let outs = outs_with(p, rule, &view, message, targets);
        Some(Plan { view, lock, outs })
    }

    /// Carries the plan out: makes the rule's sets, then frees a lock, then takes one, and tells what the firing takes
    /// and sends.
    pub fn fire(self, rule: &Rule, local: &mut Local) -> Outs
        requires { IsTrue (list_all (assign_names local.old self.view) rule.now.sets) }
        ensures left { local.new ≡ left_by self rule.now local.old }
        ensures gives { result ≡ self.outs }
    {
        local.assign(rule.sets.as_slice(), &self.view);
        free_named(local, rule.free);
        lock_named(local, self.lock);
        self.outs
    }
}

/// Whether the rule can fire at an object of the kind with this local state and these heads.
pub fn can(
    p: &Protocol,
    kind: Kind,
    rule: &Rule,
    me: Option<u8>,
    local: &Local,
    heads: &Heads,
) -> bool
    ensures { result ≡ can_fire p.now kind rule.now me local.now heads.now }
{
    Plan::of(p, kind, rule, me, local, heads).is_some()
}
