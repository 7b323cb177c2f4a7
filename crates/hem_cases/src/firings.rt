//! Single firings: each part of a rule at a mid, and what differs at a root and at a leaf.

mod leaf;
mod mid;
mod root;
mod rules;
mod scene;

use self::rules::{END, HEAD, LEAF, MID, RULES};
use self::scene::{Change, Fires, I, M, S, Scene, Stays};
use crate::reading::protocol_of;
use arrayvec::ArrayVec;
use hem_base::{Kind, Message, RuleId, Status8};
use hem_fire::{Heads, Outs, Plan, can};
use hem_object::Local;
use hem_syntax::{Protocol, Rule};
use std::alloc::Global;
use std::test::Fail;

/// The protocol whose rules are fired.
fn protocol(alloc: Global) -> Result<Protocol, Fail> {
    let mut text = Vec::new(alloc);
    for piece in [HEAD, RULES, MID, RULES, LEAF, RULES, END] {
        text.extend_from_slice(piece.as_bytes())?;
    }
    protocol_of(alloc, &text)
}

/// The rule of that name.
fn rule_of<'a>(p: &'a Protocol, kind: Kind, name: &str) -> Result<&'a Rule, Fail> {
    let place = p.rule_names().place(name.as_bytes()).ok_or("no such name")?;
    let id = u32::try_from(place)?;
    Ok(p.rule(kind, RuleId(id)).ok_or("no such rule")?)
}

/// What an object holds.
fn local_of(scene: &Scene) -> Result<Local, Fail> {
    let mut fields = ArrayVec::<Status8, 3>::new();
    fields.try_extend_from_slice([scene.field].as_slice())?;
    let mut dir = ArrayVec::<Status8, 8>::new();
    dir.try_extend_from_slice(scene.dir)?;
    Ok(Local {
        fields,
        dir,
        val: 7,
        up: scene.up,
        down: scene.down,
    })
}

fn heads_of(scene: &Scene) -> Heads {
    let mut kids = ArrayVec::<Option<Message>, 8>::new();
    for head in scene.kids {
        if kids.len() < 8 {
            kids.push(*head);
        }
    }
    Heads {
        request: scene.request,
        parent: scene.parent,
        kids,
    }
}

fn make(local: &mut Local, change: Change) {
    match change {
        Change::Field(status) => {
            local.fields.clear();
            local.fields.push(status);
        }
        Change::Value(value) => local.val = value,
        Change::Entry(place, status) => {
            if place < local.dir.len() {
                local.dir[place] = status;
            }
        }
        Change::Up(lock) => local.up = lock,
        Change::Down(lock) => local.down = lock,
    }
}

/// What the object is to hold after the firing.
fn left_of(row: &Fires) -> Result<Local, Fail> {
    let mut local = local_of(&row.scene)?;
    for change in row.changes {
        make(&mut local, *change);
    }
    Ok(local)
}

/// What the firing is to take and to send.
fn outs_of(row: &Fires) -> Outs {
    Outs {
        taken_request: row.taken.request,
        taken_parent: row.taken.parent,
        taken_kids: row.taken.kids,
        to: row.to,
        message: row.message,
    }
}

/// Whether an object holds what it is to hold.
fn is_left(local: &Local, want: &Local) -> bool {
    local.fields.as_slice() == want.fields.as_slice()
        && local.dir.as_slice() == want.dir.as_slice()
        && local.val == want.val
        && local.up == want.up
        && local.down == want.down
}

/// Carries the plan of a rule out, and tells what the firing takes and sends; nothing where the rule can't fire.
fn fired(
    p: &Protocol,
    kind: Kind,
    rule: &Rule,
    child: Option<u8>,
    local: &mut Local,
    heads: &Heads,
) -> Option<Outs> {
    let plan = Plan::of(p, kind, rule, child, local, heads)?;
    Some(plan.fire(rule, local))
}

/// Makes the firing of a row; the rule's name tells which row differs.
fn fires(p: &Protocol, kind: Kind, row: &Fires) -> Result<(), Fail> {
    let rule = rule_of(p, kind, row.rule)?;
    let heads = heads_of(&row.scene);
    let mut local = local_of(&row.scene)?;
    let outs = fired(p, kind, rule, row.child, &mut local, &heads);
    if outs != Some(outs_of(row)) || !is_left(&local, &left_of(row)?) {
        return Err(row.rule)?;
    }
    Ok(())
}

/// Tries that the rule of a row isn't possible; its name tells which row differs.
fn stays(p: &Protocol, kind: Kind, row: &Stays) -> Result<(), Fail> {
    let rule = rule_of(p, kind, row.rule)?;
    let heads = heads_of(&row.scene);
    let local = local_of(&row.scene)?;
    if can(p, kind, rule, row.child, &local, &heads) {
        return Err(row.rule)?;
    }
    Ok(())
}

fn possible(kind: Kind) -> &'static [Fires] {
    match kind {
        Kind::Root => &root::FIRES,
        Kind::Mid => &mid::FIRES,
        Kind::Leaf => &leaf::FIRES,
    }
}

fn impossible(kind: Kind) -> &'static [Stays] {
    match kind {
        Kind::Root => &root::STAYS,
        Kind::Mid => &mid::STAYS,
        Kind::Leaf => &leaf::STAYS,
    }
}

#[test]
fn firings_of_each_part(rt: HostRuntime) -> Result<(), Fail> {
    let p = protocol(rt.alloc())?;
    for kind in [Kind::Root, Kind::Mid, Kind::Leaf] {
        for row in possible(kind) {
            fires(&p, kind, row)?;
        }
        for row in impossible(kind) {
            stays(&p, kind, row)?;
        }
    }
    Ok(())
}

/// Each kind with a number of children, and what its field and its directory hold at the start.
pub static STARTS: [(Kind, u8, Status8, &[Status8]); 4] = [
    (Kind::Root, 3, S, &[M, M, M]),
    (Kind::Mid, 1, S, &[I]),
    (Kind::Mid, 8, S, &[I, I, I, I, I, I, I, I]),
    (Kind::Leaf, 0, I, &[]),
];

fn starts() -> &'static [(Kind, u8, Status8, &'static [Status8])] {
    &STARTS
}

/// Whether an object of a kind with so many children starts as it is to.
fn starts_as(p: &Protocol, kind: Kind, children: u8, field: &[Status8], dir: &[Status8]) -> bool {
    if children > 8 {
        return false;
    }
    let local = Local::start(p, kind, children);
    local.fields.as_slice() == field
        && local.dir.as_slice() == dir
        && local.val == 0
        && local.up.is_none()
        && local.down.is_none()
}

#[test]
fn starts_of_each_kind(rt: HostRuntime) -> Result<(), Fail> {
    let p = protocol(rt.alloc())?;
    for (kind, children, field, dir) in starts() {
        assert!(rt; starts_as(&p, *kind, *children, [*field].as_slice(), dir));
    }
    Ok(())
}
