//! Making a firing on a line.

ghost use Rattle.std.specs.Prelude.{◌≡◌, ◌≢◌, ◌<◌, ℕ, length, slice_get, Some, None, Err, IsTrue, is_ok, OnOk, OnErr, IfOk, ◌↔◌};
ghost use Rattle.std.specs.List.{list_all};
ghost use Rattle.hem_object.specs.Changes.{assign_names};
ghost use Rattle.hem_tree.specs.Tree.{is_child};
ghost use Rattle.hem_system.specs.declared.cell.Cell.{Cell as Kept};
ghost use Rattle.hem_system.specs.State.{map_each, effect_of};
ghost use Rattle.hem_system.specs.Cells.{line_of};
ghost use Rattle.hem_system.specs.Lists.{reaches_at, changed_at, lists_after, below_after, change_one, HasRoom, HaveRoom, HaveRoomBelow};
ghost use Rattle.hem_system.specs.Steps.{IsRoomMade, IsChanged, IsFired, LineFires, IsStepped};

use crate::cell::Cell;
use crate::children::children_of;
use crate::event::Event;
use crate::fault::StepFault;
use crate::lists::{Stand, is_changed, meets_below, sends_below};
use crate::possible::{Enabled, enable};
use hem_base::{Firing, List, OutOfMemory};
use hem_fire::{Outs, Plan, To};
use hem_syntax::{Protocol, Rule};
use hem_tree::Tree;

/// Makes room in the list of one object that a firing reaches.
#[inline(always)]
fn make_room_at(cells: &mut List<Cell>, object: usize, to: To, at: Stand) -> Result<(), OutOfMemory>
    requires { object < length cells.old }
    ensures { IsRoomMade to at object cells.old cells.new (is_ok result) }
{
    let cell = cells.at_mut(object);
    cell.make_room(to, at)
}

/// The same of an object that may not be there.
#[inline(always)]
fn make_room_if_there(
    cells: &mut List<Cell>,
    object: usize,
    to: To,
    at: Stand,
) -> Result<(), OutOfMemory>
    ensures same { line_of cells.new ≡ line_of cells.old }
    ensures others { (k : ℕ) → k ≢ object → slice_get cells.new k ≡ slice_get cells.old k }
    ensures room { OnOk result ((cell : Kept) → slice_get cells.new object ≡ Some cell → HasRoom (reaches_at to at) cell) }
{
    if object < cells.len() {
        make_room_at(cells, object, to, at)
    } else {
        Ok(())
    }
}

/// Makes room in the lists of the children of the object that fires, where it sends down. Where that takes too much
/// memory no list changes.
fn make_room_below(
    cells: &mut List<Cell>,
    tree: &Tree,
    firing: Firing,
    to: To,
) -> Result<(), OutOfMemory>
    requires { firing.object.0 < length tree.now }
    ensures same { line_of cells.new ≡ line_of cells.old }
    ensures room { OnOk result (HaveRoomBelow tree.now firing to cells.new) }
{
    let children = children_of(tree, firing.object);
    if !sends_below(to) {
        return Ok(());
    }
    for (place, child) in children.iter().enumerate() {
        let object = child.0 as usize;
        make_room_if_there(cells, object, to, Stand::Child { object, place })?;
    }
    Ok(())
}

/// Makes room in all lists that a firing reaches: those of its object and of the object's children. Where that takes too
/// much memory no list changes.
fn make_room(cells: &mut List<Cell>, tree: &Tree, firing: Firing, to: To) -> Result<(), OutOfMemory>
    requires { firing.object.0 < length tree.now }
    ensures same { line_of cells.new ≡ line_of cells.old }
    ensures room { OnOk result (HaveRoom tree.now firing to cells.new) }
{
    // That the tree is lawful: no object is its own child.
    let _objects = tree.objects();
    make_room_below(cells, tree, firing, to)?;
    make_room_if_there(cells, firing.object.0 as usize, to, Stand::Own)
}

/// Takes and appends the messages of one object.
#[inline(always)]
fn change_at(cells: &mut List<Cell>, object: usize, firing: Firing, outs: &Outs, at: Stand)
    requires there { object < length cells.old }
    requires room { (cell : Kept) → slice_get cells.old object ≡ Some cell → HasRoom (reaches_at outs.now.to at) cell }
    ensures { IsChanged firing outs.now at object cells.old cells.new }
{
    let cell = cells.at_mut(object);
    cell.change(firing, outs, at);
}

/// The same of an object that may not be there.
#[inline(always)]
fn change_if_there(cells: &mut List<Cell>, object: usize, firing: Firing, outs: &Outs, at: Stand)
    requires { (cell : Kept) → slice_get cells.old object ≡ Some cell → HasRoom (reaches_at outs.now.to at) cell }
    ensures changed { line_of cells.new ≡ change_one object (changed_at firing outs.now at) (line_of cells.old) }
    ensures others { (k : ℕ) → k ≢ object → slice_get cells.new k ≡ slice_get cells.old k }
{
    if object < cells.len() && is_changed(firing, outs, at) {
        change_at(cells, object, firing, outs, at);
    }
}

/// Takes and appends the messages of the children of the object that fires, where it takes from one or sends to one.
fn change_below(cells: &mut List<Cell>, tree: &Tree, firing: Firing, outs: &Outs)
    requires object { firing.object.0 < length tree.now }
    requires room { HaveRoomBelow tree.now firing outs.now.to cells.old }
    ensures { line_of cells.new ≡ map_each (below_after tree.now firing outs.now) 0 (line_of cells.old) }
{
    let children = children_of(tree, firing.object);
    if !meets_below(firing, outs) {
        return;
    }
    for (place, child) in children.iter().enumerate() {
        let object = child.0 as usize;
        change_if_there(cells, object, firing, outs, Stand::Child { object, place });
    }
}

/// Takes and appends the messages of the object that fires and of its children: no other list changes.
fn change(cells: &mut List<Cell>, tree: &Tree, firing: Firing, outs: &Outs)
    requires object { firing.object.0 < length tree.now }
    requires room { HaveRoom tree.now firing outs.now.to cells.old }
    ensures { line_of cells.new ≡ map_each (lists_after tree.now firing outs.now) 0 (line_of cells.old) }
{
    // That the tree is lawful: no object is its own child.
    let _objects = tree.objects();
    change_if_there(cells, firing.object.0 as usize, firing, outs, Stand::Own);
    change_below(cells, tree, firing, outs);
}

/// Changes the local state of the object that fires, and tells what the firing takes and sends.
fn fire_at(cells: &mut List<Cell>, object: usize, rule: &Rule, plan: Plan) -> Outs
    requires there { object < length cells.old }
    requires names { (cell : Kept) → slice_get cells.old object ≡ Some cell → IsTrue (list_all (assign_names cell.local plan.view) rule.now.sets) }
    ensures fired { IsFired rule.now plan object cells.old cells.new }
    ensures gives { result ≡ plan.outs }
{
    let cell = cells.at_mut(object);
    plan.fire(rule, &mut cell.local)
}

/// Makes a firing on a line. Where it isn't possible, or memory runs out, no object changes.
fn step_on(
    cells: &mut List<Cell>,
    p: &Protocol,
    tree: &Tree,
    firing: Firing,
) -> Result<Event, StepFault>
    ensures ok { IfOk result (λ event. LineFires p.now tree.now (line_of cells.old) firing event (line_of cells.new)) }
    ensures refused { (result ≡ Err StepFault.NotEnabled) ↔ (effect_of p.now tree.now (line_of cells.old) firing ≡ None) }
    ensures err { OnErr result (line_of cells.new ≡ line_of cells.old) }
{
    let Some(enabled) = enable(cells.as_slice(), p, tree, firing) else {
        return Err(StepFault::NotEnabled);
    };
    let Enabled { rule, plan, took } = enabled;
    make_room(cells, tree, firing, plan.outs.to)?;
    let outs = fire_at(cells, firing.object.0 as usize, rule, plan);
    change(cells, tree, firing, &outs);
    Ok(Event { firing, took, outs })
}

/// Makes a firing on one of the lines.
pub(crate) fn step_line(
    lines: &mut List<List<Cell>>,
    line: usize,
    p: &Protocol,
    tree: &Tree,
    firing: Firing,
) -> Result<Event, StepFault>
    requires { line < length lines.old }
    ensures { IsStepped p.now tree.now firing line lines.old lines.new result }
{
    let cells = lines.at_mut(line);
    step_on(cells, p, tree, firing)
}
