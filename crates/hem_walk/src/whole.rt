//! The whole walk.

ghost use Rattle.std.specs.Prelude.{◌≡◌, ◌≤◌, ◌+◌, ◌*◌, length, IfOk};
ghost use Rattle.hem_check.specs.Discipline.{IsDisciplined};
ghost use Rattle.hem_system.specs.Ended.{Within, Ended};
ghost use Rattle.hem_bound.specs.Starts.{requests_in};
ghost use Rattle.hem_walk.specs.Walk.{IsWalk};

use crate::marks::Marks;
use crate::working::Walking;
use hem_base::{Firing, List, OutOfMemory};
use hem_check::Accepted;
use hem_syntax::Protocol;
use hem_system::System;
use hem_tree::Tree;
use hem_work::Work;
use std::alloc::Global;

/// A walk: its firings in order, and the state to which they lead.
#[derive(Drop)]
pub struct Walked {
    pub journal: List<Firing>,
    pub system: System,
}

/// Turns until there is no next firing.
fn whole_walk(
    alloc: Global,
    p: &Protocol,
    tree: &Tree,
    work: &Work,
    seed: u64,
) -> Result<Walked, OutOfMemory>
    requires { IsDisciplined p.now }
    ensures walk { IfOk result (λ w. IsWalk p.now tree.now work.now seed w.journal w.system) }
    ensures within { IfOk result (λ w. Within p.now tree.now w.journal work.now.self_count) }
    ensures ended { IfOk result (λ w. Ended p.now tree.now w.journal w.system work.now.self_count) }
    ensures few { IfOk result (λ w. length w.journal ≤ 3 * length tree.now * (requests_in tree.now work.now + work.now.lines * (length tree.now * work.now.self_count))) }
{
    // That the tree is a tree.
    let _objects = tree.objects();
    let mut walking = Walking::start(alloc, p, tree, work, seed)?;
    let mut marks = Marks::all(alloc, walking.positions(tree))?;
    while walking.turn(p, tree, work, &mut marks)? {}
    let Walking {
        system,
        journal,
        selfs: _,
        generator: _,
    } = walking;
    Ok(Walked { journal, system })
}

/// One thread to the end. Each turn draws a number from the generator, which a seed starts. The positions are line times
/// objects plus object. From the draw modulo their number on, and round, it goes to the first position where a firing is
/// possible and not spent: a firing of a rule that takes nothing is spent where its object has made as many on its line as
/// the work allows. There it fires the first such rule in text order, with the least child. It ends where no position has
/// one.
pub fn walk(
    alloc: Global,
    a: &Accepted,
    tree: &Tree,
    work: &Work,
    seed: u64,
) -> Result<Walked, OutOfMemory>
    ensures walk { IfOk result (λ w. IsWalk a.now tree.now work.now seed w.journal w.system) }
    ensures within { IfOk result (λ w. Within a.now tree.now w.journal work.now.self_count) }
    ensures ended { IfOk result (λ w. Ended a.now tree.now w.journal w.system work.now.self_count) }
    ensures few { IfOk result (λ w. length w.journal ≤ 3 * length tree.now * (requests_in tree.now work.now + work.now.lines * (length tree.now * work.now.self_count))) }
{
    whole_walk(alloc, a.protocol(), tree, work, seed)
}
