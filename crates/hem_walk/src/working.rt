//! A walk on its way.

ghost use Rattle.std.specs.Prelude.{◌≡◌, ◌<◌, ◌^◌, length};
ghost use Rattle.hem_system.specs.Ended.{takes_nothing, is_self};
ghost use Rattle.hem_walk.specs.Walk.{positions, position};

use hem_base::{Firing, LineId, List, ObjectId};
use hem_syntax::{Protocol, Take};
use hem_system::System;
use hem_tree::Tree;
use hem_work::Generator;
use std::marker::Model;

/// A walk on its way: the firings so far, the state to which they lead, how many self firings were made at each position,
/// and the generator.
#[derive(Drop)]
pub(crate) struct Walking {
    pub(crate) system: System,
    pub(crate) journal: List<Firing>,
    pub(crate) selfs: Vec<u32>,
    pub(crate) generator: Generator,
}

impl Model for Walking {
    ghost use Rattle.hem_walk.specs.Working.{Walking as Seen};

    ghost Value = { Seen };

    ghost view = { λ w. record { system = w.system; journal = w.journal; selfs = w.selfs.items; number = w.generator } };
}

fn takes_nothing(take: Take) -> bool
    ensures { result ≡ takes_nothing take }
{
    match take {
        Take::Nothing => true,
        Take::Me(_) | Take::Parent(_) | Take::Kids(_) => false,
    }
}

/// Whether a firing is of a rule that takes nothing.
pub(crate) fn is_self(p: &Protocol, tree: &Tree, firing: Firing) -> bool
    requires { firing.object.0 < length tree.now }
    ensures { result ≡ is_self p.now tree.now firing }
{
    match p.rule(tree.kind(firing.object), firing.rule) {
        Some(rule) => takes_nothing(rule.take),
        None => false,
    }
}

/// The position of an object on a line.
pub(crate) fn position(tree: &Tree, line: LineId, object: ObjectId) -> usize
    requires { object.0 < length tree.now }
    ensures { result ≡ position tree.now line.0 object.0 }
{
    line.0 as usize * tree.objects() as usize + object.0 as usize
}

impl Walking {
    /// How many positions there are.
    pub(crate) fn positions(&self, tree: &Tree) -> usize
        requires { length self.now.system < 2 ^ 32 }
        ensures { result ≡ positions tree.now self.now.system }
    {
        self.system.lines() * tree.objects() as usize
    }
}
