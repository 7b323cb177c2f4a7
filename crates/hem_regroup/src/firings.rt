//! The firings of a history with the numbers of their transactions.

ghost use Rattle.std.specs.Prelude.{◌≡◌, ◌<◌, length, slice_get, Some, IfOk};
ghost use Rattle.hem_trace.specs.Blocks.{Each};
ghost use Rattle.hem_syntax.specs.Protocol.{Protocol as Described};
ghost use Rattle.hem_regroup.specs.Numbering.{AreUpward, numbered_at, numbered_by};

use crate::numbered::Numbered;
use crate::upward::UpwardRules;
use hem_base::{Firing, OutOfMemory};
use hem_syntax::Protocol;
use hem_tree::Tree;
use std::alloc::Global;
use std::marker::Model;

/// The firings of a history with the numbers of their transactions. What is told of a firing is worked out where it is
/// read, so that no list of it stands in memory.
#[derive(Drop)]
pub(crate) struct Firings<'a> {
    protocol: &'a Protocol,
    tree: &'a Tree,
    history: &'a [Firing],
    numbers: &'a [usize],
    upward: UpwardRules,
}

impl<'a> Model for Firings<'a> {
    ghost use Rattle.std.specs.Prelude.{◌≡◌, ◌<◌, List, length};
    ghost use Rattle.hem_trace.specs.Blocks.{Each};
    ghost use Rattle.hem_regroup.specs.declared.numbered.Numbered.{Numbered as Seen};
    ghost use Rattle.hem_regroup.specs.Numbering.{AreUpward, numbered_by};

    ghost Value = { List Seen };

    ghost view = { λ all. numbered_by all.protocol.now all.tree.now all.history.now all.numbers.now };

    ghost invariant = { λ all. AreUpward all.protocol.now all.upward × Each (λ f. f.object.0 < length all.tree.now) all.history.now × (length all.numbers.now ≡ length all.history.now) };
}

/// A firing with the number of its transaction.
fn with_number(upward: &UpwardRules, tree: &Tree, firing: Firing, number: usize) -> Numbered
    requires { firing.object.0 < length tree.now }
    ensures { (p : Described) → AreUpward p upward.now → result ≡ numbered_at p tree.now firing number }
{
    Numbered {
        number,
        firing,
        level: tree.depth(firing.object),
        upward: upward.has(tree.kind(firing.object), firing.rule),
    }
}

impl<'a> Firings<'a> {
    /// The firings of a history that have these numbers.
    pub(crate) fn of(
        alloc: Global,
        protocol: &'a Protocol,
        tree: &'a Tree,
        history: &'a [Firing],
        numbers: &'a [usize],
    ) -> Result<Firings<'a>, OutOfMemory>
        requires inside { Each (λ f. f.object.0 < length tree.now) history.now }
        requires one_each { length numbers.now ≡ length history.now }
        ensures { IfOk result (λ all. all ≡ numbered_by protocol.now tree.now history.now numbers.now) }
    {
        let upward = UpwardRules::of(alloc, protocol)?;
        Ok(Firings {
            protocol,
            tree,
            history,
            numbers,
            upward,
        })
    }

    /// How many there are.
    pub(crate) fn len(&self) -> usize
        ensures { result ≡ length self.now }
    {
        self.history.len()
    }

    /// The firing at a place, with its number.
    pub(crate) fn at(&self, place: usize) -> Numbered
        requires { place < length self.now }
        ensures { slice_get self.now place ≡ Some result }
    {
        with_number(
            &self.upward,
            self.tree,
            self.history[place],
            self.numbers[place],
        )
    }
}
