//! The links between transactions next to each other at an object, as tables.

ghost use Rattle.std.specs.Prelude.{◌≡◌, ◌≢◌, ℕ, ◌+◌, ◌<◌, ◌≤◌, List, [], ◌∷◌, ◌++◌, length, slice_get, Some, slice_index, slice_index_or, slice_set, IfOk, OnOk, IfSome};
ghost use Rattle.hem_regroup.specs.declared.member.Member.{Member as Rowed};
ghost use Rattle.hem_regroup.specs.Members.{IsBelow};
ghost use Rattle.hem_regroup.specs.Links.{Link, links, backwards};
ghost use Rattle.hem_regroup.specs.Graph.{AreTables, joined, members_before, IsBuilt};

use crate::last::LastNumbers;
use crate::lists::{append, empty_lists};
use crate::member::Member;
use hem_base::{List, OutOfMemory};
use std::alloc::Global;

/// Where the links lead from each transaction, and how many lead to each.
#[derive(Drop)]
pub(crate) struct Graph {
    pub(crate) nexts: List<List<usize>>,
    pub(crate) counts: Vec<usize>,
}

impl Graph {
    /// No links, between so many transactions.
    fn new(alloc: Global, count: usize) -> Result<Graph, OutOfMemory>
        ensures { IfOk result (λ graph. AreTables count [] graph.nexts graph.counts.items) }
    {
        let nexts = empty_lists(alloc, count)?;
        let counts = vec![in alloc; 0; count]?;
        Ok(Graph { nexts, counts })
    }

    /// Counts one link more to a transaction.
    fn count(&mut self, to: usize)
        requires to { to < length self.old.counts.items }
        requires room { slice_index self.old.counts.items to < usize.MAX }
        ensures counts { self.new.counts.items ≡ slice_set self.old.counts.items to (slice_index self.old.counts.items to + 1) }
        ensures same { self.new.nexts ≡ self.old.nexts }
    {
        self.counts[to] += 1;
    }

    /// Adds a link.
    fn link(&mut self, from: usize, to: usize) -> Result<(), OutOfMemory>
        requires from { from < length self.old.nexts }
        requires to { to < length self.old.counts.items }
        requires room { slice_index self.old.counts.items to < usize.MAX }
        ensures { OnOk result ((count : ℕ) (ls : List Link) → AreTables count ls self.old.nexts self.old.counts.items → AreTables count (ls ++ record { from = from; to = to } ∷ []) self.new.nexts self.new.counts.items) }
    {
        append(&mut self.nexts, from, to)?;
        self.count(to);
        Ok(())
    }

    /// Adds the link to a transaction from the last one at the object, where that is another.
    fn join(&mut self, last: Option<usize>, to: usize) -> Result<(), OutOfMemory>
        requires from { IfSome last (λ from. from < length self.old.nexts) }
        requires to { to < length self.old.counts.items }
        requires room { slice_index self.old.counts.items to < usize.MAX }
        ensures { OnOk result ((count : ℕ) (ls : List Link) → AreTables count ls self.old.nexts self.old.counts.items → AreTables count (ls ++ joined last to) self.new.nexts self.new.counts.items) }
    {
        match last {
            None => Ok(()),
            Some(from) => {
                if from == to {
                    Ok(())
                } else {
                    self.link(from, to)
                }
            }
        }
    }

    /// Adds the link to the member at a place from the last member at its object.
    fn add(
        &mut self,
        alloc: Global,
        last: &mut LastNumbers,
        members: &[Member],
        place: usize,
    ) -> Result<(), OutOfMemory>
        requires within { place < length members.now }
        requires small { place < usize.MAX }
        requires below { IsBelow (length self.old.nexts) members.now }
        requires built { IsBuilt (length self.old.nexts) (members_before place members.now) self.old.nexts self.old.counts.items last.old }
        ensures { OnOk result (IsBuilt (length self.old.nexts) (members_before (place + 1) members.now) self.new.nexts self.new.counts.items last.new) }
    {
        let member = members[place];
        let from = last.replace(alloc, member)?;
        self.join(from, member.number)
    }

    /// The links of members of so many transactions.
    pub(crate) fn of(alloc: Global, count: usize, members: &[Member]) -> Result<Graph, OutOfMemory>
        requires { IsBelow count members.now }
        ensures { IfOk result (λ graph. AreTables count (links (backwards [] members.now)) graph.nexts graph.counts.items) }
    {
        let mut last = LastNumbers::new(alloc);
        let mut graph = Graph::new(alloc, count)?;
        for place in 0..members.len() {
            graph.add(alloc, &mut last, members, place)?;
        }
        Ok(graph)
    }
}
