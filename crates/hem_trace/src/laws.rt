//! Laws of numbers, each the contract of a function that does nothing.

ghost use Rattle.std.specs.Prelude.{◌≡◌, ℕ, List};
ghost use Rattle.hem_base.specs.declared.ids.Firing.{Firing};
ghost use Rattle.hem_syntax.specs.Protocol.{Protocol};
ghost use Rattle.hem_tree.specs.Tree.{Tree};
ghost use Rattle.hem_work.specs.Work.{Work};
ghost use Rattle.hem_system.specs.State.{State, Runs, start};
ghost use Rattle.hem_system.specs.Events.{Event};
ghost use Rattle.hem_trace.specs.History.{events};
ghost use Rattle.hem_trace.specs.Tags.{numbers_of};
ghost use Rattle.hem_trace.specs.Laws.{ChannelsAreEmpty, AreNumbersBySenders};

/// The numbers that go along with the messages are those by senders, from each state in which no channel has a message, as
/// the state at the start; and there is one list of numbers by senders.
pub fn numbers_are_those_of_senders()
    ensures are { (p : Protocol) (tree : Tree) (s now : State) (h : List Firing) → ChannelsAreEmpty s → Runs p tree s h now → AreNumbersBySenders tree (events p tree s h) (numbers_of tree (events p tree s h)) }
    ensures start { (p : Protocol) (tree : Tree) (work : Work) → ChannelsAreEmpty (start p tree work) }
    ensures once { (tree : Tree) (es : List Event) (one other : List ℕ) → AreNumbersBySenders tree es one → AreNumbersBySenders tree es other → one ≡ other }
{}
