//! A crew in which nothing is possible is at an end. Each function does nothing, and its contract is a law.
#![tactic(auto)]

ghost use Rattle.std.specs.Prelude.{◌<◌, ℕ, false, List};
ghost use Rattle.hem_base.specs.declared.ids.Firing.{Firing};
ghost use Rattle.hem_syntax.specs.Protocol.{Protocol};
ghost use Rattle.hem_syntax.specs.Lawful.{IsProtocol};
ghost use Rattle.hem_check.specs.Discipline.{IsDisciplined};
ghost use Rattle.hem_tree.specs.Tree.{Tree, IsLawful};
ghost use Rattle.hem_work.specs.Work.{Work};
ghost use Rattle.hem_work.specs.Lawful.{IsLawfulWork};
ghost use Rattle.hem_system.specs.State.{Runs, start};
ghost use Rattle.hem_system.specs.Ended.{Ended};
ghost use Rattle.hem_worker.specs.Workers.{Worker};
ghost use Rattle.hem_merge.specs.Journals.{IsMerged};
ghost use Rattle.hem_crew.specs.Crew.{IsCrew, journals_of};
ghost use Rattle.hem_crew.specs.Knowing.{KnowAll, OnEdges};
ghost use Rattle.hem_crew.specs.Rounds.{IsRoundOfAll, AreAllSettled};
ghost use Rattle.hem_crew.specs.Held.{held};

/// Where the ends of each channel of more than two slots know all, then comes a round in which no worker fires, and then
/// all edges are settled, the crew held an end after that round: only self firings are possible in it, at objects and lines
/// that have made all of theirs.
pub fn idle_crews_are_at_an_end()
    ensures { (p : Protocol) (tree : Tree) (work : Work) (slots : ℕ) (known idle settled : List Worker) (h : List Firing) → IsProtocol p → IsDisciplined p → IsLawful tree → IsLawfulWork p tree work → 2 < slots → IsCrew p tree (start p tree work) work.self_count slots known → OnEdges tree known KnowAll → IsRoundOfAll p false known idle → AreAllSettled p tree idle settled → IsMerged (journals_of work.lines settled) h → Runs p tree (start p tree work) h (held tree idle (start p tree work)) → Ended p tree h (held tree idle (start p tree work)) work.self_count }
{}
