//! A crew of workers, one for each object: their journals are a history. Each function does nothing, and its contract is a
//! law.
#![tactic(auto)]

ghost use Rattle.std.specs.Prelude.{◌≡◌, ◌≤◌, ◌*◌, ◌+◌, ℕ, Bool, List, length};
ghost use Rattle.hem_base.specs.declared.ids.Firing.{Firing};
ghost use Rattle.hem_syntax.specs.Protocol.{Protocol};
ghost use Rattle.hem_syntax.specs.Lawful.{IsProtocol};
ghost use Rattle.hem_rows.specs.Rows.{AllHaveTemplates};
ghost use Rattle.hem_tree.specs.Tree.{Tree, IsTree};
ghost use Rattle.hem_work.specs.Work.{Work};
ghost use Rattle.hem_system.specs.State.{State, Runs, start};
ghost use Rattle.hem_system.specs.Ended.{Within};
ghost use Rattle.hem_bound.specs.Starts.{requests_in};
ghost use Rattle.hem_worker.specs.Workers.{Worker};
ghost use Rattle.hem_merge.specs.Journals.{IsMerged};
ghost use Rattle.hem_crew.specs.Crew.{IsCrew, journals_of};
ghost use Rattle.hem_crew.specs.Knowing.{KnowAll, OnEdges};
ghost use Rattle.hem_crew.specs.Rounds.{IsRoundOfAll, AreAllSettled, all_journaled};
ghost use Rattle.hem_crew.specs.Held.{held};

/// A crew stays one through rounds and settles, and a settle leaves its journals as they are.
pub fn crews_stay()
    ensures rounds { (p : Protocol) (tree : Tree) (begun : State) (k slots : ℕ) (any : Bool) (old new : List Worker) → IsCrew p tree begun k slots old → IsRoundOfAll p any old new → IsCrew p tree begun k slots new }
    ensures settles { (p : Protocol) (tree : Tree) (begun : State) (k slots : ℕ) (old new : List Worker) → IsCrew p tree begun k slots old → AreAllSettled p tree old new → IsCrew p tree begun k slots new }
    ensures journals { (p : Protocol) (tree : Tree) (lines : ℕ) (old new : List Worker) → AreAllSettled p tree old new → journals_of lines new ≡ journals_of lines old }
{}

/// Where the ends of each channel know all that waits, the crew's journals, merged by stamp, line and object, are a
/// history from the start of the work to the state that the crew holds, within the bound on self firings.
pub fn crews_run()
    ensures runs { (p : Protocol) (tree : Tree) (work : Work) (slots : ℕ) (crew : List Worker) (h : List Firing) → IsTree tree → IsCrew p tree (start p tree work) work.self_count slots crew → OnEdges tree crew KnowAll → IsMerged (journals_of work.lines crew) h → Runs p tree (start p tree work) h (held tree crew (start p tree work)) }
    ensures within { (p : Protocol) (tree : Tree) (work : Work) (slots : ℕ) (crew : List Worker) (h : List Firing) → IsTree tree → IsCrew p tree (start p tree work) work.self_count slots crew → OnEdges tree crew KnowAll → IsMerged (journals_of work.lines crew) h → Within p tree h work.self_count }
{}

/// Then the journals of all workers have at most three firings for each object and each start.
pub fn crews_make_few_firings()
    ensures { (p : Protocol) (tree : Tree) (work : Work) (slots : ℕ) (crew : List Worker) → IsProtocol p → IsTree tree → AllHaveTemplates p → IsCrew p tree (start p tree work) work.self_count slots crew → OnEdges tree crew KnowAll → all_journaled crew ≤ 3 * length tree * (requests_in tree work + work.lines * (length tree * work.self_count)) }
{}
