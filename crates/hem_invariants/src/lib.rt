//! What holds in each state that a history reaches, for every mixture of rule parts. Each function does nothing, and its
//! contract is a law.
#![tactic(auto)]

ghost use Rattle.std.specs.Prelude.{◌≡◌, ℕ, true, List, Option, Some, IsTrue};
ghost use Rattle.hem_base.specs.declared.ids.Kind.{Kind};
ghost use Rattle.hem_base.specs.declared.ids.Firing.{Firing};
ghost use Rattle.hem_syntax.specs.declared.rule.Rule.{Rule};
ghost use Rattle.hem_syntax.specs.Protocol.{Protocol, part};
ghost use Rattle.hem_syntax.specs.Lawful.{IsProtocol, is_rule, counts_of};
ghost use Rattle.hem_object.specs.Local.{Local, IsWellFormed};
ghost use Rattle.hem_fire.specs.declared.outs.Outs.{Outs};
ghost use Rattle.hem_fire.specs.OneFire.{Heads, OneFire};
ghost use Rattle.hem_tree.specs.Tree.{Tree, IsTree};
ghost use Rattle.hem_work.specs.Work.{Work};
ghost use Rattle.hem_work.specs.Lawful.{IsLawfulWork};
ghost use Rattle.hem_system.specs.State.{State, Line, Effect, Fires, Runs, start, effect_of, takes, head_at};
ghost use Rattle.hem_system.specs.declared.lane.Lane.{Lane};
ghost use Rattle.hem_base.specs.declared.ids.Message.{Message};
ghost use Rattle.hem_invariants.specs.Declared.{HeadsDeclared, SendsDeclared};
ghost use Rattle.hem_invariants.specs.Formed.{IsFormed};
ghost use Rattle.hem_invariants.specs.Missing.{MissingAreEmpty};

/// A firing of a rule whose names are declared leaves a well-formed local state where it finds one, and what it sends has
/// a declared id.
pub fn firings_keep_well_formed()
    ensures leaves { (p : Protocol) (kind : Kind) (children : ℕ) (rule : Rule) (me : Option ℕ) (local : Local) (heads : Heads) (after : Local) (outs : Outs) → IsTrue (is_rule (counts_of p (part p kind)) rule) → IsWellFormed p kind children local → HeadsDeclared p heads → OneFire p kind rule me local heads after outs → IsWellFormed p kind children after }
    ensures sends { (p : Protocol) (kind : Kind) (rule : Rule) (me : Option ℕ) (local : Local) (heads : Heads) (after : Local) (outs : Outs) → IsTrue (is_rule (counts_of p (part p kind)) rule) → OneFire p kind rule me local heads after outs → SendsDeclared p outs }
{}

/// Each state that a history reaches from the start is well formed: the state at the start is, and a firing keeps it.
pub fn reached_states_are_well_formed()
    ensures start { (p : Protocol) (tree : Tree) (work : Work) → IsProtocol p → IsTree tree → IsLawfulWork p tree work → IsFormed p tree (start p tree work) }
    ensures step { (p : Protocol) (tree : Tree) (old new : State) (f : Firing) → IsProtocol p → IsFormed p tree old → Fires p tree old f new → IsFormed p tree new }
    ensures reached { (p : Protocol) (tree : Tree) (work : Work) (h : List Firing) (now : State) → IsProtocol p → IsTree tree → IsLawfulWork p tree work → Runs p tree (start p tree work) h now → IsFormed p tree now }
{}

/// In each state that a history reaches from the start the lists that an object lacks are empty: at the start they are,
/// and a firing keeps it.
pub fn missing_lists_stay_empty()
    ensures start { (p : Protocol) (tree : Tree) (work : Work) → IsLawfulWork p tree work → MissingAreEmpty tree (start p tree work) }
    ensures step { (p : Protocol) (tree : Tree) (old new : State) (f : Firing) → IsTree tree → IsFormed p tree old → MissingAreEmpty tree old → Fires p tree old f new → MissingAreEmpty tree new }
    ensures reached { (p : Protocol) (tree : Tree) (work : Work) (h : List Firing) (now : State) → IsProtocol p → IsTree tree → IsLawfulWork p tree work → Runs p tree (start p tree work) h now → MissingAreEmpty tree now }
{}

/// What a firing takes from a list is there: the list has a head.
pub fn taken_messages_are_there()
    ensures { (p : Protocol) (tree : Tree) (line : Line) (f : Firing) (effect : Effect) (k : ℕ) (lane : Lane) → effect_of p tree line f ≡ Some effect → takes tree f effect.outs k lane ≡ true → (m : Message) × (head_at line k lane ≡ Some m) }
{}
