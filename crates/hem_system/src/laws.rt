//! Laws of firings and runs, each the contract of a function that does nothing.

ghost use Rattle.std.specs.Prelude.{◌≡◌, ℕ, List, true, Some};
ghost use Rattle.hem_base.specs.declared.ids.Firing.{Firing};
ghost use Rattle.hem_syntax.specs.Protocol.{Protocol};
ghost use Rattle.hem_object.specs.Local.{Local};
ghost use Rattle.hem_fire.specs.declared.outs.To.{To};
ghost use Rattle.hem_fire.specs.declared.outs.Outs.{Outs};
ghost use Rattle.hem_fire.specs.OneFire.{Heads};
ghost use Rattle.hem_tree.specs.Tree.{Tree};
ghost use Rattle.hem_system.specs.declared.lane.Lane.{Lane};
ghost use Rattle.hem_system.specs.State.{State, Effect, takes, reaches, taker_of, sender_of, taken_heads, own_effect, Fires, Runs};
ghost use Rattle.hem_system.specs.Laws.{ChangesItsOwn};

/// Of each list one object at most takes, and to each list one at most sends.
pub fn lists_have_one_taker_and_sender()
    ensures taker { (tree : Tree) (f : Firing) (outs : Outs) (k : ℕ) (lane : Lane) → takes tree f outs k lane ≡ true → taker_of tree k lane ≡ Some f.object.0 }
    ensures sender { (tree : Tree) (f : Firing) (to : To) (k : ℕ) (lane : Lane) → reaches tree f to k lane ≡ true → sender_of tree k lane ≡ Some f.object.0 }
{}

/// A firing looks only at the heads that it takes: with others it has the same effect.
pub fn firings_look_at_taken_heads()
    ensures { (p : Protocol) (tree : Tree) (f : Firing) (local : Local) (heads others : Heads) (effect : Effect) → own_effect p tree f local heads ≡ Some effect → taken_heads effect.outs others ≡ effect.took → own_effect p tree f local others ≡ Some effect }
{}

/// A firing changes only its own object's local state, the heads that it takes and the ends that it appends to.
pub fn firings_change_their_own()
    ensures { (p : Protocol) (tree : Tree) (old new : State) (f : Firing) → Fires p tree old f new → ChangesItsOwn p tree old f new }
{}

/// A history runs from a state to one state at most.
pub fn runs_end_once()
    ensures { (p : Protocol) (tree : Tree) (start one other : State) (h : List Firing) → Runs p tree start h one → Runs p tree start h other → one ≡ other }
{}
