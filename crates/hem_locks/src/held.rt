//! What the invariant of locks says of a line, and of the firings that its locks allow.

ghost use Rattle.std.specs.Prelude.{◌≡◌, ℕ, List, ◌∷◌, Some, true, slice_get};
ghost use Rattle.std.specs.List.{list_all};
ghost use Rattle.hem_base.specs.declared.ids.ObjectId.{ObjectId};
ghost use Rattle.hem_base.specs.declared.ids.Firing.{Firing};
ghost use Rattle.hem_object.specs.declared.state.Lock.{Lock};
ghost use Rattle.hem_syntax.specs.Protocol.{Protocol};
ghost use Rattle.hem_object.specs.Local.{Local};
ghost use Rattle.hem_tree.specs.Tree.{Tree, IsTree};
ghost use Rattle.hem_system.specs.State.{Cell, Line, State, Effect, effect_of, local_at};
ghost use Rattle.hem_system.specs.Quiet.{has_no_message, is_quiet};
ghost use Rattle.hem_rows.specs.Acts.{is_down_response};
ghost use Rattle.hem_rows.specs.Rows.{AllHaveTemplates};
ghost use Rattle.hem_locks.specs.Edges.{count, LocksHold, AllLocksHold};
ghost use Rattle.hem_locks.specs.Allowed.{FreesDownlock, ServesItsParent};
ghost use Rattle.hem_locks.specs.Clean.{AreFew, AreInLine, AreCleanAt, LineIsStill, HoldsNone};

/// Each edge has one request and one response on the way up at most, and two messages on the way down.
pub fn edges_have_few_messages()
    ensures { (p : Protocol) (tree : Tree) (line : Line) (o : ℕ) (cell : Cell) → IsTree tree → LocksHold p tree line → slice_get line o ≡ Some cell → AreFew cell }
{}

/// While an object's downlock is held, it makes only the firing that frees it.
pub fn held_downlock_is_freed_next()
    ensures { (p : Protocol) (tree : Tree) (line : Line) (f : Firing) (e : Effect) (local : Local) (lock : Lock) → AllHaveTemplates p → effect_of p tree line f ≡ Some e → local_at line f.object.0 ≡ Some local → local.down ≡ Some lock → FreesDownlock p tree f lock e }
{}

/// While an object waits for a response of its parent, which isn't there yet, it only serves its parent's requests.
pub fn waiting_objects_serve_their_parents()
    ensures { (p : Protocol) (tree : Tree) (line : Line) (f : Firing) (e : Effect) (cell : Cell) (lock : Lock) → IsTree tree → AllHaveTemplates p → LocksHold p tree line → effect_of p tree line f ≡ Some e → slice_get line f.object.0 ≡ Some cell → cell.local.up ≡ Some lock → count (is_down_response p) cell.down ≡ 0 → ServesItsParent p tree f }
{}

/// Where a child's request is taken, nothing of a parent's stands with the child, with the child for which that one works, and so on down.
pub fn requests_are_taken_on_clean_paths()
    ensures { (p : Protocol) (tree : Tree) (line : Line) (f : Firing) (e : Effect) (child : ObjectId) (lows : List ℕ) → AllHaveTemplates p → LocksHold p tree line → effect_of p tree line f ≡ Some e → f.me ≡ Some child → AreInLine tree line child.0 lows → AreCleanAt line (child.0 ∷ lows) }
{}

/// Where nothing is under way on a line, no lock is held; so a state without messages is quiet.
pub fn locks_want_messages()
    ensures line { (p : Protocol) (tree : Tree) (line : Line) (o : ℕ) (cell : Cell) → IsTree tree → LocksHold p tree line → LineIsStill line → slice_get line o ≡ Some cell → HoldsNone cell }
    ensures state { (p : Protocol) (tree : Tree) (s : State) → IsTree tree → AllLocksHold p tree s → list_all (list_all has_no_message) s ≡ true → is_quiet s ≡ true }
{}
