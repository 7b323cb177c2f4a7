//! While an object's request is pending, the object fires whole downward blocks only; while the answer falls, it does
//! nothing until the answer comes. Each function does nothing, and its contract is a law.
#![tactic(auto)]

ghost use Rattle.std.specs.Prelude.{◌≡◌, ◌⊎◌, ℕ, List, ◌∷◌, Some, true, false, is_some, slice_get};
ghost use Rattle.hem_base.specs.declared.ids.Firing.{Firing};
ghost use Rattle.hem_template.specs.declared.template_name.TemplateName.TheVariants.{ImmDown, RqUp, RqUpDown, RqUpSelf};
ghost use Rattle.hem_syntax.specs.Protocol.{Protocol};
ghost use Rattle.hem_tree.specs.Tree.{Tree, IsTree};
ghost use Rattle.hem_system.specs.State.{Cell, Line, Effect, effect_of, line_after, run_line};
ghost use Rattle.hem_rows.specs.Rows.{AllHaveTemplates};
ghost use Rattle.hem_locks.specs.Edges.{LocksHold};
ghost use Rattle.hem_locks.specs.Allowed.{HasTemplate};
ghost use Rattle.hem_windows.specs.Pending.{IsPending, IsOneOf, takes_of, top_after, lows_after, SendsOn, AllServe};
ghost use Rattle.hem_windows.specs.Answering.{FireInTurn};
ghost use Rattle.hem_windows.specs.Blocks.{templates_at, are_blocks};

/// A pending request stays pending until it is taken; where its taker sends it on, that one's request is pending.
pub fn requests_stay_pending()
    ensures stays { (p : Protocol) (tree : Tree) (line : Line) (f : Firing) (e : Effect) (top : ℕ) (lows : List ℕ) → IsTree tree → AllHaveTemplates p → LocksHold p tree line → effect_of p tree line f ≡ Some e → IsPending tree line top lows → takes_of top f ≡ false → IsPending tree (line_after tree f e line) top lows }
    ensures rises { (p : Protocol) (tree : Tree) (line : Line) (f : Firing) (e : Effect) (top : ℕ) (lows : List ℕ) → IsTree tree → AllHaveTemplates p → LocksHold p tree line → effect_of p tree line f ≡ Some e → IsPending tree line top lows → takes_of top f ≡ true → HasTemplate p tree f RqUp → IsPending tree (line_after tree f e line) f.object.0 (top ∷ lows) }
{}

/// Along a history in which a pending request is sent on wherever it is taken, a request is pending after it, and each
/// firing of an object that waits serves its parent.
pub fn waiting_objects_serve_along_histories()
    ensures { (p : Protocol) (tree : Tree) (h : List Firing) (line new : Line) (top : ℕ) (lows : List ℕ) → IsTree tree → AllHaveTemplates p → LocksHold p tree line → IsPending tree line top lows → SendsOn p tree top h → run_line p tree line h ≡ Some new → IsPending tree new (top_after top h) (lows_after top lows h) × AllServe p tree top lows h }
{}

/// From a line on which a request is pending to the firing that takes it last, each object that waits for its response ends
/// the block that it is within, and then fires whole blocks.
pub fn waiting_objects_fire_whole_blocks()
    ensures { (p : Protocol) (tree : Tree) (h : List Firing) (line new : Line) (f : Firing) (e : Effect) (top : ℕ) (lows : List ℕ) (o : ℕ) (cell : Cell) → IsTree tree → AllHaveTemplates p → LocksHold p tree line → IsPending tree line top lows → IsOneOf o (top ∷ lows) → slice_get line o ≡ Some cell → SendsOn p tree top h → run_line p tree line h ≡ Some new → effect_of p tree new f ≡ Some e → takes_of (top_after top h) f ≡ true → are_blocks (is_some cell.local.down) (templates_at p tree o h) ≡ true }
{}

/// So from a firing that sends a request up to the firing that takes it last, its object fires whole blocks.
pub fn senders_fire_whole_blocks()
    ensures { (p : Protocol) (tree : Tree) (line new : Line) (first last : Firing) (e d : Effect) (h : List Firing) → IsTree tree → AllHaveTemplates p → LocksHold p tree line → HasTemplate p tree first RqUp ⊎ HasTemplate p tree first RqUpSelf → effect_of p tree line first ≡ Some e → SendsOn p tree first.object.0 h → run_line p tree (line_after tree first e line) h ≡ Some new → effect_of p tree new last ≡ Some d → takes_of (top_after first.object.0 h) last ≡ true → are_blocks false (templates_at p tree first.object.0 h) ≡ true }
{}

/// From the firing on that takes a pending request and doesn't send it on, the objects that wait fire in turn: the first
/// firing of each takes the response, and those below it don't fire before that.
pub fn waiting_objects_fire_in_turn()
    ensures { (p : Protocol) (tree : Tree) (line new : Line) (f : Firing) (e : Effect) (top : ℕ) (lows : List ℕ) (h : List Firing) → IsTree tree → AllHaveTemplates p → LocksHold p tree line → IsPending tree line top lows → takes_of top f ≡ true → HasTemplate p tree f ImmDown ⊎ HasTemplate p tree f RqUpDown → effect_of p tree line f ≡ Some e → run_line p tree (line_after tree f e line) h ≡ Some new → FireInTurn p tree (top ∷ lows) h }
{}
