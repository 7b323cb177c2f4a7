//! Serializability: each history of a disciplined protocol, regrouped by transactions, is a history to the same state.
//! Each function does nothing, and its contract is a law.
#![tactic(auto)]

ghost use Rattle.std.specs.Prelude.{◌≡◌, ◌≢◌, ◌≤◌, ◌+◌, ◌*◌, ℕ, true, List, Some, length, take};
ghost use Rattle.hem_base.specs.declared.ids.Firing.{Firing};
ghost use Rattle.hem_syntax.specs.Protocol.{Protocol};
ghost use Rattle.hem_tree.specs.Tree.{Tree, parent_of};
ghost use Rattle.hem_work.specs.Work.{Work};
ghost use Rattle.hem_system.specs.State.{State, Runs, start};
ghost use Rattle.hem_trace.specs.Blocks.{IsSerial, SameFirings, firings_of};
ghost use Rattle.hem_locks.specs.Edges.{AllLocksHold};
ghost use Rattle.hem_law.specs.Orders.{stands_in, is_ahead, PrecedenceRanks};
ghost use Rattle.hem_numbered.specs.Together.{StandTogether, StandAtMostThrice, AreConnected};
ghost use Rattle.hem_numbered.specs.HaveRoles.{GoOneWay};
ghost use Rattle.hem_bound.specs.Starts.{starts};
ghost use Rattle.hem_serial.specs.Histories.{IsHistory, ListsAreShort, entries, printed_blocks, normal_entries, normal_order, normal_rows};

/// Serializability. Of a history of a disciplined protocol, on a finite tree, that runs from the start to a state: its
/// blocks in the printed order are serial and lead to that state, and they have the same firings.
pub fn histories_are_serializable()
    ensures serial { (p : Protocol) (tree : Tree) (work : Work) (h : List Firing) (s : State) → IsHistory p tree work h s → IsSerial p tree (start p tree work) (printed_blocks p tree work h) s }
    ensures same { (p : Protocol) (tree : Tree) (work : Work) (h : List Firing) (s : State) → IsHistory p tree work h s → SameFirings h (firings_of (printed_blocks p tree work h)) }
{}

/// After every prefix of a history each list of requests up and each list of responses up holds at most one message, and
/// each list of messages down at most two.
pub fn lists_stay_short()
    ensures { (p : Protocol) (tree : Tree) (work : Work) (h : List Firing) (s : State) (n : ℕ) → IsHistory p tree work h s → (mid : State) × Runs p tree (start p tree work) (take n h) mid × ListsAreShort mid }
{}

/// The invariant of locks holds after every prefix of a history.
pub fn locks_hold_throughout()
    ensures { (p : Protocol) (tree : Tree) (work : Work) (h : List Firing) (s : State) (n : ℕ) → IsHistory p tree work h s → (mid : State) × Runs p tree (start p tree work) (take n h) mid × AllLocksHold p tree mid }
{}

/// The normal order, in which each upward request before its transaction's anchor is moved to just before the anchor, has
/// the same firings and runs to the same state.
pub fn normal_orders_run_to_the_same_state()
    ensures runs { (p : Protocol) (tree : Tree) (work : Work) (h : List Firing) (s : State) → IsHistory p tree work h s → Runs p tree (start p tree work) (normal_order p tree work h) s }
    ensures same { (p : Protocol) (tree : Tree) (work : Work) (h : List Firing) (s : State) → IsHistory p tree work h s → SameFirings h (normal_order p tree work h) }
{}

/// In the normal order the firings of a transaction at an object stand together, and are at most three.
pub fn transactions_stand_together_at_each_object()
    ensures together { (p : Protocol) (tree : Tree) (work : Work) (h : List Firing) (s : State) (l : ℕ) → IsHistory p tree work h s → StandTogether (normal_rows p tree work h l) }
    ensures three { (p : Protocol) (tree : Tree) (work : Work) (h : List Firing) (s : State) (l : ℕ) → IsHistory p tree work h s → StandAtMostThrice (normal_rows p tree work h l) }
{}

/// A transaction's objects are connected in the tree: of two of them the later one's parent is one too.
pub fn objects_of_transactions_are_connected()
    ensures { (p : Protocol) (tree : Tree) (work : Work) (h : List Firing) (s : State) (l : ℕ) → IsHistory p tree work h s → AreConnected tree (normal_rows p tree work h l) }
{}

/// A transaction uses each edge in one way at most: at no object does it both send a request to the parent and take one of
/// the parent.
pub fn transactions_use_each_edge_in_one_way()
    ensures { (p : Protocol) (tree : Tree) (work : Work) (h : List Firing) (s : State) → IsHistory p tree work h s → GoOneWay p tree (entries p tree work h) }
{}

/// Parent and child agree: two transactions that both fire at an object and at its parent stand in the same order at both.
pub fn parents_and_children_agree()
    ensures { (p : Protocol) (tree : Tree) (work : Work) (h : List Firing) (s : State) (l o high t u : ℕ) → IsHistory p tree work h s → parent_of tree o ≡ Some high → t ≢ u → is_ahead (normal_rows p tree work h l o) t u ≡ true → stands_in (normal_rows p tree work h l high) t ≡ true → stands_in (normal_rows p tree work h l high) u ≡ true → is_ahead (normal_rows p tree work h l high) t u ≡ true }
{}

/// No circle: the transactions have ranks that rise wherever one precedes another.
pub fn precedence_has_no_circle()
    ensures { (p : Protocol) (tree : Tree) (work : Work) (h : List Firing) (s : State) → IsHistory p tree work h s → PrecedenceRanks (normal_entries p tree work h) }
{}

/// A history has at most three firings for each object and each start of a transaction.
pub fn histories_end()
    ensures { (p : Protocol) (tree : Tree) (work : Work) (h : List Firing) (s : State) → IsHistory p tree work h s → length h ≤ 3 * length tree * starts p tree h }
{}
