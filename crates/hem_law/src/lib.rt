//! The projection law: a run of a line is a chain of firings at each object and a flow of messages in each list. What
//! follows from it for histories in another order: runs put together from parts, the normal order, the printed order.
//! Each function does nothing, and its contract is a law.
#![tactic(auto)]

ghost use Rattle.std.specs.Prelude.{◌≡◌, ◌≢◌, ℕ, true, false, List, [], ◌∷◌, ◌++◌, Some, None, length, map, filter, slice_get, option_map, ◌==◌, ◌<◌};
ghost use Rattle.std.specs.List.{list_any};
ghost use Rattle.hem_base.specs.declared.ids.Firing.{Firing};
ghost use Rattle.hem_syntax.specs.declared.rule.Atom.{Atom};
ghost use Rattle.hem_object.specs.declared.state.View.{View};
ghost use Rattle.hem_base.specs.declared.ids.Kind.{Kind};
ghost use Rattle.hem_syntax.specs.declared.rule.Rule.{Rule};
ghost use Rattle.hem_syntax.specs.Protocol.{Protocol, rule_named};
ghost use Rattle.hem_syntax.specs.Lawful.{IsProtocol};
ghost use Rattle.hem_object.specs.Local.{Local};
ghost use Rattle.hem_object.specs.Guard.{holds};
ghost use Rattle.hem_template.specs.Template.{reads_me};
ghost use Rattle.hem_tree.specs.Tree.{Tree, kind_of, IsTree};
ghost use Rattle.hem_work.specs.Work.{Work};
ghost use Rattle.hem_system.specs.declared.lane.Lane.TheVariants.{Requests};
ghost use Rattle.hem_system.specs.State.{State, Line, run_line, run, start};
ghost use Rattle.hem_system.specs.Laws.{list_in};
ghost use Rattle.hem_system.specs.Events.{Event};
ghost use Rattle.hem_trace.specs.History.{Channel, takes_from, sends_to, Taken, Sent, events, line_events};
ghost use Rattle.hem_trace.specs.Tags.{no_tags};
ghost use Rattle.hem_trace.specs.Order.{Entry, is_upward, entries_of, normal, printed};
ghost use Rattle.hem_trace.specs.Blocks.{Each, IsSerial, SameFirings, firings_of};
ghost use Rattle.hem_law.specs.Chains.{firings, heads_seen, IsChain};
ghost use Rattle.hem_law.specs.Leads.{Leads, Fits};
ghost use Rattle.hem_law.specs.Parts.{AreTiedParts, IsMerge, IsRearranged};
ghost use Rattle.hem_law.specs.Lists.{IsPairwise, IsBelow};
ghost use Rattle.hem_law.specs.Normal.{IsEarlier, InOrder, AreRising, OnlyUp, AreNumbered, TakeOneNumber};
ghost use Rattle.hem_law.specs.Orders.{stands_in, RowsAgree, HaveRanks};
ghost use Rattle.hem_law.specs.Printed.{event_of, firings_in, IsFresh, AreTransactions, EntriesRun, KeepsObjects, NormalRuns};
ghost use Rattle.hem_trace.specs.Templates.{is_downward};
ghost use Rattle.hem_law.specs.Windows.{IsStillPossible, AreWholeBlocks, EndsReady, HasWindows};
ghost use Rattle.hem_abstract.specs.Partners.{Partner, IsPartner, breaks};
ghost use Rattle.hem_abstract.specs.Stable.{first_unstable, IsOfKind, IsStable};
ghost use Rattle.hem_law.specs.Kinds.{AreOfKinds};
ghost use Rattle.hem_law.specs.Orderly.{IsOrderly};
ghost use Rattle.hem_abstract.specs.Abstract.{AreSmall, guard_at, abstract_of};
ghost use Rattle.hem_law.specs.Lines.{line_firings, LineRuns};

/// Events that are a chain at each object and a flow in each list run on the line, and are the events of that run.
pub fn chains_and_flows_run()
    ensures runs { (p : Protocol) (tree : Tree) (old : Line) (es : List Event) (new : Line) → Leads p tree old es new → run_line p tree old (firings es) ≡ Some new }
    ensures same { (p : Protocol) (tree : Tree) (old : Line) (es : List Event) (new : Line) → Leads p tree old es new → line_events p tree old (firings es) ≡ es }
{}

/// The events of a run are a chain at each object and a flow in each list, and their firings are those of the run.
pub fn runs_are_chains_and_flows()
    ensures parts { (p : Protocol) (tree : Tree) (old : Line) (h : List Firing) (new : Line) → length old ≡ length tree → run_line p tree old h ≡ Some new → Leads p tree old (line_events p tree old h) new }
    ensures same { (p : Protocol) (tree : Tree) (old : Line) (h : List Firing) (new : Line) → run_line p tree old h ≡ Some new → firings (line_events p tree old h) ≡ h }
{}

/// Events that are a chain at each object and take what was there and was sent, in order and not before it is there, run on the line, and are the events of that run.
pub fn fitting_events_run()
    ensures { (p : Protocol) (tree : Tree) (old : Line) (es : List Event) (new : Line) → Fits p tree old es new → (run_line p tree old (firings es) ≡ Some new) × (line_events p tree old (firings es) ≡ es) }
{}

/// A history runs exactly where each line runs by its own firings, and its events on a line are the events of that line's run.
pub fn lines_run_apart()
    ensures together { (p : Protocol) (tree : Tree) (s : State) (h : List Firing) (new : State) → ((l : ℕ) → LineRuns p tree (slice_get s l) (line_firings l h) (slice_get new l)) → run p tree s h ≡ Some new }
    ensures apart { (p : Protocol) (tree : Tree) (s : State) (h : List Firing) (new : State) → run p tree s h ≡ Some new → (l : ℕ) → LineRuns p tree (slice_get s l) (line_firings l h) (slice_get new l) }
    ensures own { (p : Protocol) (tree : Tree) (s : State) (h : List Firing) (new : State) (l : ℕ) (line : Line) → run p tree s h ≡ Some new → slice_get s l ≡ Some line → filter (λ e. e.firing.line.0 == l) (events p tree s h) ≡ line_events p tree line (line_firings l h) }
{}

/// What a history's events take from a channel is what they send to it, in order, but for what is there at the end.
pub fn channels_are_queues()
    ensures { (p : Protocol) (tree : Tree) (s : State) (h : List Firing) (new : State) (c : Channel) → IsFresh tree s → run p tree s h ≡ Some new → c.lane ≢ Requests → Taken tree (events p tree s h) c ++ list_in new c.line c.object c.lane ≡ Sent tree (events p tree s h) c }
{}

/// Parts of stamped events that are tied, each message with a lesser stamp than its taker, run merged in any order in which no stamp falls.
pub fn stamped_parts_run()
    ensures { (p : Protocol) (tree : Tree) (old : Line) (parts : ℕ → List (Event × ℕ)) (xs : List (Event × ℕ)) (new : Line) → AreTiedParts (λ x. x.0) (λ x y. x.1 < y.1) p tree old parts new → IsMerge (λ x. x.0) (λ x y. x.1 < y.1) parts xs → (run_line p tree old (firings (map (λ x. x.0) xs)) ≡ Some new) × (line_events p tree old (firings (map (λ x. x.0) xs)) ≡ map (λ x. x.0) xs) }
{}

/// The entries of a run in another order, in which each object's are a chain to the same end and each list's takers and senders keep their order, run to the same line.
pub fn rearranged_histories_run()
    ensures { (p : Protocol) (tree : Tree) (old : Line) (xs ys : List Entry) (new : Line) → IsRearranged (λ x. x.event) IsEarlier p tree old xs ys new → (run_line p tree old (firings (map (λ x. x.event) ys)) ≡ Some new) × (line_events p tree old (firings (map (λ x. x.event) ys)) ≡ map (λ x. x.event) ys) }
{}

/// The normal order keeps the order of each transaction's firings, where before its anchor a transaction only sends upward.
pub fn normal_order_keeps_transactions()
    ensures { (es : List Entry) → AreRising es → Each (OnlyUp es) es → IsPairwise InOrder (normal es) }
{}

/// Where each event has the number of all messages that it takes, and the events of each transaction keep their order, each message is sent by an earlier event of its taker's transaction.
pub fn numbered_messages_stay_in_their_transaction()
    ensures { (tree : Tree) (c : Channel) (xs : List Entry) → c.lane ≢ Requests → IsPairwise InOrder xs → AreNumbered tree no_tags xs → IsBelow IsEarlier (filter (λ x. sends_to tree c x.event) xs) (filter (λ x. takes_from tree c x.event) xs) }
{}

/// Transactions in rows that agree along a tree don't go in a circle.
pub fn rows_that_agree_have_no_circle()
    ensures { (tree : Tree) (rows : ℕ → List ℕ) (n : ℕ) → ((o t : ℕ) → stands_in (rows o) t ≡ true → o < n) → IsTree tree → RowsAgree tree rows → HaveRanks rows }
{}

/// The entries of a history that runs from a state without messages in its channels: each transaction is on one line, begins at the place that is its number with an event that takes no message, and goes on with events that take messages.
pub fn histories_have_transactions()
    ensures entries { (p : Protocol) (tree : Tree) (s : State) (h : List Firing) (new : State) → IsFresh tree s → run p tree s h ≡ Some new → AreTransactions tree (entries_of p tree s h) }
    ensures firings { (p : Protocol) (tree : Tree) (s : State) (h : List Firing) (new : State) → run p tree s h ≡ Some new → firings_in (entries_of p tree s h) ≡ h }
    ensures start { (p : Protocol) (tree : Tree) (work : Work) → IsFresh tree (start p tree work) }
    ensures numbered { (p : Protocol) (tree : Tree) (s : State) (h : List Firing) (new : State) → IsFresh tree s → run p tree s h ≡ Some new → TakeOneNumber tree no_tags 0 (events p tree s h) → AreNumbered tree no_tags (entries_of p tree s h) }
{}

/// The normal order of a history runs to its state, where each event has the number of all messages that it takes, a transaction only sends upward before its anchor, and at each object the normal order leads to the same local state and takes and sends in the same order.
pub fn normal_orders_run()
    ensures { (p : Protocol) (tree : Tree) (s : State) (h : List Firing) (new : State) → IsFresh tree s → run p tree s h ≡ Some new → AreNumbered tree no_tags (entries_of p tree s h) → Each (OnlyUp (entries_of p tree s h)) (entries_of p tree s h) → KeepsObjects p tree s (entries_of p tree s h) (normal (entries_of p tree s h)) new → EntriesRun p tree s (normal (entries_of p tree s h)) new }
{}

/// At one object an upward request and what works downward while it waits can be made in the other order, where the downlock is free then and, but for the request's lock, its guard holds and its value is the same.
pub fn waiting_requests_move()
    ensures { (p : Protocol) (tree : Tree) (before after : Local) (u : Event) (es : List Event) → IsChain p tree (Some before) (u ∷ es) (Some after) → is_upward p tree u.firing ≡ true → Each (λ e. is_downward p tree e.firing ≡ true) es → after.down ≡ None → IsStillPossible p tree u.firing before (record after { up = None }) (heads_seen tree u) → IsChain p tree (Some before) (es ++ u ∷ []) (Some after) }
{}

/// The normal order keeps each object where what happens at it is windows of waiting requests, and then it runs to the state of the history.
pub fn windows_give_the_normal_order()
    ensures keeps { (p : Protocol) (tree : Tree) (s : State) (es : List Entry) (new : State) → AreTransactions tree es → EntriesRun p tree s es new → HasWindows p tree s es new → KeepsObjects p tree s es (normal es) new }
    ensures runs { (p : Protocol) (tree : Tree) (s : State) (h : List Firing) (new : State) → IsFresh tree s → run p tree s h ≡ Some new → AreNumbered tree no_tags (entries_of p tree s h) → Each (OnlyUp (entries_of p tree s h)) (entries_of p tree s h) → HasWindows p tree s (entries_of p tree s h) new → EntriesRun p tree s (normal (entries_of p tree s h)) new }
{}

/// A window of a stable upward request and whole downward blocks ends so that the request could be made instead.
pub fn stable_requests_end_ready()
    ensures { (p : Protocol) (tree : Tree) (kind : Kind) (rule : Rule) (before after : Local) (u : Entry) (others : List Entry) → IsProtocol p → first_unstable p kind rule ≡ None → kind_of tree u.event.firing.object.0 ≡ Some kind → rule_named p kind u.event.firing.rule ≡ Some rule → is_upward p tree u.event.firing ≡ true → Each (λ x. kind_of tree x.event.firing.object.0 ≡ Some kind) others → AreWholeBlocks p tree others → IsOfKind p kind before → IsChain p tree (Some before) (map event_of (u ∷ others)) (Some after) → EndsReady p tree (Some before) (Some u) others after }
{}

/// Where the normal order of a history runs, and its transactions stand together at each object and agree at parent and child, the printed order is serial, leads to the same state, and has the firings of the history.
pub fn printed_orders_are_serial()
    ensures serial { (p : Protocol) (tree : Tree) (s : State) (es : List Entry) (new : State) → IsTree tree → IsFresh tree s → AreTransactions tree es → NormalRuns p tree s es new → IsSerial p tree s (printed es) new }
    ensures same { (p : Protocol) (tree : Tree) (s : State) (es : List Entry) (new : State) → IsTree tree → IsFresh tree s → AreTransactions tree es → NormalRuns p tree s es new → SameFirings (firings_in es) (firings_of (printed es)) }
{}

/// Of a stable protocol and a history from the start that is orderly, the printed order is serial, leads to the history's state, and has its firings.
pub fn orderly_histories_are_serial()
    ensures serial { (p : Protocol) (tree : Tree) (work : Work) (h : List Firing) (new : State) → IsProtocol p → IsStable p → IsTree tree → run p tree (start p tree work) h ≡ Some new → IsOrderly p tree (start p tree work) h → IsSerial p tree (start p tree work) (printed (entries_of p tree (start p tree work) h)) new × SameFirings h (firings_of (printed (entries_of p tree (start p tree work) h))) }
    ensures normal { (p : Protocol) (tree : Tree) (s : State) (h : List Firing) (new : State) → IsProtocol p → IsStable p → IsFresh tree s → AreOfKinds p tree s → run p tree s h ≡ Some new → IsOrderly p tree s h → EntriesRun p tree s (normal (entries_of p tree s h)) new }
{}
