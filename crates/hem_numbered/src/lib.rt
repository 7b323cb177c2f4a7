//! Numbers of transactions on messages and locks, and the shape that each transaction has on a line. Nothing runs here:
//! each function does nothing, and its contract is a law.
#![tactic(auto)]

mod objects;

ghost use Rattle.std.specs.Prelude.{◌==◌, ◌≡◌, ℕ, Bool, not, ◌&&◌, List, Some, map, slice_get};
ghost use Rattle.hem_base.specs.declared.ids.Kind.{Kind};
ghost use Rattle.hem_base.specs.declared.ids.Firing.{Firing};
ghost use Rattle.hem_syntax.specs.declared.rule.Rule.{Rule};
ghost use Rattle.hem_template.specs.declared.template_name.TemplateName.{TemplateName};
ghost use Rattle.hem_syntax.specs.Protocol.{Protocol};
ghost use Rattle.hem_object.specs.Local.{Local};
ghost use Rattle.hem_syntax.specs.Lawful.{IsProtocol};
ghost use Rattle.hem_tree.specs.Tree.{Tree, IsTree};
ghost use Rattle.hem_work.specs.Work.{Work};
ghost use Rattle.hem_fire.specs.declared.outs.Outs.{Outs};
ghost use Rattle.hem_system.specs.State.{State, Line, Runs, run, start};
ghost use Rattle.hem_trace.specs.Blocks.{Each, IsSerial, SameFirings, firings_of};
ghost use Rattle.hem_trace.specs.History.{events};
ghost use Rattle.hem_trace.specs.Tags.{no_tags};
ghost use Rattle.hem_trace.specs.Order.{Entry, entries_of, normal, printed};
ghost use Rattle.hem_law.specs.Normal.{AreNumbered, OnlyUp};
ghost use Rattle.hem_law.specs.Orderly.{IsOrderly};
ghost use Rattle.hem_law.specs.Orders.{RowsAgree};
ghost use Rattle.hem_law.specs.Printed.{event_of, firings_in, rows_of, AreTransactions};
ghost use Rattle.hem_abstract.specs.Stable.{IsStable};
ghost use Rattle.hem_law.specs.Windows.{HasWholeWindows};
ghost use Rattle.hem_rows.specs.Rows.{AllHaveTemplates};
ghost use Rattle.hem_numbered.specs.Numbers.{Numbers, numbers_after, AreNumbers};
ghost use Rattle.hem_numbered.specs.Firings.{HasNumber, IsFiring, IsNumbered};
ghost use Rattle.hem_numbered.specs.Histories.{EndsWhereUp};
ghost use Rattle.hem_numbered.specs.Grouped.{RunsAdjacent};

pub use objects::{transactions_go_one_way, transactions_have_roles, transactions_stand_together};

/// A firing takes only messages of its own number, and frees only locks of its own number.
pub fn firings_take_their_own_number()
    ensures { (p : Protocol) (tree : Tree) (f : Firing) (t : TemplateName) (kind : Kind) (rule : Rule) (before after : Local) (outs : Outs) (old new : Line) (numbers : Numbers) (is_new : ℕ → Bool) (n : ℕ) → IsFiring p tree f t kind rule before after outs old new → AreNumbers p tree old numbers is_new → HasNumber tree f outs numbers.lists is_new n → IsNumbered tree f outs before after numbers n }
{}

/// A firing keeps the shape of each transaction.
pub fn firings_keep_numbers()
    ensures { (p : Protocol) (tree : Tree) (f : Firing) (t : TemplateName) (kind : Kind) (rule : Rule) (before after : Local) (outs : Outs) (old new : Line) (numbers : Numbers) (is_new : ℕ → Bool) (n : ℕ) → IsFiring p tree f t kind rule before after outs old new → AreNumbers p tree old numbers is_new → HasNumber tree f outs numbers.lists is_new n → AreNumbers p tree new (numbers_after tree f outs before n t numbers) (λ x. is_new x && not (x == n)) }
{}

/// In a history of a protocol of which each rule has a template, each event has the number of all messages that it takes.
pub fn histories_are_numbered()
    ensures { (p : Protocol) (tree : Tree) (work : Work) (h : List Firing) (s : State) → IsProtocol p → IsTree tree → AllHaveTemplates p → Runs p tree (start p tree work) h s → AreNumbered tree no_tags (entries_of p tree (start p tree work) h) }
{}

/// In such a history a transaction only sends requests upward before its anchor, and nothing of it comes after an anchor
/// that is itself a request upward.
pub fn transactions_rise_to_their_anchors()
    ensures ends { (p : Protocol) (tree : Tree) (work : Work) (h : List Firing) (s : State) → IsProtocol p → IsTree tree → AllHaveTemplates p → Runs p tree (start p tree work) h s → Each (EndsWhereUp (entries_of p tree (start p tree work) h)) (entries_of p tree (start p tree work) h) }
    ensures rises { (p : Protocol) (tree : Tree) (work : Work) (h : List Firing) (s : State) → IsProtocol p → IsTree tree → AllHaveTemplates p → Runs p tree (start p tree work) h s → Each (OnlyUp (entries_of p tree (start p tree work) h)) (entries_of p tree (start p tree work) h) }
{}

/// Where after each request upward comes the next firing of its transaction, transactions stand together at each object,
/// and in one order at parent and child.
pub fn adjacent_histories_agree()
    ensures { (p : Protocol) (tree : Tree) (work : Work) (owner : ℕ → ℕ) (xs : List Entry) (s : State) → IsProtocol p → IsTree tree → AllHaveTemplates p → RunsAdjacent p tree owner (start p tree work) xs s → (l : ℕ) → RowsAgree tree (rows_of xs l) }
{}

/// Where the normal order of a history runs, transactions stand together at each object in it, and in one order at parent
/// and child.
pub fn normal_orders_agree()
    ensures { (p : Protocol) (tree : Tree) (work : Work) (h : List Firing) (s new : State) → IsProtocol p → IsTree tree → AllHaveTemplates p → Runs p tree (start p tree work) h s → AreTransactions tree (entries_of p tree (start p tree work) h) → run p tree (start p tree work) (firings_in (normal (entries_of p tree (start p tree work) h))) ≡ Some new → events p tree (start p tree work) (firings_in (normal (entries_of p tree (start p tree work) h))) ≡ map event_of (normal (entries_of p tree (start p tree work) h)) → AreNumbered tree no_tags (normal (entries_of p tree (start p tree work) h)) → (l : ℕ) → RowsAgree tree (rows_of (normal (entries_of p tree (start p tree work) h)) l) }
{}

/// A history of a stable protocol of which each rule has a template is orderly where its windows are whole, and then its
/// printed order is serial, leads to its state, and has its firings.
pub fn histories_with_whole_windows_are_serial()
    ensures orderly { (p : Protocol) (tree : Tree) (work : Work) (h : List Firing) (s : State) → IsProtocol p → IsStable p → IsTree tree → AllHaveTemplates p → Runs p tree (start p tree work) h s → HasWholeWindows p tree (entries_of p tree (start p tree work) h) → IsOrderly p tree (start p tree work) h }
    ensures serial { (p : Protocol) (tree : Tree) (work : Work) (h : List Firing) (s : State) → IsProtocol p → IsStable p → IsTree tree → AllHaveTemplates p → Runs p tree (start p tree work) h s → HasWholeWindows p tree (entries_of p tree (start p tree work) h) → IsSerial p tree (start p tree work) (printed (entries_of p tree (start p tree work) h)) s × SameFirings h (firings_of (printed (entries_of p tree (start p tree work) h))) }
{}
