//! The merge law: what each object did on its own, with stamps, is put together into a history of all. Each function does
//! nothing, and its contract is a law.
#![tactic(auto)]

ghost use Rattle.std.specs.Prelude.{◌≡◌, ℕ, ◌≤◌, true, List, Option, Some, length, map, drop, cond, IsPermutation};
ghost use Rattle.hem_syntax.specs.Protocol.{Protocol};
ghost use Rattle.hem_base.specs.declared.ids.Firing.{Firing};
ghost use Rattle.hem_base.specs.declared.ids.Message.{Message};
ghost use Rattle.hem_base.specs.declared.ids.Carried.{Carried};
ghost use Rattle.hem_base.specs.declared.ids.Stamped.{Stamped};
ghost use Rattle.hem_object.specs.Local.{Local};
ghost use Rattle.hem_tree.specs.Tree.{Tree, children_of};
ghost use Rattle.hem_work.specs.Work.{Work};
ghost use Rattle.hem_fire.specs.OneFire.{Heads};
ghost use Rattle.hem_system.specs.declared.lane.Lane.{Lane};
ghost use Rattle.hem_system.specs.declared.lane.Lane.TheVariants.{Requests};
ghost use Rattle.hem_system.specs.State.{State, Effect, is_own_child, own_effect, takes, start, run};
ghost use Rattle.hem_system.specs.Events.{Event, event_of};
ghost use Rattle.hem_trace.specs.History.{Channel, Sent, Taken, events, head_seen};
ghost use Rattle.hem_trace.specs.Blocks.{Each, SameFirings};
ghost use Rattle.hem_law.specs.Chains.{firings, ChainStep};
ghost use Rattle.hem_law.specs.Printed.{IsFresh};
ghost use Rattle.hem_parts.specs.Parts.{Made, Part, Parts, events_of};
ghost use Rattle.hem_parts.specs.Tied.{IsPart, AreTied};
ghost use Rattle.hem_parts.specs.Merged.{stamped_of, IsSorted, all_made, made_on, made_at, merged, journal, IsMergeOf};
ghost use Rattle.hem_parts.specs.Divided.{divided, IsStampedRun};
ghost use Rattle.hem_parts.specs.Restamped.{Clocks, right_stamp, stamped_history, restamped};
ghost use Rattle.hem_parts.specs.Steps.{empty_part, lengthened, IsNext, head_among, heads_from, taken_from};
ghost use Rattle.hem_parts.specs.Stamps.{IsStamp, last_stamp};

/// Tied parts, merged in any order in which no stamp falls, run from the state before them to the state after them, and
/// their events are those of that run.
pub fn merges_run()
    ensures runs { (p : Protocol) (tree : Tree) (old : State) (parts : Parts) (new : State) (xs : List Made) → IsFresh tree old → AreTied p tree old parts new → IsMergeOf parts xs → run p tree old (firings (events_of xs)) ≡ Some new }
    ensures same { (p : Protocol) (tree : Tree) (old : State) (parts : Parts) (new : State) (xs : List Made) → IsFresh tree old → AreTied p tree old parts new → IsMergeOf parts xs → events p tree old (firings (events_of xs)) ≡ events_of xs }
{}

/// What tied parts made, in the order of stamp, line and object, runs from the state before them to the state after them.
pub fn tied_parts_run()
    ensures merges { (p : Protocol) (tree : Tree) (old : State) (parts : Parts) (new : State) → IsFresh tree old → AreTied p tree old parts new → IsMergeOf parts (merged (length old) (length tree) parts) }
    ensures runs { (p : Protocol) (tree : Tree) (old : State) (parts : Parts) (new : State) → IsFresh tree old → AreTied p tree old parts new → run p tree old (firings (events_of (merged (length old) (length tree) parts))) ≡ Some new }
    ensures same { (p : Protocol) (tree : Tree) (old : State) (parts : Parts) (new : State) → IsFresh tree old → AreTied p tree old parts new → events p tree old (firings (events_of (merged (length old) (length tree) parts))) ≡ events_of (merged (length old) (length tree) parts) }
{}

/// No stamp of tied parts is greater than the number of the events on its line, nor than that of all events.
pub fn stamps_are_bounded()
    ensures line { (p : Protocol) (tree : Tree) (old : State) (parts : Parts) (new : State) (xs : List Made) (l o : ℕ) → AreTied p tree old parts new → IsMergeOf parts xs → Each (λ x. x.stamp ≤ length (made_on l xs)) (parts l o).made }
    ensures all { (p : Protocol) (tree : Tree) (old : State) (parts : Parts) (new : State) (l o : ℕ) → IsFresh tree old → AreTied p tree old parts new → Each (λ x. x.stamp ≤ length (all_made (length old) (length tree) parts)) (parts l o).made }
{}

/// An event has one right stamp, and it is 1 plus the greatest of the last stamp and of the stamps of the messages taken.
pub fn right_stamps_are_known()
    ensures once { (tree : Tree) (left : ℕ → Lane → List Carried) (last : ℕ) (e : Event) (m n : ℕ) → IsStamp tree left last e m → IsStamp tree left last e n → m ≡ n }
    ensures known { (tree : Tree) (clocks : Clocks) (e : Event) → is_own_child tree e.firing.object.0 e.firing.me ≡ true → IsStamp tree (clocks.waiting e.firing.line.0) (clocks.last e.firing.line.0 e.firing.object.0) e (right_stamp tree clocks e) }
{}

/// A part stays a part as it grows by one event, whatever the other objects do; and a firing of the object with what waits
/// in its lists is such an event.
pub fn parts_grow()
    ensures start { (p : Protocol) (tree : Tree) (l o : ℕ) (start : Option Local) (requests : List Message) → IsPart p tree l o start requests empty_part start requests }
    ensures grows { (p : Protocol) (tree : Tree) (l o : ℕ) (start : Option Local) (requests : List Message) (part : Part) (end : Option Local) (left : List Message) (x : Made) (taken : ℕ → Lane → List Carried) (next : Local) (rest : List Message) → IsPart p tree l o start requests part end left → IsNext p tree l o part end left x taken next rest → IsPart p tree l o start requests (lengthened tree part x taken) (Some next) rest }
    ensures fires { (p : Protocol) (tree : Tree) (l o : ℕ) (part : Part) (f : Firing) (now : Local) (requests : List Message) (waiting : ℕ → Lane → List Carried) (e : Effect) (stamp : ℕ) → f.line.0 ≡ l → f.object.0 ≡ o → own_effect p tree f now (heads_from tree requests waiting f.object.0 f.me) ≡ Some e → IsStamp tree waiting (last_stamp 0 part.made) (event_of f e) stamp → IsNext p tree l o part (Some now) requests (record { event = event_of f e; stamp = stamp }) (taken_from tree f e.outs waiting) e.after (drop (cond (takes tree f e.outs o Requests) 1 0) requests) }
{}

/// A firing that is possible at its object with the heads of the object's lists is a step of the object's chain, and takes
/// the heads of the lists that it takes from.
pub fn firings_are_steps()
    ensures step { (p : Protocol) (tree : Tree) (f : Firing) (now : Local) (heads : Heads) (e : Effect) → length heads.kids ≡ length (children_of tree f.object.0) → own_effect p tree f now heads ≡ Some e → ChainStep p tree (Some now) (event_of f e) e.after }
    ensures takes { (p : Protocol) (tree : Tree) (f : Firing) (now : Local) (heads : Heads) (e : Effect) (k : ℕ) (lane : Lane) → own_effect p tree f now heads ≡ Some e → takes tree f e.outs k lane ≡ true → head_seen tree (event_of f e) k lane ≡ head_among tree f.object.0 heads k lane }
{}

/// What tied parts made, as firings in the order of stamp, line and object: the firings of all parts, each as often, and
/// they run. It is the only sorted list of these firings.
pub fn journals_run()
    ensures firings { (lines objects : ℕ) (parts : Parts) → IsPermutation (map stamped_of (all_made lines objects parts)) (journal lines objects parts) }
    ensures runs { (p : Protocol) (tree : Tree) (old : State) (parts : Parts) (new : State) → IsFresh tree old → AreTied p tree old parts new → run p tree old (map (λ s. s.firing) (journal (length old) (length tree) parts)) ≡ Some new }
    ensures starts { (p : Protocol) (tree : Tree) (work : Work) (parts : Parts) (new : State) → AreTied p tree (start p tree work) parts new → run p tree (start p tree work) (map (λ s. s.firing) (journal work.lines (length tree) parts)) ≡ Some new }
    ensures once { (p : Protocol) (tree : Tree) (old : State) (parts : Parts) (new : State) (ss : List Stamped) → IsFresh tree old → AreTied p tree old parts new → IsPermutation (map stamped_of (all_made (length old) (length tree) parts)) ss → IsSorted (λ s. s) ss → ss ≡ journal (length old) (length tree) parts }
{}

/// The parts of a history with the right stamps are tied, so that the history runs in the order of its stamps too: to the
/// same state, with the same firings, and each object's in the same order.
pub fn stamped_histories_run_in_order()
    ensures parts { (p : Protocol) (tree : Tree) (old : State) (h : List Firing) (xs : List Made) (new : State) → IsFresh tree old → IsStampedRun p tree old h xs new → AreTied p tree old (divided tree xs) new }
    ensures runs { (p : Protocol) (tree : Tree) (old : State) (h : List Firing) (xs : List Made) (new : State) → IsFresh tree old → IsStampedRun p tree old h xs new → run p tree old (firings (events_of (merged (length old) (length tree) (divided tree xs)))) ≡ Some new }
    ensures same { (p : Protocol) (tree : Tree) (old : State) (h : List Firing) (xs : List Made) (new : State) → IsFresh tree old → IsStampedRun p tree old h xs new → SameFirings h (firings (events_of (merged (length old) (length tree) (divided tree xs)))) }
    ensures keeps { (p : Protocol) (tree : Tree) (old : State) (h : List Firing) (xs : List Made) (new : State) (l o : ℕ) → IsFresh tree old → IsStampedRun p tree old h xs new → made_at l o (merged (length old) (length tree) (divided tree xs)) ≡ made_at l o xs }
{}

/// Each history from a state without messages in its channels has right stamps, and runs in their order: to the same state,
/// with the same firings, each object's in the same order, and with the same messages over each channel, in order.
/// In that order it stays as it is.
pub fn restamped_histories_run()
    ensures stamps { (p : Protocol) (tree : Tree) (s : State) (h : List Firing) (new : State) → IsFresh tree s → run p tree s h ≡ Some new → IsStampedRun p tree s h (stamped_history p tree s h) new }
    ensures runs { (p : Protocol) (tree : Tree) (s : State) (h : List Firing) (new : State) → IsFresh tree s → run p tree s h ≡ Some new → run p tree s (firings (events_of (restamped p tree s h))) ≡ Some new }
    ensures same { (p : Protocol) (tree : Tree) (s : State) (h : List Firing) (new : State) → IsFresh tree s → run p tree s h ≡ Some new → SameFirings h (firings (events_of (restamped p tree s h))) }
    ensures keeps { (p : Protocol) (tree : Tree) (s : State) (h : List Firing) (new : State) (l o : ℕ) → IsFresh tree s → run p tree s h ≡ Some new → made_at l o (restamped p tree s h) ≡ made_at l o (stamped_history p tree s h) }
    ensures sent { (p : Protocol) (tree : Tree) (s : State) (h : List Firing) (new : State) (c : Channel) → IsFresh tree s → run p tree s h ≡ Some new → Sent tree (events p tree s (firings (events_of (restamped p tree s h)))) c ≡ Sent tree (events p tree s h) c }
    ensures taken { (p : Protocol) (tree : Tree) (s : State) (h : List Firing) (new : State) (c : Channel) → IsFresh tree s → run p tree s h ≡ Some new → Taken tree (events p tree s (firings (events_of (restamped p tree s h)))) c ≡ Taken tree (events p tree s h) c }
    ensures fixed { (p : Protocol) (tree : Tree) (s : State) (h : List Firing) (new : State) → IsFresh tree s → run p tree s h ≡ Some new → restamped p tree s (firings (events_of (restamped p tree s h))) ≡ restamped p tree s h }
{}
