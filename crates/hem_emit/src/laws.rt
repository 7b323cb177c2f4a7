//! Laws of the modules that a protocol is translated to, each the contract of a function that does nothing.

ghost use Rattle.std.specs.Prelude.{◌≡◌, ℕ, List, Option, Some, Ok, IsTrue, Bool, true, false, [], length, is_some, slice_get, option_map};
ghost use Rattle.hem_base.specs.Sets.{has_bit};
ghost use Rattle.hem_base.specs.declared.ids.Firing.{Firing};
ghost use Rattle.hem_base.specs.declared.ids.MsgId.{MsgId};
ghost use Rattle.hem_base.specs.declared.ids.Kind.{Kind};
ghost use Rattle.hem_syntax.specs.declared.rule.Rule.{Rule};
ghost use Rattle.hem_syntax.specs.declared.rule.Take.TheVariants as take;
ghost use Rattle.hem_template.specs.declared.template_name.TemplateName.{TemplateName};
ghost use Rattle.hem_syntax.specs.Protocol.{Protocol, part, rule_named};
ghost use Rattle.hem_object.specs.Local.{Local, IsWellFormed};
ghost use Rattle.hem_syntax.specs.Lawful.{IsProtocol, is_rule, counts_of};
ghost use Rattle.hem_work.specs.Work.{Work};
ghost use Rattle.hem_work.specs.Lawful.{IsLawfulWork};
ghost use Rattle.hem_template.specs.Template.{template_of};
ghost use Rattle.hem_fire.specs.Heads.{awaited_of};
ghost use Rattle.hem_fire.specs.Heads.{Heads};
ghost use Rattle.hem_fire.specs.OneFire.{me_fits, can_fire, local_after, outs_of};
ghost use Rattle.hem_tree.specs.Tree.{Tree, IsTree, IsLawful, kind_of, children_of};
ghost use Rattle.hem_system.specs.State.{State, Line, Runs, start, local_at, is_own_child, place_of_me, effect_of, line_after};
ghost use Rattle.hem_system.specs.declared.lane.Lane.{Lane};
ghost use Rattle.hem_system.specs.declared.lane.Lane.TheVariants.{UpRequests, UpResponses, Down, Answers};
ghost use Rattle.hem_module.specs.Step.{Held, mod_can, mod_step, after_actions, loses_head, appended};
ghost use Rattle.hem_emit.specs.Names.{Reg, Queue, same_lane, same_queue, names};
ghost use Rattle.hem_emit.specs.Place.{Place};
ghost use Rattle.hem_emit.specs.Clauses.{requests_of, parent_queue, responses_of};
ghost use Rattle.hem_emit.specs.Actions.{take_actions, child_queue, actions_of};
ghost use Rattle.hem_emit.specs.Emit.{place_of, rule_at};
ghost use Rattle.hem_emit.specs.Image.{item_of, image};
ghost use Rattle.hem_emit.specs.Formed.{IsLine};
ghost use Rattle.hem_emit.specs.Numbering.{has_reg, has_queue};
ghost use Rattle.hem_emit.specs.Sent.{to_own, to_child};
ghost use Rattle.hem_emit.specs.Shows.{AreKids, Shows, ShowsRegisters};

/// In a state that shows an object's local state and heads, the clauses of a rule there hold exactly where the rule can fire.
pub fn clauses_hold_where_rules_can_fire()
    ensures { (p : Protocol) (at : Place) (rule : Rule) (t : TemplateName) (me : Option ℕ) (local : Local) (heads : Heads) (s : Held Reg Queue) → template_of p at.kind rule ≡ Ok t → IsTrue (is_rule (counts_of p (part p at.kind)) rule) → IsTrue (me_fits at.kind rule.take me (length at.kids)) → at.statuses ≡ length p.statuses → AreKids at.kind at.kids → IsWellFormed p at.kind (length at.kids) local → Shows at me local heads s → mod_can s (rule_at p at rule me) ≡ can_fire p at.kind rule me local heads }
{}

/// In the image of a line, reachable or not, the clauses of a rule hold exactly where its firing is possible.
pub fn rules_step_where_firings_are_possible()
    ensures { (p : Protocol) (tree : Tree) (line : Line) (f : Firing) (kind : Kind) (rule : Rule) (t : TemplateName) (local : Local) → IsLawful tree → kind_of tree f.object.0 ≡ Some kind → rule_named p kind f.rule ≡ Some rule → template_of p kind rule ≡ Ok t → IsTrue (is_rule (counts_of p (part p kind)) rule) → is_own_child tree f.object.0 f.me ≡ true → IsTrue (me_fits kind rule.take (place_of_me tree f.object.0 f.me) (length (children_of tree f.object.0))) → local_at line f.object.0 ≡ Some local → IsWellFormed p kind (length (children_of tree f.object.0)) local → mod_can (image tree line) (rule_at p (place_of p tree f.object.0 kind) rule (place_of_me tree f.object.0 f.me)) ≡ is_some (effect_of p tree line f) }
{}

/// In the image of a line, reachable or not, a module rule steps exactly where its firing is possible, and to the image of the line to which the firing leads.
pub fn module_rules_step_as_firings_do()
    ensures { (p : Protocol) (tree : Tree) (line : Line) (f : Firing) (kind : Kind) (rule : Rule) (t : TemplateName) (local : Local) → IsLawful tree → kind_of tree f.object.0 ≡ Some kind → rule_named p kind f.rule ≡ Some rule → template_of p kind rule ≡ Ok t → IsTrue (is_rule (counts_of p (part p kind)) rule) → is_own_child tree f.object.0 f.me ≡ true → IsTrue (me_fits kind rule.take (place_of_me tree f.object.0 f.me) (length (children_of tree f.object.0))) → length line ≡ length tree → local_at line f.object.0 ≡ Some local → IsWellFormed p kind (length (children_of tree f.object.0)) local → mod_step names (image tree line) (rule_at p (place_of p tree f.object.0 kind) rule (place_of_me tree f.object.0 f.me)) ≡ option_map (λ e. image tree (line_after tree f e line)) (effect_of p tree line f) }
{}

/// Where a rule can fire, the actions lead to registers that show what the firing leaves: fields, value, locks, directory entries and who is awaited.
pub fn actions_change_registers_as_firings_do()
    ensures { (p : Protocol) (at : Place) (rule : Rule) (t : TemplateName) (me : Option ℕ) (local : Local) (heads : Heads) (s : Held Reg Queue) → template_of p at.kind rule ≡ Ok t → IsTrue (is_rule (counts_of p (part p at.kind)) rule) → at.statuses ≡ length p.statuses → AreKids at.kind at.kids → IsWellFormed p at.kind (length at.kids) local → Shows at me local heads s → can_fire p at.kind rule me local heads ≡ true → ShowsRegisters at (local_after p at.kind rule me local heads) (after_actions names s (actions_of p at me rule)) }
{}

/// The actions take the heads that a firing takes: of the requester's requests, of the parent's messages, and of each awaited child's responses.
pub fn actions_take_heads_as_firings_do()
    ensures alone { (s : Held Reg Queue) (is_it : Queue → Bool) (p : Protocol) (at : Place) (me : Option ℕ) (rule : Rule) → loses_head s is_it (actions_of p at me rule) ≡ loses_head s is_it (take_actions at me rule.take) }
    ensures requests { (s : Held Reg Queue) (p : Protocol) (at : Place) (me : Option ℕ) (rule : Rule) (id : MsgId) → rule.take ≡ take.Me id → loses_head s (same_queue (requests_of at me)) (actions_of p at me rule) ≡ true }
    ensures parent { (s : Held Reg Queue) (p : Protocol) (at : Place) (me : Option ℕ) (rule : Rule) (id : MsgId) → rule.take ≡ take.Parent id → loses_head s (same_queue (parent_queue at)) (actions_of p at me rule) ≡ true }
    ensures responses { (s : Held Reg Queue) (p : Protocol) (at : Place) (me : Option ℕ) (rule : Rule) (local : Local) (heads : Heads) (id : MsgId) (k c : ℕ) → AreKids at.kind at.kids → Shows at me local heads s → slice_get at.kids k ≡ Some c → rule.take ≡ take.Kids id → loses_head s (same_queue (responses_of (k, c))) (actions_of p at me rule) ≡ has_bit (awaited_of local).0 k }
{}

/// Where a rule can fire, the actions append what the firing sends: to the processor and the parent, and to the requester child or the target children. They append nothing elsewhere.
pub fn actions_append_as_firings_send()
    ensures own { (p : Protocol) (at : Place) (rule : Rule) (t : TemplateName) (me : Option ℕ) (local : Local) (heads : Heads) (s : Held Reg Queue) → template_of p at.kind rule ≡ Ok t → IsTrue (is_rule (counts_of p (part p at.kind)) rule) → at.statuses ≡ length p.statuses → AreKids at.kind at.kids → IsWellFormed p at.kind (length at.kids) local → Shows at me local heads s → can_fire p at.kind rule me local heads ≡ true → (l : Lane) → same_lane l Down ≡ false → appended s (same_queue (record { object = at.object; lane = l })) (actions_of p at me rule) ≡ to_own l (outs_of p at.kind rule me local heads).to (item_of (outs_of p at.kind rule me local heads).message) }
    ensures children { (p : Protocol) (at : Place) (rule : Rule) (t : TemplateName) (me : Option ℕ) (local : Local) (heads : Heads) (s : Held Reg Queue) → template_of p at.kind rule ≡ Ok t → IsTrue (is_rule (counts_of p (part p at.kind)) rule) → at.statuses ≡ length p.statuses → AreKids at.kind at.kids → IsWellFormed p at.kind (length at.kids) local → Shows at me local heads s → can_fire p at.kind rule me local heads ≡ true → (k c : ℕ) → slice_get at.kids k ≡ Some c → appended s (same_queue (child_queue (k, c))) (actions_of p at me rule) ≡ to_child k (outs_of p at.kind rule me local heads).to (item_of (outs_of p at.kind rule me local heads).message) }
    ensures elsewhere { (s : Held Reg Queue) (is_it : Queue → Bool) (p : Protocol) (at : Place) (me : Option ℕ) (rule : Rule) → is_it (record { object = at.object; lane = Answers }) ≡ false → is_it (record { object = at.object; lane = UpRequests }) ≡ false → is_it (record { object = at.object; lane = UpResponses }) ≡ false → ((k c : ℕ) → slice_get at.kids k ≡ Some c → is_it (child_queue (k, c)) ≡ false) → appended s is_it (actions_of p at me rule) ≡ [] }
{}

/// Two lines that have an image are one where each register and each queue that is there has the same in both images.
pub fn images_tell_lines()
    ensures { (p : Protocol) (tree : Tree) (a b : Line) → IsLawful tree → IsLine p tree a → IsLine p tree b → ((r : Reg) → has_reg p tree r ≡ true → (image tree a).reg r ≡ (image tree b).reg r) → ((q : Queue) → has_queue tree q ≡ true → (image tree a).queue q ≡ (image tree b).queue q) → a ≡ b }
{}

/// Each line of a state that a history reaches has an image.
pub fn reached_lines_have_images()
    ensures { (p : Protocol) (tree : Tree) (work : Work) (h : List Firing) (now : State) (l : ℕ) (line : Line) → IsProtocol p → IsTree tree → IsLawfulWork p tree work → Runs p tree (start p tree work) h now → slice_get now l ≡ Some line → IsLine p tree line }
{}
