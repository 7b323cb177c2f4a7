//! Registers, queues and rules by their places in the text.

ghost use Rattle.std.specs.Prelude.{◌≡◌, ℕ, Option, Some, Ok, IsTrue, Bool, true, length, map, is_some, slice_get, List};
ghost use Rattle.std.specs.List.{list_all, list_any};
ghost use Rattle.hem_base.specs.Sets.{has_bit};
ghost use Rattle.hem_base.specs.declared.ids.Firing.{Firing};
ghost use Rattle.hem_base.specs.declared.ids.MsgId.{MsgId};
ghost use Rattle.hem_base.specs.declared.ids.Kind.{Kind};
ghost use Rattle.hem_base.specs.declared.ids.RuleId.{RuleId};
ghost use Rattle.hem_syntax.specs.declared.rule.Rule.{Rule};
ghost use Rattle.hem_syntax.specs.declared.rule.Take.{Take};
ghost use Rattle.hem_syntax.specs.declared.rule.Take.TheVariants as take;
ghost use Rattle.hem_template.specs.declared.template_name.TemplateName.{TemplateName};
ghost use Rattle.hem_syntax.specs.Protocol.{Protocol, part, rule_named};
ghost use Rattle.hem_object.specs.Local.{Local, IsWellFormed};
ghost use Rattle.hem_syntax.specs.Lawful.{IsProtocol, is_rule, counts_of};
ghost use Rattle.hem_template.specs.Template.{template_of};
ghost use Rattle.hem_rows.specs.Rows.{AllHaveTemplates};
ghost use Rattle.hem_fire.specs.Heads.{awaited_of};
ghost use Rattle.hem_fire.specs.Heads.{Heads};
ghost use Rattle.hem_fire.specs.OneFire.{me_fits, can_fire, local_after};
ghost use Rattle.hem_tree.specs.Tree.{Tree, IsLawful, kind_of, children_of};
ghost use Rattle.hem_system.specs.State.{Line, local_at, is_own_child, place_of_me, effect_of};
ghost use Rattle.hem_module.specs.Module.{Action, ModRule};
ghost use Rattle.hem_module.specs.Places.{places};
ghost use Rattle.hem_module.specs.Step.{Held, mod_can, after_actions, loses_head};
ghost use Rattle.hem_emit.specs.Names.{Reg, Queue, same_reg, same_queue, names};
ghost use Rattle.hem_emit.specs.Place.{Place};
ghost use Rattle.hem_emit.specs.Clauses.{requests_of, parent_queue, responses_of};
ghost use Rattle.hem_emit.specs.Actions.{take_actions, actions_of};
ghost use Rattle.hem_emit.specs.Emit.{named_at, place_of, rule_at, emitted_rules};
ghost use Rattle.hem_emit.specs.Image.{image};
ghost use Rattle.hem_emit.specs.Layout.{registers, queues, place_of_reg, place_of_queue};
ghost use Rattle.hem_emit.specs.Numbering.{are_apart, action_by, rule_by, action_known, rule_known, OneToOne, Agree, reg_number, queue_number, has_reg, has_queue, over_numbers, same_child, slots, rule_in, same_name, name_of, Slot, IsSlot};
ghost use Rattle.hem_emit.specs.Shows.{AreKids, Shows, ShowsRegisters};

/// Two registers with one place in text order are one, and so are two queues; none is named twice.
pub fn registers_and_queues_have_one_place_each()
    ensures registers { (p : Protocol) (tree : Tree) (r q : Reg) (i : ℕ) → place_of_reg p tree r ≡ Some i → place_of_reg p tree q ≡ Some i → r ≡ q }
    ensures queues { (tree : Tree) (a b : Queue) (i : ℕ) → place_of_queue tree a ≡ Some i → place_of_queue tree b ≡ Some i → a ≡ b }
    ensures registers_apart { (p : Protocol) (tree : Tree) → are_apart same_reg (registers p tree) ≡ true }
    ensures queues_apart { (tree : Tree) → are_apart same_queue (queues tree) ≡ true }
{}

/// The places of registers and queues that are there are one to one with them. Where known names go to numbers one to one, a rule that names what is known steps over numbers exactly where it steps over names, and to the same state.
pub fn steps_over_numbers_are_steps_over_names()
    ensures places { (p : Protocol) (tree : Tree) → OneToOne names places (reg_number p tree) (queue_number tree) (has_reg p tree) (has_queue tree) }
    ensures agrees { (p : Protocol) (tree : Tree) (s : Held Reg Queue) → Agree (reg_number p tree) (queue_number tree) (has_reg p tree) (has_queue tree) s (over_numbers p tree s) }
    ensures can { (f : Reg → ℕ) (g : Queue → ℕ) (has : Reg → Bool) (hasq : Queue → Bool) (s : Held Reg Queue) (t : Held ℕ ℕ) → OneToOne names places f g has hasq → Agree f g has hasq s t → (rule : ModRule Reg Queue) → rule_known has hasq rule ≡ true → mod_can t (rule_by f g rule) ≡ mod_can s rule }
    ensures leads { (f : Reg → ℕ) (g : Queue → ℕ) (has : Reg → Bool) (hasq : Queue → Bool) (s : Held Reg Queue) (t : Held ℕ ℕ) → OneToOne names places f g has hasq → Agree f g has hasq s t → (actions : List (Action Reg Queue)) → list_all (action_known has hasq) actions ≡ true → Agree f g has hasq (after_actions names s actions) (after_actions places t (map (action_by f g) actions)) }
{}

/// The module rules are those of the slots, by object, rule and child; no two have one name, and each object, rule and child that fits names one. A rule is named with a child, or with none, exactly where that fits, and once.
pub fn rules_are_named_after_firings()
    ensures slots { (p : Protocol) (tree : Tree) → map (rule_in p tree) (slots p tree) ≡ emitted_rules p tree }
    ensures apart { (p : Protocol) (tree : Tree) → IsProtocol p → are_apart same_name (map name_of (slots p tree)) ≡ true }
    ensures there { (p : Protocol) (tree : Tree) (o : ℕ) (kind : Kind) (r : RuleId) (rule : Rule) (me : Option ℕ) → kind_of tree o ≡ Some kind → rule_named p kind r ≡ Some rule → me_fits kind rule.take me (length (children_of tree o)) ≡ true → list_any (same_name (record { object = o; rule = rule.name.0; me = me })) (map name_of (slots p tree)) ≡ true }
    ensures firing { (p : Protocol) (tree : Tree) → IsProtocol p → (i : ℕ) (s : Slot) → slice_get (slots p tree) i ≡ Some s → IsSlot p tree s }
    ensures fits { (kind : Kind) (tk : Take) (me : Option ℕ) (n : ℕ) → list_any (same_child me) (named_at kind tk n) ≡ me_fits kind tk me n }
    ensures once { (kind : Kind) (tk : Take) (n : ℕ) → are_apart same_child (named_at kind tk n) ≡ true }
{}

/// A rule that is translated names only registers and queues that are there, and so do all module rules of a protocol of which each rule has a template.
pub fn module_rules_name_what_is_there()
    ensures rule { (p : Protocol) (tree : Tree) (o : ℕ) (kind : Kind) (rule : Rule) (t : TemplateName) (me : Option ℕ) → IsLawful tree → kind_of tree o ≡ Some kind → template_of p kind rule ≡ Ok t → IsTrue (is_rule (counts_of p (part p kind)) rule) → IsTrue (me_fits kind rule.take me (length (children_of tree o))) → rule_known (has_reg p tree) (has_queue tree) (rule_at p (place_of p tree o kind) rule me) ≡ true }
    ensures all { (p : Protocol) (tree : Tree) → IsProtocol p → AllHaveTemplates p → IsLawful tree → list_all (rule_known (has_reg p tree) (has_queue tree)) (emitted_rules p tree) ≡ true }
{}
