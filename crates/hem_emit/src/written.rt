//! Modules as they are written: their rules step as the firings that they are named after.

ghost use Rattle.std.specs.Prelude.{◌≡◌, Some, is_some};
ghost use Rattle.hem_base.specs.declared.ids.Firing.{Firing};
ghost use Rattle.hem_base.specs.declared.ids.Kind.{Kind};
ghost use Rattle.hem_syntax.specs.declared.rule.Rule.{Rule};
ghost use Rattle.hem_syntax.specs.Protocol.{Protocol};
ghost use Rattle.hem_template.specs.declared.template_name.TemplateName.{TemplateName};
ghost use Rattle.hem_object.specs.Local.{Local};
ghost use Rattle.hem_tree.specs.Tree.{Tree, IsLawful};
ghost use Rattle.hem_syntax.specs.Lawful.{IsProtocol};
ghost use Rattle.hem_rows.specs.Rows.{AllHaveTemplates};
ghost use Rattle.hem_module.specs.Lawful.{IsModules};
ghost use Rattle.hem_system.specs.State.{Line, Effect, place_of_me, effect_of, line_after};
ghost use Rattle.hem_module.specs.States.{can_fire, stepped};
ghost use Rattle.hem_emit.specs.Emit.{place_of, rule_at};
ghost use Rattle.hem_emit.specs.Formed.{IsFiring};
ghost use Rattle.hem_emit.specs.Matches.{Matches};
ghost use Rattle.hem_emit.specs.Written.{written_as, modules_of, state_of};

/// In the image of a line, as a state of modules, the written rule of a firing can fire exactly where the firing is possible, and leads to the image of the line to which the firing leads.
pub fn written_rules_step_as_firings_do()
    ensures can { (p : Protocol) (tree : Tree) (line : Line) (f : Firing) (kind : Kind) (rule : Rule) (t : TemplateName) (local : Local) → IsFiring p tree line f kind rule t local → can_fire (state_of p tree line) (written_as p tree (rule_at p (place_of p tree f.object.0 kind) rule (place_of_me tree f.object.0 f.me))) ≡ is_some (effect_of p tree line f) }
    ensures leads { (p : Protocol) (tree : Tree) (line : Line) (f : Firing) (kind : Kind) (rule : Rule) (t : TemplateName) (local : Local) (e : Effect) → IsFiring p tree line f kind rule t local → effect_of p tree line f ≡ Some e → stepped (state_of p tree line) (written_as p tree (rule_at p (place_of p tree f.object.0 kind) rule (place_of_me tree f.object.0 f.me))) ≡ state_of p tree (line_after tree f e line) }
{}

/// The modules of a protocol of which each rule has a template may be written: their names may be declared, none stands twice, no two rules have one object, name and child, and rules name only what is there.
pub fn modules_may_be_written()
    ensures { (p : Protocol) (tree : Tree) → IsProtocol p → AllHaveTemplates p → IsLawful tree → IsModules (modules_of p tree) }
{}

/// The modules of a protocol of which each rule has a template match it on a lawful tree: each module rule is named after one firing and each firing has one module rule; from the image of a line, reachable or not, the rule steps exactly where the firing is possible, and to the image of the line to which the firing leads; and the modules start in the image of the start without requests.
pub fn modules_match_the_protocol()
    ensures { (p : Protocol) (tree : Tree) → IsProtocol p → AllHaveTemplates p → IsLawful tree → Matches p tree (modules_of p tree) }
{}
