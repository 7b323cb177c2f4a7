//! What the template of a rule says of the rule and of its firings at one object. Each function does nothing, and its
//! contract is a law.
#![tactic(auto)]

ghost use Rattle.std.specs.Prelude.{◌≡◌, ℕ, List, map, Option, Ok};
ghost use Rattle.hem_base.specs.declared.ids.Kind.{Kind};
ghost use Rattle.hem_base.specs.declared.ids.Kind.TheVariants.{Root, Mid, Leaf};
ghost use Rattle.hem_syntax.specs.declared.rule.Rule.{Rule};
ghost use Rattle.hem_template.specs.declared.template_name.TemplateName.{TemplateName};
ghost use Rattle.hem_syntax.specs.Protocol.{Protocol};
ghost use Rattle.hem_object.specs.Local.{Local};
ghost use Rattle.hem_template.specs.Template.{template_of, row_of};
ghost use Rattle.hem_fire.specs.declared.outs.Outs.{Outs};
ghost use Rattle.hem_fire.specs.OneFire.{Heads, OneFire};
ghost use Rattle.hem_rows.specs.Rows.{IsOfRow, AllHaveTemplates};
ghost use Rattle.hem_rows.specs.Acts.{Acts};

/// A rule that has a template is made as the template's row says.
pub fn rules_have_rows()
    ensures { (p : Protocol) (kind : Kind) (rule : Rule) (t : TemplateName) → template_of p kind rule ≡ Ok t → IsOfRow p kind rule t }
{}

/// A firing of a rule that has a template acts as the template's row says.
pub fn firings_act_as_rows()
    ensures { (p : Protocol) (kind : Kind) (rule : Rule) (t : TemplateName) (me : Option ℕ) (local : Local) (heads : Heads) (after : Local) (outs : Outs) → template_of p kind rule ≡ Ok t → OneFire p kind rule me local heads after outs → Acts p kind (row_of t) me local heads after outs }
{}

/// A protocol whose lists of rules have templates is one of which each rule that a firing can name has a template.
pub fn lists_of_templates_are_enough()
    ensures { (p : Protocol) (root mid leaf : List TemplateName) → map (template_of p Root) p.root.rules ≡ map Ok root → map (template_of p Mid) p.mid.rules ≡ map Ok mid → map (template_of p Leaf) p.leaf.rules ≡ map Ok leaf → AllHaveTemplates p }
{}
