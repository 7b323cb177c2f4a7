//! Laws of abstract states. Each function does nothing, and its contract is a law.

ghost use Rattle.std.specs.Prelude.{ℕ, ◌≡◌, true, false, List, Option, None, Ok, option_map};
ghost use Rattle.std.specs.List.{list_any};
ghost use Rattle.hem_base.specs.declared.ids.Kind.{Kind};
ghost use Rattle.hem_base.specs.declared.ids.StatusSet.{StatusSet};
ghost use Rattle.hem_syntax.specs.declared.rule.Assign.{Assign};
ghost use Rattle.hem_syntax.specs.declared.rule.Atom.{Atom};
ghost use Rattle.hem_syntax.specs.declared.rule.Rule.{Rule};
ghost use Rattle.hem_syntax.specs.Protocol.{Protocol};
ghost use Rattle.hem_syntax.specs.Lawful.{set_once};
ghost use Rattle.hem_object.specs.declared.state.View.{View};
ghost use Rattle.hem_object.specs.Local.{Local};
ghost use Rattle.hem_object.specs.Guard.{holds};
ghost use Rattle.hem_object.specs.Changes.{assigned};
ghost use Rattle.hem_template.specs.declared.template_name.TemplateName.TheVariants.{ImmUp, RqDownDown, RsUpUp};
ghost use Rattle.hem_template.specs.Template.{template_of, reads_me};
ghost use Rattle.hem_fire.specs.declared.outs.Outs.{Outs};
ghost use Rattle.hem_fire.specs.OneFire.{Heads, OneFire};
ghost use Rattle.hem_abstract.specs.Abstract.{AreSmall, guard_at, abstract_of};
ghost use Rattle.hem_abstract.specs.Partners.{Partner, alone, pair, after, IsPartner, breaks};
ghost use Rattle.hem_abstract.specs.Exact.{is_me, KnowsTargets, StillStands};
ghost use Rattle.hem_abstract.specs.Stable.{first_unstable, IsOfKind};

/// A guard that reads neither the requester nor the others holds in a local state exactly where it holds in its abstract state.
pub fn abstract_guards_are_exact()
    ensures { (local : Local) (view : View) (guard : List Atom) → AreSmall local.dir → list_any reads_me guard ≡ false → guard_at guard (abstract_of local) (option_map (λ m. m.id) view.kept) ≡ holds guard local view }
{}

/// A rule's sets change the abstract state of a local state as they change the local state, where they leave the requester's
/// entry alone and the targets are the children with a target status.
pub fn abstract_sets_are_exact()
    ensures { (view : View) (targets : StatusSet) (sets : List Assign) (local : Local) → list_any is_me sets ≡ false → set_once sets ≡ true → KnowsTargets view targets sets local.dir → after (abstract_of local) sets targets ≡ abstract_of (assigned sets view local) }
{}

/// A partner that doesn't break a request in an abstract state lets it stand in each local state of which that is the
/// abstract state: an answer to the parent at once, or a request passed on and then answered.
pub fn partners_keep_requests()
    ensures at_once { (p : Protocol) (kind : Kind) (u d : Rule) (me : Option ℕ) (local : Local) (heads : Heads) (next : Local) (outs : Outs) → template_of p kind d ≡ Ok ImmUp → set_once d.sets ≡ true → AreSmall local.dir → OneFire p kind d me local heads next outs → guard_at u.guard (abstract_of local) None ≡ true → breaks u (alone d) (abstract_of local) ≡ false → StillStands u local next }
    ensures passed_on { (p : Protocol) (kind : Kind) (u q r : Rule) (mq mr : Option ℕ) (local : Local) (hq hr : Heads) (mid next : Local) (outs_q outs_r : Outs) → template_of p kind q ≡ Ok RqDownDown → template_of p kind r ≡ Ok RsUpUp → set_once r.sets ≡ true → AreSmall local.dir → OneFire p kind q mq local hq mid outs_q → OneFire p kind r mr mid hr next outs_r → guard_at u.guard (abstract_of local) None ≡ true → breaks u (pair q r) (abstract_of local) ≡ false → StillStands u local next }
{}

/// No partner breaks a rule of which the kind has no breach, in the abstract state of any local state of the kind.
pub fn stable_rules_are_never_broken()
    ensures { (p : Protocol) (kind : Kind) (u : Rule) (d : Partner) (local : Local) → first_unstable p kind u ≡ None → IsPartner p kind d → IsOfKind p kind local → breaks u d (abstract_of local) ≡ false }
{}
