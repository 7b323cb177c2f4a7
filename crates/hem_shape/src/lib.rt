//! The shape of one transaction: which firings it makes, and at which objects. Nothing runs here: each function does
//! nothing, and its contract is a law.
#![tactic(auto)]

ghost use Rattle.std.specs.Prelude.{◌≡◌, ◌≢◌, ◌<◌, ◌≤◌, ◌⊎◌, ℕ, true, List, [], ◌∷◌, ◌++◌, length, Some};
ghost use Rattle.hem_template.specs.declared.template_name.TemplateName.{TemplateName};
ghost use Rattle.hem_tree.specs.Tree.{Tree, parent_of, IsTree};
ghost use Rattle.hem_shape.specs.Progress.{Progress, IsBlank};
ghost use Rattle.hem_shape.specs.Move.{Move, CanMove, progress_after};
ghost use Rattle.hem_shape.specs.Shape.{HasShape};
ghost use Rattle.hem_shape.specs.Roles.{is_role, HasRoles, IsBeside};
ghost use Rattle.hem_shape.specs.Ways.{HasWays};
ghost use Rattle.hem_shape.specs.Phases.{Made, HasPhases, made_by};

/// Each firing keeps the shape of its transaction.
pub fn firings_keep_the_shape()
    ensures { (tree : Tree) (m : Move) (t : TemplateName) (at : Progress) → IsTree tree → HasShape tree at → CanMove tree m t at → HasShape tree (progress_after tree m t at) }
{}

/// A transaction first only sends upward, along the way to its highest object. From its anchor there, the first firing
/// that is no request upward, it sends no more request upward and stays in that object's subtree.
pub fn firings_keep_the_phases()
    ensures { (tree : Tree) (m : Move) (t : TemplateName) (at : Progress) (made : List Made) → IsTree tree → HasShape tree at → CanMove tree m t at → HasPhases tree at made → HasPhases tree (progress_after tree m t at) (made ++ made_by m t ∷ []) }
{}

/// At each object a transaction has a role of at most three templates, and where it goes on it has fired there or beside;
/// of two objects at which it has fired the later one's parent is one too.
pub fn firings_keep_roles()
    ensures kept { (tree : Tree) (m : Move) (t : TemplateName) (at : Progress) → IsTree tree → HasShape tree at → CanMove tree m t at → HasRoles at → HasRoles (progress_after tree m t at) }
    ensures three { (ts : List TemplateName) → is_role ts ≡ true → length ts ≤ 3 }
    ensures connected { (tree : Tree) (at : Progress) (made : List Made) (o earlier : ℕ) → IsTree tree → HasPhases tree at made → earlier < o → at.fired o ≢ [] → at.fired earlier ≢ [] → (high : ℕ) × (parent_of tree o ≡ Some high) × (at.fired high ≢ []) }
    ensures beside { (tree : Tree) (m : Move) (t : TemplateName) (at : Progress) → HasShape tree at → CanMove tree m t at → IsBlank at ⊎ IsBeside tree at m.object }
{}

/// Along each edge between objects at which it has fired a transaction has gone one way: up by the child's request or
/// down by the parent's.
pub fn firings_go_one_way()
    ensures { (tree : Tree) (m : Move) (t : TemplateName) (at : Progress) (moves : List Move) → IsTree tree → HasShape tree at → CanMove tree m t at → HasWays tree at moves → HasWays tree (progress_after tree m t at) (moves ++ m ∷ []) }
{}
