//! Laws of the order, each the contract of a function that does nothing.

ghost use Rattle.std.specs.Prelude.{◌≡◌, ℕ, List, length};
ghost use Rattle.hem_regroup.specs.declared.member.Member.{Member as Described};
ghost use Rattle.hem_regroup.specs.Members.{precedes, IsWhole};
ghost use Rattle.hem_regroup.specs.Links.{follows};
ghost use Rattle.hem_regroup.specs.Turns.{turns};
ghost use Rattle.hem_regroup.specs.Printed.{blocks_of};
ghost use Rattle.hem_regroup.specs.Normal.{all_numbered, normal_members, ArePlaced};
ghost use Rattle.hem_regroup.specs.Starts.{starts};
ghost use Rattle.hem_trace.specs.Order.{Entry, printed};

/// The order is the same where a transaction waits only for those whose members stand next before its own at some
/// object. It is so whether or not transactions precede each other in a circle.
pub fn neighbours_give_the_order()
    ensures { (members : List Described) (left : List ℕ) → IsWhole members left → turns (length left) (follows members) left ≡ turns (length left) (precedes members) left }
{}

/// The printed blocks of entries are those of their numbered firings.
pub fn numbered_firings_give_the_printed_blocks()
    ensures { (entries : List Entry) → ArePlaced 0 entries → printed entries ≡ blocks_of (normal_members (all_numbered entries)) (starts 0 (all_numbered entries)) }
{}
