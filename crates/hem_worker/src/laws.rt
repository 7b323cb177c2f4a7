//! That what an object does on a line is its part of it, and what hinders its firings. Each function does nothing, and its
//! contract is a law.

ghost use Rattle.std.specs.Prelude.{◌≡◌, ℕ, ◌≤◌, List, Option, Some, length};
ghost use Rattle.hem_base.specs.declared.ids.Kind.{Kind};
ghost use Rattle.hem_base.specs.declared.ids.LineId.{LineId};
ghost use Rattle.hem_base.specs.declared.ids.ObjectId.{ObjectId};
ghost use Rattle.hem_base.specs.declared.ids.Firing.{Firing};
ghost use Rattle.hem_base.specs.declared.ids.Message.{Message};
ghost use Rattle.hem_syntax.specs.Protocol.{Protocol};
ghost use Rattle.hem_syntax.specs.Lawful.{IsProtocol};
ghost use Rattle.hem_object.specs.Local.{Local};
ghost use Rattle.hem_tree.specs.Tree.{Tree, children_of};
ghost use Rattle.hem_system.specs.State.{Effect};
ghost use Rattle.hem_turns.specs.OnLine.{OnLine, IsSeen, HasFired, HaveFired};
ghost use Rattle.hem_worker.specs.LineParts.{Stands, HasPart, IsNew};
ghost use Rattle.hem_worker.specs.Workers.{IsLineStuck};
ghost use Rattle.hem_worker.specs.Hindered.{effect_there, IsHindered};

/// A new line has the empty part. A look, a turn that fires, and so many of them lengthen an object's part on a line to a part.
pub fn turns_lengthen_parts()
    ensures begins { (p : Protocol) (tree : Tree) (k l o : ℕ) (line : OnLine) → IsNew (length (children_of tree o)) line → HasPart p tree k l o (Some line.local) line.requests line }
    ensures looks { (p : Protocol) (tree : Tree) (k l o : ℕ) (start : Option Local) (requests : List Message) (old new : OnLine) → HasPart p tree k l o start requests old → IsSeen old new → HasPart p tree k l o start requests new }
    ensures fires { (p : Protocol) (tree : Tree) (kind : Kind) (k : ℕ) (line : LineId) (object : ObjectId) (children : List ObjectId) (start : Option Local) (requests : List Message) (old new : OnLine) → IsProtocol p → Stands tree object kind children → HasPart p tree k line.0 object.0 start requests old → HasFired p kind k line object children old new → HasPart p tree k line.0 object.0 start requests new }
    ensures all { (p : Protocol) (tree : Tree) (kind : Kind) (k : ℕ) (line : LineId) (object : ObjectId) (children : List ObjectId) (start : Option Local) (requests : List Message) (n most : ℕ) (old new : OnLine) → n ≤ most → IsProtocol p → Stands tree object kind children → HasPart p tree k line.0 object.0 start requests old → HaveFired p kind k line object children n most old new → HasPart p tree k line.0 object.0 start requests new }
{}

/// Where nothing is chosen on a line, each firing of the object that is possible with what its ends know to wait is
/// hindered.
pub fn stuck_lines_are_hindered()
    ensures { (p : Protocol) (tree : Tree) (kind : Kind) (self_count : ℕ) (children : List ObjectId) (line : OnLine) (f : Firing) (e : Effect) → Stands tree f.object kind children → length line.ends.kids ≡ length (children_of tree f.object.0) → IsLineStuck p kind self_count line → effect_there p tree line f ≡ Some e → IsHindered p tree self_count line f e }
{}
