//! Children of an object, and their places.

ghost use Rattle.std.specs.Prelude.{◌≡◌, ◌<◌, ◌≤◌, length, map, cond, Some, None};
ghost use Rattle.hem_tree.specs.Tree.{children_of, IsLawful};
ghost use Rattle.hem_system.specs.State.{is_own_child, place_of_me};
ghost use Rattle.hem_system.specs.Found.{IsPlace};

use hem_base::ObjectId;
use hem_tree::Tree;

/// The children of an object of the tree, in order.
pub(crate) fn children_of(tree: &Tree, object: ObjectId) -> &[ObjectId]
    requires { object.0 < length tree.now }
    ensures children { map (λ id. id.0) result.now ≡ children_of tree.now object.0 }
    ensures few { length result.now ≤ 8 }
    ensures lawful { IsLawful tree.now }
{
    // That the tree is lawful, and so that an object has at most 8 children.
    let _objects = tree.objects();
    tree.children(object)
}

/// The place of an object among these, where it is among them.
fn place_in(children: &[ObjectId], child: ObjectId) -> Option<u8>
    requires { length children.now ≤ 8 }
    ensures { IsPlace children.now child.0 result }
{
    for (place, other) in children.iter().enumerate() {
        if *other == child {
            return Some(place as u8);
        }
    }
    None
}

/// The place of the child that a firing names, where it names one. There is no answer where that isn't the object's.
pub(crate) fn own_place(tree: &Tree, object: ObjectId, me: Option<ObjectId>) -> Option<Option<u8>>
    requires { object.0 < length tree.now }
    ensures { result ≡ cond (is_own_child tree.now object.0 me) (Some (place_of_me tree.now object.0 me)) None }
{
    match me {
        None => Some(None),
        Some(child) => match place_in(children_of(tree, object), child) {
            Some(place) => Some(Some(place)),
            None => None,
        },
    }
}
