//! The channels of all edges of the tree on a line.

ghost use Rattle.std.specs.Prelude.{◌≡◌, ◌+◌, ◌<◌, [], ◌∷◌, ◌++◌, length, IfOk};
ghost use Rattle.hem_wiring.specs.Wiring.{IsChannel, IsNewEdge, IsJoined, IsJoinedAt, AreEnds};

use hem_base::{List, ObjectId, OutOfMemory};
use hem_ends::{KidEnds, LineEnds};
use hem_tree::Tree;
use hem_wire::{Net, Receiver, Sender};
use std::alloc::Global;

/// The two ends of a new channel.
fn make_channel<N: Net>(
    alloc: Global,
    net: &mut N,
    slots: usize,
) -> Result<(Sender<N::Out>, Receiver<N::In>), OutOfMemory>
    requires { 0 < slots }
    ensures { IfOk result (λ ends. IsChannel slots ends.0 ends.1) }
{
    let (tx, rx) = net.pair(alloc, slots)?;
    Ok((Sender::new(tx), Receiver::new(rx)))
}

/// The ends of a new edge: the parent's, and those of a child without children yet.
fn make_edge<N: Net>(
    alloc: Global,
    net: &mut N,
    slots: usize,
) -> Result<(KidEnds<N>, LineEnds<N>), OutOfMemory>
    requires { 0 < slots }
    ensures { IfOk result (λ ends. IsNewEdge slots ends.0 ends.1) }
{
    let (up_requests, requests) = make_channel(alloc, net, slots)?;
    let (up_responses, responses) = make_channel(alloc, net, slots)?;
    let (to_child, from_parent) = make_channel(alloc, net, slots)?;
    Ok((
        KidEnds {
            requests,
            responses,
            down: to_child,
        },
        LineEnds {
            up_requests: Some(up_requests),
            up_responses: Some(up_responses),
            down: Some(from_parent),
            kids: List::new(alloc),
        },
    ))
}

/// Makes an edge to one child more of an object. Gives the child's ends.
fn join<N: Net>(
    alloc: Global,
    net: &mut N,
    slots: usize,
    parent: &mut LineEnds<N>,
) -> Result<LineEnds<N>, OutOfMemory>
    requires { 0 < slots }
    ensures { IfOk result (λ low. IsJoined slots parent.old parent.new low) }
{
    let (kid, own) = make_edge(alloc, net, slots)?;
    parent.kids.push(kid)?;
    Ok(own)
}

/// The same of the object at a place.
fn join_at<N: Net>(
    alloc: Global,
    net: &mut N,
    slots: usize,
    row: &mut List<LineEnds<N>>,
    place: usize,
) -> Result<LineEnds<N>, OutOfMemory>
    requires slots { 0 < slots }
    requires there { place < length row.old }
    ensures { IfOk result (λ low. IsJoinedAt slots place row.old row.new low) }
{
    let parent = row.at_mut(place);
    join(alloc, net, slots, parent)
}

/// The ends of an object whose parent's ends are there, where it has one.
fn own_ends<N: Net>(
    alloc: Global,
    tree: &Tree,
    net: &mut N,
    slots: usize,
    row: &mut List<LineEnds<N>>,
    object: ObjectId,
) -> Result<LineEnds<N>, OutOfMemory>
    requires slots { 0 < slots }
    requires there { object.0 < length tree.now }
    requires row { AreEnds tree.now slots object.0 row.old }
    ensures { IfOk result (λ own. AreEnds tree.now slots (object.0 + 1) (row.new ++ own ∷ [])) }
{
    let _objects = tree.objects();
    match tree.parent(object) {
        Some(parent) => join_at(alloc, net, slots, row, parent.0 as usize),
        None => Ok(LineEnds {
            up_requests: None,
            up_responses: None,
            down: None,
            kids: List::new(alloc),
        }),
    }
}

/// The ends of all objects on a line, joined by new channels of so many slots.
pub(crate) fn all_ends<N: Net>(
    alloc: Global,
    tree: &Tree,
    net: &mut N,
    slots: usize,
) -> Result<List<LineEnds<N>>, OutOfMemory>
    requires { 0 < slots }
    ensures { IfOk result (λ row. AreEnds tree.now slots (length tree.now) row) }
{
    let mut row = List::new(alloc);
    for o in 0..tree.objects() {
        let own = own_ends(alloc, tree, net, slots, &mut row, ObjectId(o))?;
        row.push(own)?;
    }
    Ok(row)
}
