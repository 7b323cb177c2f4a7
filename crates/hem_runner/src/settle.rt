//! Settling all edges of a crew.

ghost use Rattle.std.specs.Prelude.{◌≡◌, ◌<◌, ℕ, length, slice_get, Some};
ghost use Rattle.hem_syntax.specs.Protocol.{Protocol as Written};
ghost use Rattle.hem_worker.specs.Workers.{Worker as Seen};
ghost use Rattle.hem_crew.specs.Rounds.{AreAllSettled};
ghost use Rattle.hem_runner.specs.Settles.{IsCrewOf, FitTogether, AreSettledTogether, IsSettledAt, AreSettledFor};

use crate::pairs::at_two;
use hem_base::ObjectId;
use hem_tree::Tree;
use hem_wire::Net;
use hem_worker::{Worker, settle_edge};

/// Settles the edge between the worker at a place and that of its child, which is the child at this place among its children.
fn settle_at<N: Net>(net: &mut N, crew: &mut [Worker<N>], upper: usize, place: usize, lower: usize)
    requires order { upper < lower }
    requires inside { lower < length crew.old }
    requires fit { (high low : Seen) → slice_get crew.old upper ≡ Some high → slice_get crew.old lower ≡ Some low → FitTogether place high low }
    ensures { IsSettledAt place upper lower crew.old crew.new }
{
    let settle = |high: &mut Worker<N>, low: &mut Worker<N>|
        requires { FitTogether place high.old low.old }
        ensures { AreSettledTogether place high.old high.new low.old low.new }
    { settle_edge(net, high, place, low) };
    at_two(crew, upper, lower, settle);
}

/// Settles the edges to all children of an object.
fn settle_below<N: Net>(net: &mut N, tree: &Tree, high: ObjectId, crew: &mut [Worker<N>])
    requires there { high.0 < length tree.now }
    requires crew { IsCrewOf tree.now crew.old }
    ensures { AreSettledFor (λ o parent. parent ≡ high.0) tree.now crew.old crew.new }
{
    // That the tree is lawful.
    let _objects = tree.objects();
    let children = tree.children(high);
    for place in 0..children.len() {
        let low = children[place];
        settle_at(net, crew, high.0 as usize, place, low.0 as usize);
    }
}

/// Settles all edges: after it the ends of each channel know all that both did, and before it they knew no more.
pub(crate) fn settle_all<N: Net>(net: &mut N, tree: &Tree, crew: &mut [Worker<N>])
    requires { IsCrewOf tree.now crew.old }
    ensures { (p : Written) → AreAllSettled p tree.now crew.old crew.new }
{
    for high in 0..tree.objects() {
        settle_below(net, tree, ObjectId(high), crew);
    }
}
