//! Settling the channels of an edge on a line.

ghost use Rattle.std.specs.Prelude.{◌≡◌, ◌<◌, length, slice_get, Some};
ghost use Rattle.hem_ends.specs.Ends.{Kid, IfThere};
ghost use Rattle.hem_ends.specs.Edges.{IsPairSettled, IsUpSettled, IsDownSettled, IsEdge, IsKidSettled, IsEdgeSettled};

use crate::kids::KidEnds;
use crate::line::LineEnds;
use hem_base::List;
use hem_wire::{Net, Receiver, Sender, settle};

/// Settles a channel.
fn settle_pair<N: Net>(net: &mut N, tx: &mut Sender<N::Out>, rx: &mut Receiver<N::In>)
    requires { tx.old.channel ≡ rx.old.channel }
    ensures { IsPairSettled tx.old tx.new rx.old rx.new }
{
    settle(net, tx, rx);
}

/// Settles a channel to the parent, where the child has its end.
fn settle_up<N: Net>(net: &mut N, tx: &mut Option<Sender<N::Out>>, rx: &mut Receiver<N::In>)
    requires { IfThere (λ giving. giving.channel ≡ rx.old.channel) tx.old }
    ensures { IsUpSettled tx.old tx.new rx.old rx.new }
{
    if let Some(tx) = tx {
        settle_pair(net, tx, rx);
    }
}

/// Settles the channel from the parent, where the child has its end.
fn settle_down<N: Net>(net: &mut N, tx: &mut Sender<N::Out>, rx: &mut Option<Receiver<N::In>>)
    requires { IfThere (λ getting. tx.old.channel ≡ getting.channel) rx.old }
    ensures { IsDownSettled tx.old tx.new rx.old rx.new }
{
    if let Some(rx) = rx {
        settle_pair(net, tx, rx);
    }
}

/// Settles the channels between the ends of a child's edge and the child's own ends.
fn settle_kid<N: Net>(net: &mut N, kid: &mut KidEnds<N>, lower: &mut LineEnds<N>)
    requires { IsEdge kid.old lower.old }
    ensures { IsKidSettled kid.old kid.new lower.old lower.new }
{
    settle_up(net, &mut lower.up_requests, &mut kid.requests);
    settle_up(net, &mut lower.up_responses, &mut kid.responses);
    settle_down(net, &mut kid.down, &mut lower.down);
}

/// The same of the child at a place.
fn settle_at<N: Net>(
    net: &mut N,
    kids: &mut List<KidEnds<N>>,
    place: usize,
    lower: &mut LineEnds<N>,
)
    requires there { place < length kids.old }
    requires edge { (kid : Kid) → slice_get kids.old place ≡ Some kid → IsEdge kid lower.old }
    ensures { IsEdgeSettled place kids.old kids.new lower.old lower.new }
{
    let kid = kids.at_mut(place);
    settle_kid(net, kid, lower);
}

/// Settles the three channels of the edge to the child at a place, whose own ends are `lower`.
pub fn settle_edge<N: Net>(
    net: &mut N,
    upper: &mut LineEnds<N>,
    place: usize,
    lower: &mut LineEnds<N>,
)
    requires there { place < length upper.old.kids }
    requires edge { (kid : Kid) → slice_get upper.old.kids place ≡ Some kid → IsEdge kid lower.old }
    ensures edge { IsEdgeSettled place upper.old.kids upper.new.kids lower.old lower.new }
    ensures up_requests { upper.new.up_requests ≡ upper.old.up_requests }
    ensures up_responses { upper.new.up_responses ≡ upper.old.up_responses }
    ensures down { upper.new.down ≡ upper.old.down }
{
    settle_at(net, &mut upper.kids, place, lower);
}
