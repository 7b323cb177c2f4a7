//! Settling the edge between two workers.

ghost use Rattle.std.specs.Prelude.{◌≡◌, ◌<◌, ℕ, length, slice_get, Some};
ghost use Rattle.hem_syntax.specs.Protocol.{Protocol as Written};
ghost use Rattle.hem_tree.specs.Tree.{Tree as Described};
ghost use Rattle.hem_system.specs.State.{State};
ghost use Rattle.hem_ends.specs.Ends.{Kid};
ghost use Rattle.hem_ends.specs.Edges.{IsEdge};
ghost use Rattle.hem_turns.specs.OnLine.{OnLine as Seen};
ghost use Rattle.hem_worker.specs.Workers.{AreParts};
ghost use Rattle.hem_worker.specs.Edges.{AreJoined, IsLineSettled, AreSettled, channels};
ghost use Rattle.hem_worker.specs.Settling.{IsSettledOn};

use crate::worker::Worker;
use hem_base::List;
use hem_turns::OnLine;
use hem_wire::Net;

/// Settles the edge to the child at a place on a line.
fn settle_line<N: Net>(net: &mut N, high: &mut OnLine<N>, place: usize, low: &mut OnLine<N>)
    requires there { place < length high.old.ends.kids }
    requires edge { (kid : Kid) → slice_get high.old.ends.kids place ≡ Some kid → IsEdge kid low.old.ends }
    ensures { IsLineSettled place high.old high.new low.old low.new }
{
    hem_ends::settle_edge(net, &mut high.ends, place, &mut low.ends);
}

/// The same on the line at a place.
fn settle_on<N: Net>(
    net: &mut N,
    line: usize,
    upper: &mut List<OnLine<N>>,
    place: usize,
    lower: &mut List<OnLine<N>>,
)
    requires upper { line < length upper.old }
    requires lower { line < length lower.old }
    requires there { (high : Seen) → slice_get upper.old line ≡ Some high → place < length high.ends.kids }
    requires joined { (high low : Seen) (kid : Kid) → slice_get upper.old line ≡ Some high → slice_get lower.old line ≡ Some low → slice_get high.ends.kids place ≡ Some kid → IsEdge kid low.ends }
    ensures { IsSettledOn line place upper.old upper.new lower.old lower.new }
{
    let high = upper.at_mut(line);
    let low = lower.at_mut(line);
    settle_line(net, high, place, low);
}

/// The same on all lines.
fn settle_all<N: Net>(
    net: &mut N,
    upper: &mut List<OnLine<N>>,
    place: usize,
    lower: &mut List<OnLine<N>>,
)
    requires lines { length lower.old ≡ length upper.old }
    requires there { (l : ℕ) (high : Seen) → slice_get upper.old l ≡ Some high → place < length high.ends.kids }
    requires joined { AreJoined place upper.old lower.old }
    ensures { AreSettled place upper.old upper.new lower.old lower.new }
{
    for line in 0..upper.len() {
        settle_on(net, line, upper, place, lower);
    }
}

/// Settles the three channels of the edge to the child at a place on each line. `lower` is that child's worker.
pub fn settle_edge<N: Net>(net: &mut N, upper: &mut Worker<N>, place: usize, lower: &mut Worker<N>)
    requires there { place < length upper.old.children }
    requires lines { length lower.old.lines ≡ length upper.old.lines }
    requires joined { AreJoined place upper.old.lines lower.old.lines }
    ensures settled { AreSettled place upper.old.lines upper.new.lines lower.old.lines lower.new.lines }
    ensures upper { upper.new ≡ record upper.old { lines = upper.new.lines } }
    ensures lower { lower.new ≡ record lower.old { lines = lower.new.lines } }
    ensures upper_parts { (p : Written) (tree : Described) (start : State) → AreParts p tree start upper.old → AreParts p tree start upper.new }
    ensures lower_parts { (p : Written) (tree : Described) (start : State) → AreParts p tree start lower.old → AreParts p tree start lower.new }
    ensures upper_channels { channels upper.new ≡ channels upper.old }
    ensures lower_channels { channels lower.new ≡ channels lower.old }
{
    settle_all(net, &mut upper.lines, place, &mut lower.lines);
}
