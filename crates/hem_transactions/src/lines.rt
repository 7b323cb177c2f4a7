//! The numbers that messages carry on all lines.

ghost use Rattle.std.specs.Prelude.{◌≡◌, ◌<◌, true, length, IfOk, OnOk};
ghost use Rattle.hem_system.specs.State.{is_own_child};
ghost use Rattle.hem_trace.specs.Tags.{Tags, no_tags, tags_after, number_at};
ghost use Rattle.hem_transactions.specs.Carried.{HaveLists, Carry};

use crate::line::LineNumbers;
use hem_base::{List, OutOfMemory};
use hem_system::Event;
use hem_tree::Tree;
use std::alloc::Global;

/// So many lines, with no message.
pub(crate) fn no_messages(
    alloc: Global,
    count: u32,
    tree: &Tree,
) -> Result<List<LineNumbers>, OutOfMemory>
    ensures size { IfOk result (λ lines. length lines ≡ count) }
    ensures lists { IfOk result (HaveLists tree.now) }
    ensures none { IfOk result (Carry no_tags) }
{
    let objects = tree.objects();
    let mut lines = List::new(alloc);
    for _line in 0..count {
        let line = LineNumbers::new(alloc, objects)?;
        lines.push(line)?;
    }
    Ok(lines)
}

/// Follows an event that stands at a place of the history: what it takes takes its number along, and what it sends
/// carries the event's number, which is the answer.
pub(crate) fn follow(
    lines: &mut List<LineNumbers>,
    tree: &Tree,
    event: &Event,
    place: usize,
) -> Result<usize, OutOfMemory>
    requires line { event.now.firing.line.0 < length lines.old }
    requires object { event.now.firing.object.0 < length tree.now }
    requires own { is_own_child tree.now event.now.firing.object.0 event.now.firing.me ≡ true }
    requires lists { HaveLists tree.now lines.old }
    ensures size { OnOk result (length lines.new ≡ length lines.old) }
    ensures lists { OnOk result (HaveLists tree.now lines.new) }
    ensures number { IfOk result (λ number. (tags : Tags) → Carry tags lines.old → number ≡ number_at tree.now tags place event.now) }
    ensures carry { IfOk result (λ number. (tags : Tags) → Carry tags lines.old → Carry (tags_after tree.now tags event.now number) lines.new) }
{
    let line = lines.at_mut(event.firing.line.0 as usize);
    line.follow(tree, event, place)
}
