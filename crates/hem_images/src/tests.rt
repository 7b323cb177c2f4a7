//! The image of a start without requests, and the start of the modules.

ghost use Rattle.std.specs.Prelude.{◌<◌, length};

use hem_base::LineId;
use hem_check::{Accepted, check};
use hem_document::{WorkDocument, read_work_document, set_up};
use hem_module::ModState;
use hem_system::System;
use hem_translate::{emit, image};
use hem_tree::{RawTree, Tree};
use hem_work::{RawWork, Work};
use std::alloc::Global;
use std::test::Fail;

/// Two leaves below the root.
const TWO_LEAVES: &[u8] = b"use msi_inclusive
tree root(leaf leaf)
work lines 1 self 0 end
";

/// A mid with two leaves, and a third leaf below the root.
const A_MID: &[u8] = b"use mesi_noninclusive
tree root(mid(leaf leaf) leaf)
work lines 1 self 0 end
";

/// A state of which only the first register, the root's field, isn't 0, and all queues are empty.
#[derive(Clone, Copy)]
struct Wanted {
    /// What the first register holds.
    first: u64,
    /// How many registers there are.
    regs: usize,
    /// How many queues there are.
    queues: usize,
}

/// Whether the first number is this one, and all others are 0.
fn are_led_by(numbers: &[u64], first: u64) -> bool {
    match numbers.split_first() {
        Some((number, others)) => *number == first && others.iter().all(|other| *other == 0),
        None => false,
    }
}

/// Whether all queues are empty.
fn are_empty(s: &ModState) -> bool {
    for queue in 0..s.queue_count() {
        if !s.queue(queue).is_empty() {
            return false;
        }
    }
    true
}

/// Whether a state is the one that is wanted.
fn is_wanted(s: &ModState, wanted: Wanted) -> bool {
    s.regs().len() == wanted.regs
        && are_led_by(s.regs(), wanted.first)
        && s.queue_count() == wanted.queues
        && are_empty(s)
}

/// Whether two states have the same registers, and as many queues, all of them empty.
fn are_same(image: &ModState, start: &ModState) -> bool {
    image.regs() == start.regs()
        && image.queue_count() == start.queue_count()
        && are_empty(image)
        && are_empty(start)
}

/// The image of line 0 at the start of the work.
fn first_image(alloc: Global, a: &Accepted, tree: &Tree, work: &Work) -> Result<ModState, Fail> {
    let start = System::start(alloc, a.protocol(), tree, work)?;
    if start.lines() == 0 {
        return Err("there is no line")?;
    }
    Ok(image(alloc, a, tree, &start, LineId(0))?)
}

/// The start of the emitted modules.
fn first_state(alloc: Global, a: &Accepted, tree: &Tree) -> Result<ModState, Fail> {
    let modules = emit(alloc, a, tree)?;
    Ok(ModState::start(alloc, &modules)?)
}

/// Whether the image of the start is the start of the modules, and the state that is wanted.
fn agree(
    alloc: Global,
    a: &Accepted,
    tree: &Tree,
    work: &Work,
    wanted: Wanted,
) -> Result<bool, Fail> {
    let image = first_image(alloc, a, tree, work)?;
    let start = first_state(alloc, a, tree)?;
    Ok(are_same(&image, &start) && is_wanted(&image, wanted))
}

/// The same of a tree and a work that are set up.
fn agree_over(
    alloc: Global,
    a: &Accepted,
    tree: &RawTree,
    work: &RawWork,
    wanted: Wanted,
) -> Result<bool, Fail> {
    let lawful = set_up(alloc, a.protocol(), tree, work)?;
    agree(alloc, a, &lawful.tree, &lawful.work, wanted)
}

/// The same of a document.
fn starts_as(alloc: Global, text: &[u8], wanted: Wanted) -> Result<bool, Fail>
    requires { length text.now < 4294967295 }
{
    let WorkDocument {
        protocol,
        tree,
        work,
    } = read_work_document(alloc, text)?;
    let Ok(accepted) = check(protocol) else {
        return Err("the protocol is refused")?;
    };
    agree_over(alloc, &accepted, &tree, &work, wanted)
}

/// The root has its field M, whose number is 2, its value, six numbers of its locks and two for each child: 12 registers.
/// Each leaf has a field, its value and six numbers of its locks, and five queues.
#[test]
fn the_image_of_a_start_is_the_start_of_the_modules(rt: HostRuntime) -> Result<(), Fail> {
    let wanted = Wanted {
        first: 2,
        regs: 12 + 8 + 8,
        queues: 5 + 5,
    };
    assert!(rt; starts_as(rt.alloc(), TWO_LEAVES, wanted)?);
    Ok(())
}

/// The root's field M has the number 3. The mid has two fields and two children, so 13 registers, and three queues.
#[test]
fn a_mid_has_its_image_too(rt: HostRuntime) -> Result<(), Fail> {
    let wanted = Wanted {
        first: 3,
        regs: 12 + 13 + 8 + 8 + 8,
        queues: 3 + 5 + 5 + 5,
    };
    assert!(rt; starts_as(rt.alloc(), A_MID, wanted)?);
    Ok(())
}
