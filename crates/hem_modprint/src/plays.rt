//! The texts of plays.

ghost use Rattle.std.specs.Prelude.{◌≡◌, ◌++◌, [], flat_map, slice_get, OnOk, IfOk, IsTrue, string_bytes};
ghost use Rattle.std.specs.List.{enumerate_from};
ghost use Rattle.std.specs.Option.{option_map_or};
ghost use Rattle.hem_base.specs.Words.{is_word_text};
ghost use Rattle.hem_modprint.specs.PlayText.{stuck_text, fired_text, number_in, held_text, item_text, contents_text, register_part, queue_part, play_text};

use crate::modules::write_register_line;
use hem_base::{Message, Name, OutOfMemory};
use hem_module::{ModState, Modules, Played};
use hem_output::Output;
use std::alloc::Global;

/// Appends whether a play got stuck, or more would follow.
fn write_stuck(output: &mut Output, stuck: bool) -> Result<(), OutOfMemory>
    ensures { OnOk result (output.new ≡ output.old ++ stuck_text stuck) }
{
    if stuck {
        output.text("stuck\n")
    } else {
        output.text("more\n")
    }
}

/// Appends how many firings were made.
fn write_fired(output: &mut Output, fired: u32) -> Result<(), OutOfMemory>
    ensures { OnOk result (output.new ≡ output.old ++ fired_text fired) }
{
    output.text("fired ")?;
    output.number(u64::from(fired))?;
    output.end_line()
}

/// Appends the line of a register, where it doesn't hold 0. Its name is a word.
fn write_held(output: &mut Output, name: &Name, number: u64) -> Result<(), OutOfMemory>
    requires { IsTrue (is_word_text name.now) }
    ensures { OnOk result (output.new ≡ output.old ++ held_text (name.now, number)) }
{
    if number == 0 {
        return Ok(());
    }
    write_register_line(output, name, number)
}

/// What the register at a place holds. One that isn't there holds 0.
fn number_at(s: &ModState, place: usize) -> u64
    ensures { result ≡ number_in s.now place }
{
    s.regs().get(place).copied().unwrap_or(0)
}

/// Appends the line of the register at a place, where there is one that doesn't hold 0.
fn write_held_at(
    output: &mut Output,
    m: &Modules,
    s: &ModState,
    place: usize,
) -> Result<(), OutOfMemory>
    ensures { OnOk result (output.new ≡ output.old ++ option_map_or (λ r. register_part s.now (place, r)) (slice_get m.now.regs place) []) }
{
    // This call says that the modules are lawful, so that their names are words.
    let _rules = m.rules();
    match m.regs().name(place) {
        Some(name) => write_held(output, name, number_at(s, place)),
        None => Ok(()),
    }
}

/// Appends the lines of the registers that don't hold 0.
fn write_all_held(output: &mut Output, m: &Modules, s: &ModState) -> Result<(), OutOfMemory>
    ensures { OnOk result (output.new ≡ output.old ++ flat_map (register_part s.now) (enumerate_from 0 m.now.regs)) }
{
    for place in 0..m.regs().len() {
        write_held_at(output, m, s, place)?;
    }
    Ok(())
}

/// Appends an item, with a space before it.
fn write_item(output: &mut Output, item: Message) -> Result<(), OutOfMemory>
    ensures { OnOk result (output.new ≡ output.old ++ item_text item) }
{
    output.text(" ")?;
    output.number(u64::from(item.id.0))?;
    output.text(":")?;
    output.number(item.value)
}

/// Appends items.
fn write_items(output: &mut Output, items: &[Message]) -> Result<(), OutOfMemory>
    ensures { OnOk result (output.new ≡ output.old ++ flat_map item_text items.now) }
{
    for item in items {
        write_item(output, *item)?;
    }
    Ok(())
}

/// Appends the line of a queue, where it isn't empty. Its name is a word.
fn write_contents(output: &mut Output, name: &Name, items: &[Message]) -> Result<(), OutOfMemory>
    requires { IsTrue (is_word_text name.now) }
    ensures { OnOk result (output.new ≡ output.old ++ contents_text name.now items.now) }
{
    if items.is_empty() {
        return Ok(());
    }
    output.text("queue ")?;
    output.name(name)?;
    write_items(output, items)?;
    output.end_line()
}

/// Appends the line of the queue at a place, where there is one that isn't empty.
fn write_contents_at(
    output: &mut Output,
    m: &Modules,
    s: &ModState,
    place: usize,
) -> Result<(), OutOfMemory>
    ensures { OnOk result (output.new ≡ output.old ++ option_map_or (λ q. queue_part s.now (place, q)) (slice_get m.now.queues place) []) }
{
    // This call says that the modules are lawful, so that their names are words.
    let _rules = m.rules();
    match m.queues().get(place) {
        Some(name) => write_contents(output, name, s.queue(place)),
        None => Ok(()),
    }
}

/// Appends the lines of the queues that aren't empty.
fn write_all_contents(output: &mut Output, m: &Modules, s: &ModState) -> Result<(), OutOfMemory>
    ensures { OnOk result (output.new ≡ output.old ++ flat_map (queue_part s.now) (enumerate_from 0 m.now.queues)) }
{
    for place in 0..m.queues().len() {
        write_contents_at(output, m, s, place)?;
    }
    Ok(())
}

/// The text of a play that ends in a state: `stuck`, or `more` where a rule can fire that isn't spontaneous; how many
/// firings were made; and in text order each register that doesn't hold 0, and each queue that isn't empty.
pub fn play_text(
    alloc: Global,
    m: &Modules,
    s: &ModState,
    played: Played,
) -> Result<String, OutOfMemory>
    ensures { IfOk result (λ text. string_bytes text ≡ play_text m.now s.now played) }
{
    let mut output = Output::new(alloc);
    write_stuck(&mut output, played.stuck)?;
    write_fired(&mut output, played.fired)?;
    write_all_held(&mut output, m, s)?;
    write_all_contents(&mut output, m, s)?;
    output.text("end\n")?;
    Ok(output.into_string())
}
