//! Modules.

ghost use Rattle.std.specs.Prelude.{◌≡◌, ◌++◌, flat_map, map, option_to_list, slice_get, OnOk, IfOk, IsTrue, string_bytes};
ghost use Rattle.std.specs.List.{list_all};
ghost use Rattle.hem_base.specs.Words.{is_word_text};
ghost use Rattle.hem_syntax.specs.Lawful.{is_declarable};
ghost use Rattle.hem_modprint.specs.ModulesText.{register_text, queue_text, modules_text};
ghost use Rattle.hem_modprint.specs.ReadsBack.{fits, ReadsBack};

use crate::rules::write_rules;
use hem_base::{Name, OutOfMemory};
use hem_module::Modules;
use hem_output::Output;
use hem_syntax::Named;
use std::alloc::Global;

/// Appends the line of a register, whose name is a word.
pub(crate) fn write_register_line(
    output: &mut Output,
    name: &Name,
    start: u64,
) -> Result<(), OutOfMemory>
    requires { IsTrue (is_word_text name.now) }
    ensures text { OnOk result (output.new ≡ output.old ++ register_text (name.now, start)) }
    ensures fits { OnOk result (IsTrue (fits start)) }
{
    output.text("reg ")?;
    output.name(name)?;
    output.text(" ")?;
    output.number(start)?;
    output.end_line()
}

/// Appends the line of the register at a place, where there is one. The names may be declared.
fn write_register_at(
    output: &mut Output,
    regs: &Named<u64>,
    place: usize,
) -> Result<(), OutOfMemory>
    requires { IsTrue (list_all is_declarable (map (λ r. r.0) regs.now)) }
    ensures text { OnOk result (output.new ≡ output.old ++ flat_map register_text (option_to_list (slice_get regs.now place))) }
    ensures fits { OnOk result (IsTrue (list_all (λ r. fits r.1) (option_to_list (slice_get regs.now place)))) }
{
    match regs.name(place) {
        Some(name) => match regs.value(place) {
            Some(start) => write_register_line(output, name, *start),
            None => Ok(()),
        },
        None => Ok(()),
    }
}

/// Appends the lines of registers, whose names may be declared.
fn write_registers(output: &mut Output, regs: &Named<u64>) -> Result<(), OutOfMemory>
    requires { IsTrue (list_all is_declarable (map (λ r. r.0) regs.now)) }
    ensures text { OnOk result (output.new ≡ output.old ++ flat_map register_text regs.now) }
    ensures fits { OnOk result (IsTrue (list_all (λ r. fits r.1) regs.now)) }
{
    for place in 0..regs.len() {
        write_register_at(output, regs, place)?;
    }
    Ok(())
}

/// Appends the line of a queue, whose name is a word.
fn write_queue_line(output: &mut Output, name: &Name) -> Result<(), OutOfMemory>
    requires { IsTrue (is_word_text name.now) }
    ensures { OnOk result (output.new ≡ output.old ++ queue_text name.now) }
{
    output.text("queue ")?;
    output.name(name)?;
    output.end_line()
}

/// Appends the lines of queues, whose names may be declared.
fn write_queues(output: &mut Output, queues: &[Name]) -> Result<(), OutOfMemory>
    requires { IsTrue (list_all is_declarable queues.now) }
    ensures { OnOk result (output.new ≡ output.old ++ flat_map queue_text queues.now) }
{
    for name in queues {
        write_queue_line(output, name)?;
    }
    Ok(())
}

/// The canonical text of modules: a line for the name, for each register, queue and rule, and for the end. It reads as
/// these modules.
pub fn modules_text(alloc: Global, m: &Modules) -> Result<String, OutOfMemory>
    ensures text { IfOk result (λ text. string_bytes text ≡ modules_text m.now) }
    ensures reads_back { OnOk result (ReadsBack m.now) }
{
    let rules = m.rules();
    let mut output = Output::new(alloc);
    output.text("modules ")?;
    output.name(m.name())?;
    output.end_line()?;
    write_registers(&mut output, m.regs())?;
    write_queues(&mut output, m.queues().as_slice())?;
    write_rules(&mut output, m, rules)?;
    output.text("end\n")?;
    Ok(output.into_string())
}
