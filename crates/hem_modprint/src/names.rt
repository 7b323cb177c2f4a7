//! Names of registers and queues, appended to a text.

ghost use Rattle.std.specs.Prelude.{◌≡◌, ◌++◌, OnOk};
ghost use Rattle.hem_modprint.specs.ModulesText.{register_name, queue_name};

use hem_base::OutOfMemory;
use hem_module::Modules;
use hem_output::Output;

/// Appends the name of a register.
pub(crate) fn write_register(
    output: &mut Output,
    m: &Modules,
    register: usize,
) -> Result<(), OutOfMemory>
    ensures { OnOk result (output.new ≡ output.old ++ register_name m.now register) }
{
    // This call says that the modules are lawful, so that their names are words.
    let _rules = m.rules();
    match m.regs().name(register) {
        Some(name) => output.name(name),
        None => Ok(()),
    }
}

/// Appends the name of a queue.
pub(crate) fn write_queue(output: &mut Output, m: &Modules, queue: usize) -> Result<(), OutOfMemory>
    ensures { OnOk result (output.new ≡ output.old ++ queue_name m.now queue) }
{
    // This call says that the modules are lawful, so that their names are words.
    let _rules = m.rules();
    match m.queues().get(queue) {
        Some(name) => output.name(name),
        None => Ok(()),
    }
}
