//! Changes of registers and queues.

ghost use Rattle.std.specs.Prelude.{◌≡◌, ◌<◌, ◌-◌, ◌++◌, ◌∷◌, [], List, length, take, drop, slice_get, slice_set, OnOk, OnErr};
ghost use Rattle.hem_base.specs.declared.ids.Message.{Message as Put};
ghost use Rattle.hem_module.specs.Plans.{queue_at, written, send_one, sent, unsend_one, lose_one, lost};

use crate::plan::{Sent, Write};
use crate::queue::Queue;
use hem_base::{List, Message, OutOfMemory};

/// Puts a message at the end of a queue that is there. Where memory is wanted the queues stay as they were.
#[tactic(auto, using(crate::proofs::Lists::set_get_same))]
pub(crate) fn push_at(
    queues: &mut List<Queue>,
    at: usize,
    message: Message,
) -> Result<(), OutOfMemory>
    requires { at < length queues.old }
    ensures ok { OnOk result (queues.new ≡ slice_set queues.old at (queue_at queues.old at ++ message ∷ [])) }
    ensures err { OnErr result (queues.new ≡ queues.old) }
{
    let queue = queues.at_mut(at);
    queue.push(message)
}

/// Takes the last message of a queue back.
fn unsend(queues: &mut List<Queue>, at: usize)
    requires { at < length queues.old }
    ensures { queues.new ≡ unsend_one queues.old at }
{
    let queue = queues.at_mut(at);
    queue.take_back();
}

/// Lets a queue lose its head.
fn lose(queues: &mut List<Queue>, at: usize)
    requires { at < length queues.old }
    ensures { queues.new ≡ lose_one queues.old at }
{
    let queue = queues.at_mut(at);
    queue.take();
}

/// Sends a message, where its queue is there. Where memory is wanted the queues stay as they were.
fn send(queues: &mut List<Queue>, sent: Sent) -> Result<(), OutOfMemory>
    ensures ok { OnOk result (queues.new ≡ send_one queues.old sent) }
    ensures err { OnErr result (queues.new ≡ queues.old) }
{
    if sent.queue < queues.len() {
        push_at(queues, sent.queue, sent.message)
    } else {
        Ok(())
    }
}

/// Takes messages back that were sent, the last one first.
fn unsend_all(queues: &mut List<Queue>, sends: &[Sent])
    ensures { (before : List (List Put)) → queues.old ≡ sent before sends.now → queues.new ≡ before }
{
    for place in (0..sends.len()).rev() {
        let at = sends[place].queue;
        if at < queues.len() {
            unsend(queues, at);
        }
    }
}

/// Sends messages in order. Where memory is wanted the queues stay as they were.
pub(crate) fn send_all(queues: &mut List<Queue>, sends: &[Sent]) -> Result<(), OutOfMemory>
    ensures ok { OnOk result (queues.new ≡ sent queues.old sends.now) }
    ensures err { OnErr result (queues.new ≡ queues.old) }
{
    for place in 0..sends.len() {
        if send(queues, sends[place]).is_err() {
            unsend_all(queues, &sends[..place]);
            return Err(OutOfMemory);
        }
    }
    Ok(())
}

/// Lets queues lose their heads.
pub(crate) fn lose_all(queues: &mut List<Queue>, losses: &[usize])
    ensures { queues.new ≡ lost queues.old losses.now }
{
    for at in losses {
        if *at < queues.len() {
            lose(queues, *at);
        }
    }
}

/// Writes registers in order.
pub(crate) fn write_all(regs: &mut List<u64>, writes: &[Write])
    ensures { regs.new ≡ written regs.old writes.now }
{
    for write in writes {
        if write.register < regs.len() {
            *regs.at_mut(write.register) = write.number;
        }
    }
}
