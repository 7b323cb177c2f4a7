//! What rules take, lock and send.

ghost use Rattle.std.specs.Prelude.{◌≡◌, ◌∷◌, ◌++◌, OnOk};
ghost use Rattle.hem_base.specs.declared.words.Reserved.TheVariants.{In, Send};
ghost use Rattle.hem_print.specs.Canonical.{plain, words_text, set_words, take_words, need_words, free_words, lock_words, message_words, send_words};

use crate::names::{write_message, write_set, write_value, write_word};
use hem_base::{MsgId, OutOfMemory, Reserved, StatusSet};
use hem_grammar::{hold_word, origin_word, side_word};
use hem_output::Output;
use hem_syntax::{Need, Origin, Protocol, SendTo, Side, Take, Value};

/// Appends what a rule takes.
pub(crate) fn write_take(output: &mut Output, p: &Protocol, take: Take) -> Result<(), OutOfMemory>
    ensures { OnOk result (output.new ≡ output.old ++ words_text (take_words p.now take)) }
{
    match take {
        Take::Me(id) => {
            write_word(output, Reserved::Me)?;
            write_message(output, p, id)
        }
        Take::Parent(id) => {
            write_word(output, Reserved::Parent)?;
            write_message(output, p, id)
        }
        Take::Kids(id) => {
            write_word(output, Reserved::Kids)?;
            write_message(output, p, id)
        }
        Take::Nothing => write_word(output, Reserved::None),
    }
}

/// Appends what a rule needs of the locks.
pub(crate) fn write_need(output: &mut Output, need: Need) -> Result<(), OutOfMemory>
    ensures { OnOk result (output.new ≡ output.old ++ words_text (need_words need)) }
{
    write_word(output, Reserved::Up)?;
    write_word(output, hold_word(need.up))?;
    write_word(output, Reserved::Down)?;
    write_word(output, hold_word(need.down))
}

/// Appends the lock that a rule frees.
pub(crate) fn write_free(output: &mut Output, free: Option<Side>) -> Result<(), OutOfMemory>
    ensures { OnOk result (output.new ≡ output.old ++ words_text (free_words free)) }
{
    match free {
        Some(side) => {
            write_word(output, Reserved::Free)?;
            write_word(output, side_word(side))
        }
        None => Ok(()),
    }
}

/// Appends the lock that a rule takes, and for whom.
pub(crate) fn write_lock(
    output: &mut Output,
    lock: Option<(Side, Origin)>,
) -> Result<(), OutOfMemory>
    ensures { OnOk result (output.new ≡ output.old ++ words_text (lock_words lock)) }
{
    match lock {
        Some((side, origin)) => {
            write_word(output, Reserved::Lock)?;
            write_word(output, side_word(side))?;
            write_word(output, origin_word(origin))
        }
        None => Ok(()),
    }
}

/// Appends a message and its value.
fn write_valued(
    output: &mut Output,
    p: &Protocol,
    id: MsgId,
    value: Value,
) -> Result<(), OutOfMemory>
    ensures { OnOk result (output.new ≡ output.old ++ words_text (message_words p.now id value)) }
{
    write_message(output, p, id)?;
    write_value(output, value)
}

/// Appends to whom a rule sends, of those that this word names.
fn write_send_to(
    output: &mut Output,
    p: &Protocol,
    whom: Reserved,
    set: StatusSet,
) -> Result<(), OutOfMemory>
    ensures { OnOk result (output.new ≡ output.old ++ words_text (plain Send ∷ plain whom ∷ plain In ∷ set_words p.now set)) }
{
    write_word(output, Reserved::Send)?;
    write_word(output, whom)?;
    write_word(output, Reserved::In)?;
    write_set(output, p, set)
}

/// Appends what a rule sends.
#[tactic(auto, using(crate::proofs::Led::words_joined))]
pub(crate) fn write_send(output: &mut Output, p: &Protocol, send: SendTo) -> Result<(), OutOfMemory>
    ensures { OnOk result (output.new ≡ output.old ++ words_text (send_words p.now send)) }
{
    match send {
        SendTo::Nothing => Ok(()),
        SendTo::Me(id, value) => {
            write_word(output, Reserved::Send)?;
            write_word(output, Reserved::Me)?;
            write_valued(output, p, id, value)
        }
        SendTo::Parent(id, value) => {
            write_word(output, Reserved::Send)?;
            write_word(output, Reserved::Parent)?;
            write_valued(output, p, id, value)
        }
        SendTo::Kids(set, id, value) => {
            write_send_to(output, p, Reserved::Kids, set)?;
            write_valued(output, p, id, value)
        }
        SendTo::Others(set, id, value) => {
            write_send_to(output, p, Reserved::Others, set)?;
            write_valued(output, p, id, value)
        }
    }
}
