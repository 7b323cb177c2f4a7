//! Protocols.

ghost use Rattle.std.specs.Prelude.{◌≡◌, ◌++◌, OnOk, IfOk, IsTrue, map, option_to_list, slice_get, string_bytes};
ghost use Rattle.std.specs.List.{list_all};
ghost use Rattle.hem_base.specs.Words.{is_word_text};
ghost use Rattle.hem_syntax.specs.Lawful.{is_declarable};
ghost use Rattle.hem_print.specs.Canonical.{named, words_text, line_text, lines_text, message_line, declaration_lines, protocol_text};

use crate::names::{statuses_of, write_name, write_word};
use crate::rules::write_kind;
use hem_base::{Kind, Name, OutOfMemory, Reserved};
use hem_grammar::class_word;
use hem_output::Output;
use hem_syntax::{Class, Named, Protocol};
use std::alloc::Global;

/// Appends the names of statuses, which can be declared.
fn write_statuses(output: &mut Output, statuses: &[Name]) -> Result<(), OutOfMemory>
    requires { IsTrue (list_all is_declarable statuses.now) }
    ensures { OnOk result (output.new ≡ output.old ++ words_text (map (λ s. named s) statuses.now)) }
{
    for name in statuses {
        write_name(output, name)?;
    }
    Ok(())
}

/// Appends the line of a message.
fn write_message_line(output: &mut Output, name: &Name, class: Class) -> Result<(), OutOfMemory>
    requires { IsTrue (is_word_text name.now) }
    ensures { OnOk result (output.new ≡ output.old ++ line_text (message_line (name.now, class))) }
{
    output.word(Reserved::Message)?;
    write_name(output, name)?;
    write_word(output, class_word(class))?;
    output.end_line()
}

/// Appends the line of the message at a place, where there is one. The names can be declared.
fn write_message_at(
    output: &mut Output,
    messages: &Named<Class>,
    place: usize,
) -> Result<(), OutOfMemory>
    requires { IsTrue (list_all is_declarable (map (λ m. m.0) messages.now)) }
    ensures { OnOk result (output.new ≡ output.old ++ lines_text (map message_line (option_to_list (slice_get messages.now place)))) }
{
    match messages.name(place) {
        Some(name) => match messages.value(place) {
            Some(class) => write_message_line(output, name, *class),
            None => Ok(()),
        },
        None => Ok(()),
    }
}

/// Appends the lines of messages, whose names can be declared.
fn write_messages(output: &mut Output, messages: &Named<Class>) -> Result<(), OutOfMemory>
    requires { IsTrue (list_all is_declarable (map (λ m. m.0) messages.now)) }
    ensures { OnOk result (output.new ≡ output.old ++ lines_text (map message_line messages.now)) }
{
    for place in 0..messages.len() {
        write_message_at(output, messages, place)?;
    }
    Ok(())
}

/// Appends the lines of the name, the statuses and the messages.
fn write_declarations(output: &mut Output, p: &Protocol) -> Result<(), OutOfMemory>
    ensures { OnOk result (output.new ≡ output.old ++ lines_text (declaration_lines p.now)) }
{
    // This call says that the protocol is lawful, so that its names can be declared.
    let _root = p.part(Kind::Root);
    output.word(Reserved::Protocol)?;
    write_name(output, p.name())?;
    output.end_line()?;
    output.word(Reserved::Status)?;
    write_statuses(output, statuses_of(p))?;
    output.end_line()?;
    write_messages(output, p.messages())
}

/// The canonical text of a protocol.
pub fn protocol_text(alloc: Global, p: &Protocol) -> Result<String, OutOfMemory>
    ensures { IfOk result (λ text. string_bytes text ≡ protocol_text p.now) }
{
    let mut output = Output::new(alloc);
    write_declarations(&mut output, p)?;
    write_kind(&mut output, p, Kind::Root, Reserved::Root)?;
    write_kind(&mut output, p, Kind::Mid, Reserved::Mid)?;
    write_kind(&mut output, p, Kind::Leaf, Reserved::Leaf)?;
    output.text("end\n")?;
    Ok(output.into_string())
}
