//! The texts of journals.

ghost use Rattle.std.specs.Prelude.{◌≡◌, ◌++◌, OnOk, IfOk};
ghost use Rattle.std.specs.String.{string_bytes};
ghost use Rattle.hem_report.specs.JournalText.{journal_text, end_word};

use crate::firings::write_firings;
use hem_base::{Firing, OutOfMemory};
use hem_output::Output;
use hem_syntax::Protocol;
use std::alloc::Global;

/// Appends how many firings there are, and each of them.
fn write_journal(output: &mut Output, p: &Protocol, journal: &[Firing]) -> Result<(), OutOfMemory>
    ensures { OnOk result (output.new ≡ output.old ++ journal_text p.now journal.now) }
{
    output.text("journal ")?;
    output.number(journal.len() as u64)?;
    output.text("\n")?;
    write_firings(output, p, journal)
}

/// The text of a journal: how many firings there are, and each of them.
pub fn journal_text(alloc: Global, p: &Protocol, journal: &[Firing]) -> Result<String, OutOfMemory>
    ensures { IfOk result (λ text. string_bytes text ≡ journal_text p.now journal.now) }
{
    let mut output = Output::new(alloc);
    write_journal(&mut output, p, journal)?;
    Ok(output.into_string())
}

/// The word for the end of a run, by whether its state is quiet, with its line feed: `quiet` or `stuck`. It takes no memory.
pub fn end_word_text(quiet: bool) -> &'static str
    ensures { result.now ≡ end_word quiet }
{
    if quiet { "quiet\n" } else { "stuck\n" }
}
