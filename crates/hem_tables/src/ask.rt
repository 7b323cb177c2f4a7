//! The program's answer to a case.

ghost use Rattle.std.specs.Prelude.{◌≡◌, ◌↔◌, IsTrue, Some};
ghost use Rattle.hem_cli.specs.Code.{code_of};

use crate::cause::Cause;
use crate::escapes::push_text;
use crate::table::Case;
use hem_cli::{Status, hem};
use hem_io::{MemSink, MemSource, OpenGate};
use std::alloc::Global;
use std::io;
use std::thread::Threads;

/// The most bytes of an answer.
const ROOM: usize = 1_000_000;

/// What the program answered: its status, and the sink to which it wrote.
#[derive(Drop)]
pub(crate) struct Given {
    pub(crate) status: Status,
    pub(crate) sink: MemSink,
}

/// A word that a text stands for.
fn word(alloc: Global, text: &str) -> Result<String, Cause> {
    let mut bytes = Vec::new(alloc);
    push_text(&mut bytes, text)?;
    match String::from_utf8(bytes) {
        Ok(word) => Ok(word),
        Err(_) => Err(Cause::Word),
    }
}

/// The words that stand in a text with blanks between them.
fn words(alloc: Global, text: &str) -> Result<Vec<String>, Cause> {
    let mut words = Vec::new(alloc);
    for one in text.split_whitespace() {
        words.push(word(alloc, one)?)?;
    }
    Ok(words)
}

/// Asks for the answer to a case.
pub(crate) fn answer<R: Threads + Sync>(
    rt: &R,
    alloc: Global,
    case: &Case<'_>,
) -> Result<Given, Cause> {
    let words = words(alloc, case.words)?;
    let document = case.document.clone()?;
    let mut source = MemSource::make(document, Vec::new(alloc));
    let mut sink = MemSink::make(alloc, ROOM, ROOM, Vec::new(alloc))?;
    let status = hem(rt, alloc, &words, &mut source, &mut sink, &OpenGate);
    Ok(Given { status, sink })
}

/// A text in one line, between quotes.
fn shown(bytes: &[u8]) -> &str {
    str::from_utf8(bytes).unwrap_or("no text")
}

impl Given {
    /// Whether the status and the whole text are those of the case.
    pub(crate) fn is_wanted(&self, case: &Case<'_>) -> bool
        ensures { IsTrue result ↔ (code_of self.now.status ≡ case.now.status) × (self.now.sink.bytes ≡ case.now.text.items) }
    {
        self.status.code() == case.status && self.sink.bytes() == case.text.as_slice()
    }

    /// Prints what was wanted and what came.
    pub(crate) fn tell(&self, rt: &impl Print, case: &Case<'_>) -> io::Result<()> {
        let (line, name) = (case.line, case.name);
        let (status, text) = (case.status, shown(&case.text));
        let (came, told) = (self.status.code(), shown(self.sink.bytes()));
        println!(rt; "line {line}, {name}: wanted {status} {text:?}, came {came} {told:?}")
    }
}
