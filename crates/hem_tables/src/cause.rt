//! Why a table can't be read, and where.

use hem_base::OutOfMemory;
use std::alloc::{AllocError, AllocFailed};
use std::io;

/// Why a table can't be read.
#[derive(Clone, Copy, Debug, PartialEq, Eq)]
pub(crate) enum Cause {
    /// Standard input failed, or is too long.
    Unread,
    /// The table isn't UTF-8.
    NoText,
    /// A line that begins a section begins with no word that may begin one.
    Heading,
    /// A line can't stand in its section.
    Line,
    /// Two bases or two answers have one name.
    Repeated,
    /// There is no base of this name above.
    NoBase,
    /// There is no answer of this name above.
    NoAnswer,
    /// A row isn't `NAME | DOCUMENT => STATUS ANSWER`.
    Row,
    /// A status is no number up to 255.
    Status,
    /// A change isn't `PLACE: TEXT`.
    Change,
    /// A change or a cut is at a place that its base doesn't have.
    NoPlace,
    /// `\` stands before what it can't stand before.
    Escape,
    /// A word isn't UTF-8.
    Word,
    /// Standard output failed.
    Unwritten,
    /// There was no memory left.
    Memory,
}

impl Cause {
    /// What is told of it.
    pub(crate) fn text(self) -> &'static str {
        match self {
            Cause::Unread => "reading failed, or the table is too long",
            Cause::NoText => "the table is no text",
            Cause::Heading => "no section begins so",
            Cause::Line => "this can't stand in this section",
            Cause::Repeated => "this name stands twice",
            Cause::NoBase => "there is no such base above",
            Cause::NoAnswer => "there is no such answer above",
            Cause::Row => "a row is `NAME | DOCUMENT => STATUS ANSWER`",
            Cause::Status => "a status is a number up to 255",
            Cause::Change => "a change is `PLACE: TEXT`",
            Cause::NoPlace => "the base has no such place",
            Cause::Escape => "no escape is spelled so",
            Cause::Word => "a word is no text",
            Cause::Unwritten => "writing failed",
            Cause::Memory => "there is no memory left",
        }
    }
}

impl From<AllocError> for Cause {
    fn from(_: AllocError) -> Self {
        Cause::Memory
    }
}

impl<T: Drop> From<AllocFailed<T>> for Cause {
    fn from(_: AllocFailed<T>) -> Self {
        Cause::Memory
    }
}

impl From<OutOfMemory> for Cause {
    fn from(_: OutOfMemory) -> Self {
        Cause::Memory
    }
}

/// The first fault of a table: the number of its line, counted from 1, where it has one, and the cause.
#[derive(Clone, Copy, Debug, PartialEq, Eq)]
pub(crate) struct Fault {
    pub(crate) line: Option<usize>,
    pub(crate) cause: Cause,
}

impl Fault {
    /// A fault at a line.
    pub(crate) fn at(line: usize, cause: Cause) -> Self {
        Fault {
            line: Some(line),
            cause,
        }
    }

    /// A fault of the whole table.
    pub(crate) fn of_all(cause: Cause) -> Self {
        Fault { line: None, cause }
    }

    /// Prints the fault.
    pub(crate) fn tell(self, rt: &impl Print) -> io::Result<()> {
        let text = self.cause.text();
        match self.line {
            Some(line) => println!(rt; "line {line}: {text}"),
            None => println!(rt; "{text}"),
        }
    }
}
