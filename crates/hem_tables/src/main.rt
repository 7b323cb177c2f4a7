//! Holds the program `hem` against a table of documents, each with its answer.
//!
//! The table stands on standard input, and its own head says how it is written. Each case of it is asked for as the
//! program would be, over memory, and its status and its whole text are compared. For each case that differs a line is
//! printed, and at last `N cases, D differ`.
//!
//! The process ends with 0 exactly where a case was read and none differs, with 1 where one differs, and with 2 where the
//! table can't be read: then one line says where and why.
#![tactic(auto)]

mod ask;
mod cause;
mod changes;
mod escapes;
mod table;
mod tally;

use crate::ask::answer;
use crate::cause::{Cause, Fault};
use crate::table::Table;
use crate::tally::Tally;
use hem_io::{StdSource, read_all};
use std::alloc::Global;
use std::process::ExitCode;
use std::thread::Threads;

/// The most bytes of a table.
const MOST_BYTES: usize = 16_777_216;

/// All of standard input.
fn input(rt: &(impl Input + AllocGlobal)) -> Result<Vec<u8>, Fault> {
    let mut source = StdSource::new(rt.reader());
    match read_all(rt.alloc(), &mut source, MOST_BYTES) {
        Ok(bytes) => Ok(bytes),
        Err(_) => Err(Fault::of_all(Cause::Unread)),
    }
}

/// Asks for the answer of each case, and counts; a line is printed for each that differs.
fn compare<R: Print + Threads + Sync>(rt: &R, alloc: Global, text: &str) -> Result<Tally, Fault> {
    let table = Table::read(alloc, text)?;
    let mut tally = Tally::new();
    for case in table.cases() {
        let given = match answer(rt, alloc, case) {
            Ok(given) => given,
            Err(cause) => return Err(Fault::at(case.line, cause)),
        };
        let is_wanted = tally.weigh(case, &given);
        if !is_wanted && given.tell(rt, case).is_err() {
            return Err(Fault::at(case.line, Cause::Unwritten));
        }
    }
    Ok(tally)
}

fn compare_bytes<R: Print + Threads + Sync>(
    rt: &R,
    alloc: Global,
    bytes: &[u8],
) -> Result<Tally, Fault> {
    match str::from_utf8(bytes) {
        Ok(text) => compare(rt, alloc, text),
        Err(_) => Err(Fault::of_all(Cause::NoText)),
    }
}

/// Reads the table and asks for its cases.
fn compare_input<R: Input + AllocGlobal + Print + Threads + Sync>(rt: &R) -> Result<Tally, Fault> {
    let bytes = input(rt)?;
    compare_bytes(rt, rt.alloc(), &bytes)
}

fn main(rt: HostRuntime) -> ExitCode {
    let (told, code) = match compare_input(&rt) {
        Ok(tally) => (tally.tell(&rt), tally.code()),
        Err(fault) => (fault.tell(&rt), 2),
    };
    match told {
        Ok(()) => ExitCode::from(code),
        Err(_) => ExitCode::from(2),
    }
}
