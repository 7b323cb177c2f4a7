//! The answer of the program to one document.

use hem_cli::{Status, hem};
use hem_io::{MemSink, MemSource, OpenGate};
use std::alloc::Global;
use std::test::Fail;
use std::thread::Threads;

/// The status of the job `group` over a document, and the sink to which it wrote.
pub fn answer<R: Threads + Sync>(
    rt: &R,
    alloc: Global,
    document: Vec<u8>,
) -> Result<(Status, MemSink), Fail> {
    let mut words = Vec::new(alloc);
    words.push(String::from_str(alloc, "group")?)?;
    let mut source = MemSource::make(document, Vec::new(alloc));
    let mut sink = MemSink::make(alloc, 1_000_000, 1_000_000, Vec::new(alloc))?;
    let status = hem(rt, alloc, &words, &mut source, &mut sink, &OpenGate);
    Ok((status, sink))
}
