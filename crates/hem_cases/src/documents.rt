//! Documents that end with their tree or with their work.

use hem_base::OutOfMemory;
use hem_document::{read_tree_document, read_work_document};
use hem_text::{Cause, Place, TextError, TextFault};
use std::test::Fail;

/// Where a reader stops, and why; nothing where it reads.
fn stop<D: Drop>(read: Result<D, TextError>) -> Result<Option<TextFault>, Fail> {
    match read {
        Ok(_) => Ok(None),
        Err(TextError::Text(fault)) => Ok(Some(fault)),
        Err(TextError::OutOfMemory) => Err(OutOfMemory)?,
    }
}

/// Another token is expected at a place.
fn expected(line: u32, column: u32) -> Option<TextFault> {
    let place = Place { line, column };
    let cause = Cause::Expected;
    Some(TextFault { place, cause })
}

#[test]
fn a_document_ends_with_the_last_part_that_is_wanted(rt: HostRuntime) -> Result<(), Fail> {
    let alloc = rt.alloc();
    // A text, and where the readers of two and of three parts stop.
    let table: [(&[u8], Option<TextFault>, Option<TextFault>); 4] = [
        (b"use msi_inclusive\n", expected(2, 1), expected(2, 1)),
        (b"use msi_inclusive\ntree root(leaf)", None, expected(2, 16)),
        (
            b"use msi_inclusive\ntree root(leaf)\nwork lines 1 self 0 end",
            expected(3, 1),
            None,
        ),
        (
            b"use msi_inclusive\ntree root(leaf)\nwork lines 1 self 0 end\nhistory end",
            expected(3, 1),
            expected(4, 1),
        ),
    ];
    for (text, tree, work) in table {
        if text.len() > 1_000 {
            return Err("the text is too long")?;
        }
        assert_eq!(rt; stop(read_tree_document(alloc, text))?, tree);
        assert_eq!(rt; stop(read_work_document(alloc, text))?, work);
    }
    Ok(())
}
