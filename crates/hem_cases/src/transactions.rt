//! The numbers of the transactions of a history.

use hem_base::Firing;
use hem_document::{Document, Lawful, WorkDocument, read_document, set_up};
use hem_syntax::Protocol;
use hem_system::replay;
use hem_transactions::transactions;
use std::alloc::Global;
use std::test::Fail;

/// Whether the numbers of a history that runs are as wanted.
fn are_numbers(
    alloc: Global,
    p: &Protocol,
    lawful: &Lawful,
    history: &[Firing],
    want: &[usize],
) -> Result<bool, Fail> {
    match replay(alloc, p, &lawful.tree, &lawful.work, history) {
        Ok(_end) => {
            let numbers = transactions(alloc, p, &lawful.tree, &lawful.work, history)?;
            Ok(numbers.as_slice() == want)
        }
        Err(_) => Ok(false),
    }
}

/// Whether the numbers of the history of a document are as wanted.
fn is_numbered(alloc: Global, text: &[u8], want: &[usize]) -> Result<bool, Fail> {
    if text.len() > 1_000 {
        return Err("the text is too long")?;
    }
    match read_document(alloc, text) {
        Ok(document) => is_document_numbered(alloc, &document, want),
        Err(_) => Ok(false),
    }
}

fn is_document_numbered(alloc: Global, document: &Document, want: &[usize]) -> Result<bool, Fail> {
    let WorkDocument {
        protocol,
        tree,
        work,
    } = &document.setup;
    match set_up(alloc, protocol, tree, work) {
        Ok(lawful) => are_numbers(alloc, protocol, &lawful, document.history.as_slice(), want),
        Err(_) => Ok(false),
    }
}

#[test]
fn two_stores_that_interleave_are_transactions_6_and_7(rt: HostRuntime) -> Result<(), Fail> {
    let text = b"use msi_inclusive
tree root(leaf leaf)
work lines 1 self 0 at 1 line 0 Ld 0 St 5 at 2 line 0 Ld 0 St 7 end
history 0 1 ld_miss 0 0 gets_hit from 1 0 1 ld_resp 0 2 ld_miss 0 0 gets_hit from 2 0 2 ld_resp 0 1 st_miss 0 2 st_miss
0 0 getm_inv from 2 0 1 inv 0 0 getm_done 0 2 st_resp 0 0 getm_inv from 1 0 2 inv 0 0 getm_done 0 1 st_resp end
";
    let want = [0, 0, 0, 3, 3, 3, 6, 7, 7, 7, 7, 7, 6, 6, 6, 6];
    assert!(rt; is_numbered(rt.alloc(), text, &want)?);
    Ok(())
}
