//! The texts of histories: one that runs, one that stops, and one to its end.

ghost use Rattle.std.specs.Prelude.{◌≡◌, ◌++◌, IfOk, string_bytes};
ghost use Rattle.hem_report.specs.Texts.{illegal_text};
ghost use Rattle.hem_report.specs.StateText.{state_text};
ghost use Rattle.hem_cli.specs.Texts.{grouped_text, ended_text};

use hem_base::{Firing, OutOfMemory};
use hem_report::{
    blocks_text, blocks_text_behind, end_word_text, illegal_text, journal_text, state_text,
    word_text,
};
use hem_syntax::Protocol;
use hem_system::System;
use hem_trace::Block;
use hem_tree::Tree;
use std::alloc::Global;

/// The text of a history that runs: the word, the blocks and the state to which it leads.
pub(crate) fn grouped_text(
    alloc: Global,
    p: &Protocol,
    tree: &Tree,
    blocks: &[Block],
    end: &System,
) -> Result<String, OutOfMemory>
    ensures { IfOk result (λ s. string_bytes s ≡ grouped_text p.now tree.now blocks.now end.now) }
{
    let mut text = blocks_text_behind(alloc, word_text(end), p, blocks)?;
    let state = state_text(alloc, p, tree, end)?;
    text.push_str(&state)?;
    Ok(text)
}

/// The text of a history with a firing that isn't possible: its place, and the state before it.
pub(crate) fn stopped_text(
    alloc: Global,
    p: &Protocol,
    tree: &Tree,
    place: usize,
    before: &System,
) -> Result<String, OutOfMemory>
    ensures { IfOk result (λ s. string_bytes s ≡ illegal_text place ++ state_text p.now tree.now before.now) }
{
    let mut text = illegal_text(alloc, place)?;
    let state = state_text(alloc, p, tree, before)?;
    text.push_str(&state)?;
    Ok(text)
}

/// The text of a history to its end: the word, its firings, the blocks and the state to which it leads.
pub(crate) fn ended_text(
    alloc: Global,
    p: &Protocol,
    tree: &Tree,
    journal: &[Firing],
    blocks: &[Block],
    end: &System,
) -> Result<String, OutOfMemory>
    ensures { IfOk result (λ s. string_bytes s ≡ ended_text p.now tree.now journal.now blocks.now end.now) }
{
    let mut text = String::from_str(alloc, end_word_text(end.quiet()))?;
    let journal = journal_text(alloc, p, journal)?;
    text.push_str(&journal)?;
    let blocks = blocks_text(alloc, p, blocks)?;
    text.push_str(&blocks)?;
    let state = state_text(alloc, p, tree, end)?;
    text.push_str(&state)?;
    Ok(text)
}
