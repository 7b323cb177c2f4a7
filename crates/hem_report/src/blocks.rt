//! The texts of blocks.

ghost use Rattle.std.specs.Prelude.{◌≡◌, ◌++◌, OnOk, IfOk, flat_map};
ghost use Rattle.std.specs.String.{string_bytes};
ghost use Rattle.hem_report.specs.BlocksText.{block_text, blocks_text};

use crate::firings::write_firings;
use hem_base::OutOfMemory;
use hem_output::Output;
use hem_syntax::Protocol;
use hem_trace::Block;
use std::alloc::Global;

/// Appends a block: its number and its firings.
fn write_block(output: &mut Output, p: &Protocol, block: &Block) -> Result<(), OutOfMemory>
    ensures { OnOk result (output.new ≡ output.old ++ block_text p.now block.now) }
{
    output.text("block ")?;
    output.number(block.number as u64)?;
    output.text("\n")?;
    write_firings(output, p, block.firings.as_slice())
}

/// Appends each of the blocks.
fn write_each_block(output: &mut Output, p: &Protocol, blocks: &[Block]) -> Result<(), OutOfMemory>
    ensures { OnOk result (output.new ≡ output.old ++ flat_map (block_text p.now) blocks.now) }
{
    for block in blocks {
        write_block(output, p, block)?;
    }
    Ok(())
}

/// Appends how many blocks there are, and each of them.
fn write_blocks(output: &mut Output, p: &Protocol, blocks: &[Block]) -> Result<(), OutOfMemory>
    ensures { OnOk result (output.new ≡ output.old ++ blocks_text p.now blocks.now) }
{
    output.text("blocks ")?;
    output.number(blocks.len() as u64)?;
    output.text("\n")?;
    write_each_block(output, p, blocks)
}

/// Room for the text of blocks and a state behind it, by a guess: the lines of most firings and blocks are shorter.
fn room_for(blocks: &[Block]) -> usize {
    let mut room = 65_536_usize;
    for block in blocks {
        let firings = block.firings.len();
        room = room
            .saturating_add(16)
            .saturating_add(firings.saturating_mul(20));
    }
    room
}

/// The text of blocks behind a first text.
pub fn blocks_text_behind(
    alloc: Global,
    front: &str,
    p: &Protocol,
    blocks: &[Block],
) -> Result<String, OutOfMemory>
    ensures { IfOk result (λ text. string_bytes text ≡ front.now ++ blocks_text p.now blocks.now) }
{
    let mut output = Output::with_room(alloc, room_for(blocks))?;
    output.text(front)?;
    write_blocks(&mut output, p, blocks)?;
    Ok(output.into_string())
}

/// The text of blocks: how many there are, and of each its number and its firings.
pub fn blocks_text(alloc: Global, p: &Protocol, blocks: &[Block]) -> Result<String, OutOfMemory>
    ensures { IfOk result (λ text. string_bytes text ≡ blocks_text p.now blocks.now) }
{
    let mut output = Output::new(alloc);
    write_blocks(&mut output, p, blocks)?;
    Ok(output.into_string())
}
