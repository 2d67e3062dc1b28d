//! Free blocks that are taken for a file.
ghost use Rattle.std.specs.Prelude.{◌≡◌, ◌↔◌, ◌≤◌, ◌<◌, ◌+◌, ◌*◌, ◌/◌, ◌^◌, ◌∷◌, [], IsTrue, length};
ghost use Rattle.blk_base.specs.Address.{IsAllowed};
ghost use Rattle.block_table.specs.declared.state.SlotState.{SlotState};
ghost use Rattle.block_table.specs.Table.{NoneFree, free_blocks};
ghost use Rattle.block_table.specs.TreeIn.{block_at};
ghost use Rattle.tree_blocks.specs.Steps.{IsSameBut, IsTakenAt};
ghost use Rattle.file_extents.specs.Extents.{AreTakenAt, text_block};

use crate::run::Run;
use blk_base::format::BLOCK_SIZE;
use blk_base::{Addr, Block, Text};
use block_table::{BlockTable, SlotState};

/// Takes a Free block that a volume may use, and makes it Dirty with these bytes.
pub(crate) fn fresh(table: &mut BlockTable, bytes: &Block) -> Addr
    requires spare { 1 ≤ table.old.spare }
    requires free { 1 ≤ free_blocks table.old }
    ensures taken { IsTakenAt table.old table.new result.0 }
    ensures bytes { (block_at table.new result.0).bytes ≡ bytes.now }
    ensures others { IsSameBut table.old table.new (result.0 ∷ []) }
    ensures spare { table.new.spare + 1 ≡ table.old.spare }
    ensures free { free_blocks table.new + 1 ≡ free_blocks table.old }
{
    let at = table.take();
    *table.block_mut(at) = *bytes;
    at
}

/// Copies what a text has for a block of a file over a block.
fn lay(block: &mut Block, number: u64, offset: u64, text: &Text)
    requires small { number < 2 ^ 52 }
    requires begins { offset ≤ 4096 * number }
    requires covers { 4096 * number + 4096 ≤ offset + length text.now }
    ensures { block.new ≡ text_block offset text.now number }
{
    text.copy_to((BLOCK_SIZE * number - offset) as usize, &mut block[..]);
}

/// Takes the first Free block that a volume may use, and makes it Dirty with what a text has for a block of a file.
fn fresh_text(table: &mut BlockTable, number: u64, offset: u64, text: &Text) -> Addr
    requires small { number < 2 ^ 52 }
    requires begins { offset ≤ 4096 * number }
    requires covers { 4096 * number + 4096 ≤ offset + length text.now }
    requires spare { 1 ≤ table.old.spare }
    requires free { 1 ≤ free_blocks table.old }
    ensures taken { IsTakenAt table.old table.new result.0 }
    ensures first { NoneFree table.old.slots 0 (result.0 / 4096) }
    ensures bytes { (block_at table.new result.0).bytes ≡ text_block offset text.now number }
    ensures others { IsSameBut table.old table.new (result.0 ∷ []) }
    ensures spare { table.new.spare + 1 ≡ table.old.spare }
    ensures free { free_blocks table.new + 1 ≡ free_blocks table.old }
{
    let at = table.take();
    lay(table.block_mut(at), number, offset, text);
    at
}

/// Whether a volume may use the block at a byte address, and it is Free.
fn is_free(table: &BlockTable, at: Addr) -> bool
    ensures { IsTrue result ↔ (IsAllowed (length table.now.slots) at.0 × ((block_at table.now at.0).state ≡ SlotState.Free)) }
{
    table.is_allowed(at) && table.state(at) == SlotState::Free
}

/// Takes the first Free block that a volume may use, and those that are Free one behind the other behind it, at most so many,
/// and makes them Dirty with what a text has for the blocks of a file from a number on.
pub(crate) fn fresh_run(
    table: &mut BlockTable,
    number: u64,
    most: u64,
    offset: u64,
    text: &Text,
) -> Run
    requires small { number + most < 2 ^ 52 }
    requires some { 1 ≤ most }
    requires begins { offset ≤ 4096 * number }
    requires covers { 4096 * (number + most) ≤ offset + length text.now }
    requires spare { most ≤ table.old.spare }
    requires free { most ≤ free_blocks table.old }
    ensures begin { result.begin ≡ number }
    ensures some { 1 ≤ result.blocks }
    ensures most { result.blocks ≤ most }
    ensures taken { AreTakenAt table.old table.new result.at.0 result.blocks (λ i. text_block offset text.now (number + i)) }
{
    // The proof reads here that the table has fewer than 2^32 blocks.
    let _blocks = table.blocks();
    let at = fresh_text(table, number, offset, text);
    let mut blocks = 1;
    while blocks < most && is_free(table, Addr(at.0 + BLOCK_SIZE * blocks)) {
        fresh_text(table, number + blocks, offset, text);
        blocks += 1;
    }
    Run {
        begin: number,
        at,
        blocks,
    }
}
