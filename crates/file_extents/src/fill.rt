//! A hole of a file that gets a block.
ghost use Rattle.std.specs.Prelude.{◌≡◌, ◌≢◌, ◌↔◌, ◌⊎◌, ◌≤◌, ◌<◌, ◌+◌, ◌^◌, ℕ, None};
ghost use Rattle.block_table.specs.Table.{free_blocks};
ghost use Rattle.tree_range.specs.Shape.{tree_items};
ghost use Rattle.table_volume.specs.Gives.{data_in};
ghost use Rattle.file_extents.specs.Extents.{Contents, HasRun, HoldContents, IsContentEdit, IsHeld, Joins, StandsBefore, with_block};

use crate::fresh::fresh;
use crate::run::{Run, write_run};
use blk_base::format::BLOCK_SIZE;
use blk_base::{Addr, Block, Ino};
use block_table::{BlockTable, Tree};

/// The run that a block of a file makes with one in front of it: a longer one where the block follows on it, in the file and
/// on the disk, and it has fewer than 4096 blocks; else a run of its own.
pub(crate) fn joined(front: Run, number: u64, at: Addr) -> Run
    requires small { number < 2 ^ 52 }
    ensures { Joins front.begin front.at.0 front.blocks number at.0 result.begin result.at.0 result.blocks }
{
    if front.blocks > 0
        && front.blocks < 4096
        && front.begin < number
        && number - front.begin == front.blocks
        && front.at.0 <= at.0
        && (at.0 - front.at.0) / BLOCK_SIZE == front.blocks
        && (at.0 - front.at.0) % BLOCK_SIZE == 0
    {
        return Run {
            blocks: front.blocks + 1,
            ..front
        };
    }
    Run {
        begin: number,
        at,
        blocks: 1,
    }
}

/// Gives a block of a file that is a hole a new block with these bytes, which is Dirty then. The run in front of it that it
/// follows on grows by it; where there is none, `front` has no block. It answers the run that the block is in, all others stay,
/// and it takes 18 blocks and buffers at most.
pub fn put_block(
    table: &mut BlockTable,
    tree: &mut Tree,
    ino: Ino,
    running: u64,
    front: Run,
    number: u64,
    content: &Block,
) -> Run
    requires held { IsHeld table.old tree.old }
    requires small { number < 2 ^ 52 }
    requires hole { (contents : Contents) × HoldContents (tree_items table.old tree.old) (data_in table.old) ino.0 contents × (contents number ≡ None) }
    requires front { StandsBefore (HasRun (tree_items table.old tree.old) ino.0) front.begin front.at.0 front.blocks }
    requires spare { 18 ≤ table.old.spare }
    requires free { 18 ≤ free_blocks table.old }
    ensures edit { IsContentEdit table.old table.new tree.old tree.new running ino.0 18 }
    ensures contents { (contents : Contents) → HoldContents (tree_items table.old tree.old) (data_in table.old) ino.0 contents → contents number ≡ None
        → HoldContents (tree_items table.new tree.new) (data_in table.new) ino.0 (with_block contents number content.now) }
    ensures run { HasRun (tree_items table.new tree.new) ino.0 result.begin result.at.0 result.blocks }
    ensures others { (begin at count : ℕ) → begin ≢ result.begin
        → HasRun (tree_items table.new tree.new) ino.0 begin at count ↔ HasRun (tree_items table.old tree.old) ino.0 begin at count }
    ensures joined { (at : ℕ) × Joins front.begin front.at.0 front.blocks number at result.begin result.at.0 result.blocks }
{
    let at = fresh(table, content);
    let run = joined(front, number, at);
    write_run(table, tree, ino, running, run);
    run
}
