//! A run of a file's blocks cut in two.
ghost use Rattle.std.specs.Prelude.{◌≡◌, ◌≤◌, ◌<◌, ◌+◌, ◌^◌, ℕ, MatchOption};
ghost use Rattle.block_table.specs.Table.{free_blocks};
ghost use Rattle.tree_range.specs.Shape.{IsTree, tree_items};
ghost use Rattle.table_volume.specs.Gives.{data_in};
ghost use Rattle.volume_image.specs.Subvolume.{Data};
ghost use Rattle.file_extents.specs.Extents.{Contents, HasRun, HoldContents, IsContentEdit, IsHeld, IsLastRun, IsOver, NoneBegins, NoneOver};

use crate::run::{Run, write_run};
use blk_base::format::BLOCK_SIZE;
use blk_base::{Addr, Ino};
use block_table::{BlockTable, Tree};
use file_blocks::last_extent;
use item_extent::Extent;

/// The last run of a file that begins with a block or in front of it, where there is one ("EXTENT_DATA" of the on-disk format).
pub fn last_run(table: &BlockTable, tree: &Tree, ino: Ino, number: u64) -> Option<Run>
    requires tree { IsTree table.now tree.now }
    requires small { number < 2 ^ 52 }
    ensures { (blocks : Data) (contents : Contents) → HoldContents (tree_items table.now tree.now) blocks ino.0 contents
        → MatchOption result (NoneBegins (HasRun (tree_items table.now tree.now) ino.0) number)
        (λ run. IsLastRun (HasRun (tree_items table.now tree.now) ino.0) number run.begin run.at.0 run.blocks) }
{
    match last_extent(table, tree, ino, number) {
        Some((key, bytes)) => match Extent::open(&key, bytes) {
            Ok(Extent::Regular { at, length, .. }) => Some(Run {
                begin: key.offset / BLOCK_SIZE,
                at,
                blocks: length / BLOCK_SIZE,
            }),
            Ok(Extent::Inline(_)) => None,
            Ok(Extent::Hole { .. }) => None,
            Err(_) => None,
        },
        None => None,
    }
}

/// The run of a file that begins in front of a block and ends behind the one in front of it, where there is one.
fn run_over(table: &BlockTable, tree: &Tree, ino: Ino, number: u64) -> Option<Run>
    requires tree { IsTree table.now tree.now }
    requires small { number < 2 ^ 52 }
    ensures { (blocks : Data) (contents : Contents) → HoldContents (tree_items table.now tree.now) blocks ino.0 contents
        → MatchOption result (NoneOver (HasRun (tree_items table.now tree.now) ino.0) number)
        (λ run. IsOver (HasRun (tree_items table.now tree.now) ino.0) number run.begin run.at.0 run.blocks) }
{
    match last_run(table, tree, ino, number) {
        Some(run) => {
            if number <= run.begin {
                return None;
            }
            if run.blocks <= number - run.begin {
                return None;
            }
            Some(run)
        }
        None => None,
    }
}

/// Cuts the run of a file that goes over the begin of a block into one that ends in front of it and one that begins with it.
/// It takes 34 blocks and buffers at most.
pub(crate) fn cut_run(table: &mut BlockTable, tree: &mut Tree, ino: Ino, running: u64, number: u64)
    requires held { IsHeld table.old tree.old }
    requires small { number < 2 ^ 52 }
    requires holds { (contents : Contents) × HoldContents (tree_items table.old tree.old) (data_in table.old) ino.0 contents }
    requires spare { 34 ≤ table.old.spare }
    requires free { 34 ≤ free_blocks table.old }
    ensures edit { IsContentEdit table.old table.new tree.old tree.new running ino.0 34 }
    ensures contents { (contents : Contents) → HoldContents (tree_items table.old tree.old) (data_in table.old) ino.0 contents
        → HoldContents (tree_items table.new tree.new) (data_in table.new) ino.0 contents }
    ensures none { NoneOver (HasRun (tree_items table.new tree.new) ino.0) number }
    ensures others { (other : ℕ) → NoneOver (HasRun (tree_items table.old tree.old) ino.0) other → NoneOver (HasRun (tree_items table.new tree.new) ino.0) other }
{
    // The proof reads here that the table has fewer than 2^32 blocks.
    let _blocks = table.blocks();
    if let Some(run) = run_over(table, tree, ino, number) {
        let front = number - run.begin;
        let behind = Run {
            begin: number,
            at: Addr(run.at.0 + BLOCK_SIZE * front),
            blocks: run.blocks - front,
        };
        write_run(table, tree, ino, running, behind);
        write_run(
            table,
            tree,
            ino,
            running,
            Run {
                blocks: front,
                ..run
            },
        );
    }
}
