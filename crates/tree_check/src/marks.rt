//! Data blocks that two extents name.
ghost use Rattle.std.specs.Prelude.{◌≡◌, ◌∷◌, [], length, All, IfErr, OnOk};
ghost use Rattle.blk_base.specs.Address.{IsAllowed};
ghost use Rattle.tree_range.specs.Shape.{IsTree};
ghost use Rattle.tree_check.specs.Blocks.{AreMore, IsMarkFault, IsOnceAnswer, run_of, runs_of};

use crate::fault::TreeFault;
use crate::runs::{Run, add_tree};
use blk_base::format::BLOCK_SIZE;
use blk_base::{Addr, is_allowed};
use block_table::{BlockTable, Tree};
use std::alloc::Global;

/// Marks the block at a byte address as reached.
fn mark_block(blocks: u32, marks: &mut [bool], at: Addr) -> Result<(), TreeFault>
    requires { length marks.old ≡ blocks }
    ensures ok { OnOk result (AreMore blocks marks.old marks.new (at.0 ∷ [])) }
    ensures allowed { OnOk result (IsAllowed blocks at.0) }
    ensures fault { IfErr result (IsMarkFault blocks marks.old (at.0 ∷ [])) }
{
    if !is_allowed(blocks, at) {
        return Err(TreeFault::Outside(at));
    }
    let number = (at.0 / BLOCK_SIZE) as usize;
    if marks[number] {
        return Err(TreeFault::Twice(at));
    }
    marks[number] = true;
    Ok(())
}

/// Marks the blocks of a run as reached.
fn mark_run(blocks: u32, marks: &mut [bool], run: Run) -> Result<(), TreeFault>
    requires { length marks.old ≡ blocks }
    ensures ok { OnOk result (AreMore blocks marks.old marks.new (run_of run)) }
    ensures fault { IfErr result (IsMarkFault blocks marks.old (run_of run)) }
{
    let mut at = run.at;
    for _place in 0..run.count {
        mark_block(blocks, marks, at)?;
        at = Addr(at.0 + BLOCK_SIZE);
    }
    Ok(())
}

/// Marks the blocks of runs as reached, one run behind the other.
fn mark_runs(blocks: u32, marks: &mut [bool], runs: &[Run]) -> Result<(), TreeFault>
    requires { length marks.old ≡ blocks }
    ensures ok { OnOk result (AreMore blocks marks.old marks.new (runs_of runs.now)) }
    ensures fault { IfErr result (IsMarkFault blocks marks.old (runs_of runs.now)) }
{
    for run in runs {
        mark_run(blocks, marks, *run)?;
    }
    Ok(())
}

/// Whether no two extents of the trees name one block ("EXTENT_DATA" of the Btrfs on-disk format).
///
/// The blocks are looked at in the order of the trees, in each by rising keys, and in a run from its first on. `Err`:
/// `Twice` with the byte address of the first one that an extent in front of it names too, or `Outside` with the first
/// one whose address isn't allowed, which no tree has whose data blocks were read by `data`. `OutOfMemory` comes at any
/// place: the call takes a byte for each block of the table, and 16 for each run.
pub fn once(alloc: Global, table: &BlockTable, trees: &[Tree]) -> Result<(), TreeFault>
    requires { All (IsTree table.now) trees.now }
    ensures { IsOnceAnswer table.now trees.now result }
{
    let mut runs = Vec::new(alloc);
    for tree in trees {
        if add_tree(&mut runs, table, tree).is_err() {
            return Err(TreeFault::OutOfMemory);
        }
    }
    let blocks = table.blocks();
    let Ok(mut marks) = vec![in alloc; false; blocks as usize] else {
        return Err(TreeFault::OutOfMemory);
    };
    mark_runs(blocks, &mut marks, &runs)
}
