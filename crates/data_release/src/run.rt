ghost use Rattle.std.specs.Prelude.{◌≡◌, ◌≤◌, List, All, [], ℕ};
ghost use Rattle.blk_base.specs.Trees.{NoneTwice};
ghost use Rattle.block_table.specs.TreeIn.{IsTaken};
ghost use Rattle.tree_frame.specs.Frame.{AreCurrent};
ghost use Rattle.volume_image.specs.Subvolume.{run_addresses};
ghost use Rattle.data_release.specs.LetGo.{AreLeft};

use blk_base::Addr;
use blk_base::format::BLOCK_SIZE;
use block_table::BlockTable;

/// Lets the blocks of a run go, of which there are so many from a byte address on ("EXTENT_DATA" of the on-disk format).
pub fn let_go_run(table: &mut BlockTable, at: Addr, count: u64)
    requires taken { All (IsTaken table.old) (run_addresses at.0 count) }
    requires current { AreCurrent table.old (run_addresses at.0 count) }
    requires once { NoneTwice (run_addresses at.0 count) }
    ensures { AreLeft table.old table.new (run_addresses at.0 count) [] }
{
    // The proof reads here that the table has fewer than 2^32 blocks.
    let _blocks = table.blocks();
    let mut next = at.0;
    let mut left = count;
    while left > 0 {
        table.let_go(Addr(next));
        left -= 1;
        if left > 0 {
            next += BLOCK_SIZE;
        }
    }
}
