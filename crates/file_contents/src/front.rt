//! The run in front of a block of a file.
ghost use Rattle.std.specs.Prelude.{◌≡◌, ◌<◌, ◌^◌, None};
ghost use Rattle.file_contents.specs.Joined.{IsInFront};
ghost use Rattle.file_extents.specs.Extents.{Contents, HasRun, HoldContents};
ghost use Rattle.tree_range.specs.Shape.{IsTree, tree_items};
ghost use Rattle.volume_image.specs.Subvolume.{Data};

use blk_base::{Addr, Ino};
use block_table::{BlockTable, Tree};
use file_extents::{Run, last_run};

/// The last run of a file in front of a block that is a hole; one that has no block where there is none.
pub(crate) fn run_in_front(table: &BlockTable, tree: &Tree, ino: Ino, number: u64) -> Run
    requires tree { IsTree table.now tree.now }
    requires small { number < 2 ^ 52 }
    ensures { (blocks : Data) (contents : Contents) → HoldContents (tree_items table.now tree.now) blocks ino.0 contents → contents number ≡ None
        → IsInFront (HasRun (tree_items table.now tree.now) ino.0) number result.begin result.at.0 result.blocks }
{
    match last_run(table, tree, ino, number) {
        Some(run) => run,
        None => Run {
            begin: 0,
            at: Addr(0),
            blocks: 0,
        },
    }
}
