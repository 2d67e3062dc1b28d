//! How many blocks of a file are no holes.
ghost use Rattle.std.specs.Prelude.{◌≡◌, ◌≤◌, ◌-◌, ◌^◌, Some};
ghost use Rattle.std.specs.FinMap.{get};
ghost use Rattle.file_extents.specs.Extents.{Contents, HoldContents, held_between};
ghost use Rattle.flat_model.specs.Needs.{blocks_past};
ghost use Rattle.flat_model.specs.Records.{FileInode, FileRecord};
ghost use Rattle.flat_model.specs.Volume.{Subvolume};
ghost use Rattle.name_walk.specs.Given.{GivesCoherent};
ghost use Rattle.tree_range.specs.Shape.{IsTree, tree_items};
ghost use Rattle.volume_image.specs.Subvolume.{Data};

use blk_base::Ino;
use blk_base::format::BLOCK_SIZE;
use blk_base::limits::MOST_FILE_BYTES;
use block_table::{BlockTable, Tree};
use file_extents::last_run;

/// The number behind the last block that a file may have.
pub(crate) const END: u64 = MOST_FILE_BYTES / BLOCK_SIZE;

/// How many blocks of a file from one number on and below another are no holes.
pub(crate) fn held_blocks(table: &BlockTable, tree: &Tree, ino: Ino, from: u64, to: u64) -> u64
    requires tree { IsTree table.now tree.now }
    requires order { from ≤ to }
    requires small { to ≤ 2 ^ 52 }
    ensures { (blocks : Data) (contents : Contents) → HoldContents (tree_items table.now tree.now) blocks ino.0 contents
        → result ≡ held_between contents from (to - from) }
{
    let mut count = 0;
    let mut end = to;
    while from < end {
        match last_run(table, tree, ino, end - 1) {
            Some(run) => {
                let begin = run.begin.max(from);
                if begin >= end {
                    return count;
                }
                count += run
                    .blocks
                    .saturating_sub(begin - run.begin)
                    .min(end - begin);
                end = begin;
            }
            None => return count,
        }
    }
    count
}

/// How many blocks of a file that are no holes are wholly past a size, in bytes ("EXTENT_DATA" of the on-disk format).
pub fn blocks_past(table: &BlockTable, tree: &Tree, ino: Ino, size: u64) -> u64
    requires { IsTree table.now tree.now }
    ensures { (given : Subvolume) (file : FileRecord) → GivesCoherent table.now tree.now given → get given.inodes ino.0 ≡ Some (FileInode file)
        → result ≡ blocks_past file size }
{
    if size >= MOST_FILE_BYTES {
        return 0;
    }
    held_blocks(table, tree, ino, (size + BLOCK_SIZE - 1) / BLOCK_SIZE, END)
}
