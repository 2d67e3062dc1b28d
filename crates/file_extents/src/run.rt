//! A run of a file's blocks as an item.
ghost use Rattle.std.specs.Prelude.{◌≡◌, ◌≤◌, ◌<◌, ◌*◌, ◌^◌, Ok};
ghost use Rattle.blk_base.specs.Extents.{Regular, extent_of, regular_bytes};
ghost use Rattle.blk_base.specs.Keys.{extent_data};
ghost use Rattle.block_table.specs.Table.{free_blocks};
ghost use Rattle.tree_range.specs.Shape.{IsTree, tree_items, tree_reach};
ghost use Rattle.tree_frame.specs.Frame.{AreCurrent, with_item};
ghost use Rattle.table_volume.specs.TreeEdit.{IsTreeEdit};
ghost use Rattle.volume_image.specs.Subvolume.{make_key};

use blk_base::format::BLOCK_SIZE;
use blk_base::{Addr, Ino};
use block_table::{BlockTable, Tree};
use file_blocks::extent_key;
use item_edit::write_item;
use item_extent::put_regular;

/// A run of a file's blocks, which are one extent: the number of the first of them within the file, its byte address, and how
/// many they are; none of a file has no block ("EXTENT_DATA" of the on-disk format).
#[derive(Clone, Copy, Debug, PartialEq, Eq)]
pub struct Run {
    pub begin: u64,
    pub at: Addr,
    pub blocks: u64,
}

/// Writes the item of a run of 1 to 4096 blocks, in place of the one that begins where it does, if any.
pub(crate) fn write_run(table: &mut BlockTable, tree: &mut Tree, ino: Ino, running: u64, run: Run)
    requires tree { IsTree table.old tree.old }
    requires current { AreCurrent table.old (tree_reach table.old tree.old) }
    requires begin { run.begin < 2 ^ 52 }
    requires at { run.at.0 < 2 ^ 64 }
    requires some { 1 ≤ run.blocks }
    requires most { run.blocks ≤ 4096 }
    requires spare { 17 ≤ table.old.spare }
    requires free { 17 ≤ free_blocks table.old }
    ensures edit { IsTreeEdit table.old table.new tree.old tree.new running 17 }
    ensures items { tree_items table.new tree.new
        ≡ with_item (make_key ino.0 extent_data (4096 * run.begin)) (regular_bytes running run.at.0 (4096 * run.blocks)) (tree_items table.old tree.old) }
    ensures read { extent_of (make_key ino.0 extent_data (4096 * run.begin)) (regular_bytes running run.at.0 (4096 * run.blocks)) ≡ Ok (Regular run.at.0 0 (4096 * run.blocks)) }
{
    let mut bytes = [0; 53];
    put_regular(running, run.at, BLOCK_SIZE * run.blocks, &mut bytes);
    write_item(table, tree, extent_key(ino, run.begin), &bytes);
}
