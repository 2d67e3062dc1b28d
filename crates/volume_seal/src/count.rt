//! How many blocks a tree and its files' data have.
ghost use Rattle.std.specs.Prelude.{◌≡◌, ◌≢◌, ◌+◌, ◌<◌, ◌^◌, All, Bool, length};
ghost use Rattle.blk_base.specs.Trees.{NoneTwice};
ghost use Rattle.block_table.specs.declared.state.SlotState.{SlotState};
ghost use Rattle.block_table.specs.TreeIn.{IsTaken, block_at};
ghost use Rattle.tree_blocks.specs.Steps.{IsLeafAt};
ghost use Rattle.tree_range.specs.Shape.{IsSubtree, IsTree, items_below, leaf_items, reach_below};
ghost use Rattle.table_volume.specs.Gives.{sub_reach, tree_data};
ghost use Rattle.volume_image.specs.Subvolume.{data_addresses};

use crate::data::run_of;
use blk_base::Addr;
use block_table::{BlockTable, Tree};
use tree_blocks::{leaf_data, leaf_key, leaf_len, node_child, node_len};

/// How many data blocks the items of a leaf lead to.
fn count_leaf_data(table: &BlockTable, at: Addr) -> u32
    requires leaf { IsLeafAt table.now at.0 }
    requires here { (block_at table.now at.0).state ≢ SlotState.Free }
    requires few { length (data_addresses (leaf_items table.now at.0)) < 2 ^ 32 }
    ensures { result ≡ length (data_addresses (leaf_items table.now at.0)) }
{
    let mut count = 0;
    for place in 0..leaf_len(table, at) {
        let run = run_of(&leaf_key(table, at, place), leaf_data(table, at, place));
        count += run.blocks as u32;
    }
    count
}

/// How many blocks stand below a block, it among them, and how many data blocks their items lead to.
fn count_below(table: &BlockTable, level: u8, at: Addr) -> u32
    requires shape { (is_root : Bool) × IsSubtree level table.now is_root at.0 }
    requires few { length (reach_below level table.now at.0) + length (data_addresses (items_below level table.now at.0)) < 2 ^ 32 }
    ensures { result ≡ length (reach_below level table.now at.0) + length (data_addresses (items_below level table.now at.0)) }
{
    if level == 0 {
        return 1 + count_leaf_data(table, at);
    }
    let mut count = 1;
    for place in 0..node_len(table, at) {
        let (child, _) = node_child(table, at, place);
        count += count_below(table, level - 1, child);
    }
    count
}

/// How many blocks of 4096 bytes a tree and its files' data have, which the superblock counts ("Superblock" of the on-disk
/// format: bytes_used).
pub fn count_blocks(table: &BlockTable, tree: &Tree) -> u32
    requires tree { IsTree table.now tree.now }
    requires taken { All (IsTaken table.now) (tree_data table.now tree.now) }
    requires once { NoneTwice (sub_reach table.now tree.now) }
    ensures { result ≡ length (sub_reach table.now tree.now) }
{
    // The proof reads here that the table has fewer than 2^32 blocks.
    let _blocks = table.blocks();
    count_below(table, tree.level, tree.root)
}
