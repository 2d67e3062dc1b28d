ghost use Rattle.std.specs.Prelude.{◌≤◌, ◌+◌, ◌*◌, length};
ghost use Rattle.block_table.specs.Table.{free_blocks};
ghost use Rattle.cow_tree.specs.Below.{IsWritable, IsWritten};
ghost use Rattle.cow_tree.specs.Pieces.{pointers_of};

use crate::leaf::write_in_leaf;
use crate::node::{child_place, write_in_node};
use crate::pieces::Pieces;
use blk_base::format::{ITEM_HEADER_SIZE, LEAF_BYTES};
use blk_base::{Addr, Key};
use block_table::BlockTable;
use tree_blocks::node_child;

/// Puts an item below a block on this level, in place of the one of its key, where there is one, and answers the blocks
/// that then stand in its place.
pub(crate) fn write_below(
    table: &mut BlockTable,
    level: u8,
    at: Addr,
    key: Key,
    bytes: &[u8],
) -> Pieces
    requires writable { IsWritable level table.old at.0 }
    requires short { ITEM_HEADER_SIZE + length bytes.now ≤ LEAF_BYTES }
    requires spare { 2 * level + 3 ≤ table.old.spare }
    requires free { 2 * level + 3 ≤ free_blocks table.old }
    ensures { IsWritten level table.old table.new at.0 key bytes.now (pointers_of result) }
{
    if level == 0 {
        return write_in_leaf(table, at, key, bytes);
    }
    let place = child_place(table, at, &key);
    let (child, _) = node_child(table, at, place);
    let pieces = write_below(table, level - 1, child, key, bytes);
    write_in_node(table, at, place, &pieces)
}
