ghost use Rattle.std.specs.Prelude.{◌≡◌, ◌≤◌, ◌+◌, ◌*◌};
ghost use Rattle.block_table.specs.Table.{free_blocks};
ghost use Rattle.tree_delete.specs.Rows.{HasItemBelow, IsLessNode};

use crate::leaf::shrink_leaf;
use crate::node::{change_child, child_place, drop_child};
use crate::pair::repair;
use blk_base::limits::LEAST_POINTERS;
use blk_base::{Addr, Key};
use block_table::BlockTable;
use tree_blocks::{leaf_key, node_child, node_key, node_len};

/// Takes the item under a key out of the leaves below a node, and answers where the node stands then.
fn delete_above_leaves(table: &mut BlockTable, at: Addr, key: &Key) -> Addr
    requires below { HasItemBelow 0 table.old at.0 key.now }
    requires spare { 2 ≤ table.old.spare }
    requires free { 2 ≤ free_blocks table.old }
    ensures { IsLessNode 0 table.old table.new at.0 result.0 key.now }
{
    let place = child_place(table, at, key);
    let leaf = node_child(table, at, place).0;
    match shrink_leaf(table, leaf, key) {
        None => drop_child(table, at, place),
        Some(leaf) => {
            let first = leaf_key(table, leaf, 0);
            change_child(table, at, place, first, leaf)
        }
    }
}

/// Takes the item under a key out of what is below a node whose children stand on a level, and answers where the node
/// stands then. A node below it that is left with fewer than 30 pointers shares those of a sibling ("balance_level" of
/// fs/btrfs/ctree.c).
pub(crate) fn delete_below(table: &mut BlockTable, level: u8, at: Addr, key: &Key) -> Addr
    requires below { HasItemBelow level table.old at.0 key.now }
    requires spare { 2 * level + 2 ≤ table.old.spare }
    requires free { 2 * level + 2 ≤ free_blocks table.old }
    ensures { IsLessNode level table.old table.new at.0 result.0 key.now }
{
    if level == 0 {
        return delete_above_leaves(table, at, key);
    }
    let place = child_place(table, at, key);
    let child = node_child(table, at, place).0;
    let child = delete_below(table, level - 1, child, key);
    let first = node_key(table, child, 0);
    let copy = change_child(table, at, place, first, child);
    if node_len(table, child) >= LEAST_POINTERS {
        return copy;
    }
    repair(table, copy, place);
    copy
}
