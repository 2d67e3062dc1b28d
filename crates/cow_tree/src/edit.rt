ghost use Rattle.std.specs.Prelude.{◌≡◌, ◌≤◌, ◌+◌, List, None, Some, IsSome, length, ℕ};
ghost use Rattle.block_table.specs.Table.{free_blocks};
ghost use Rattle.block_table.specs.TreeIn.{IsSealedTree};
ghost use Rattle.tree_range.specs.Between.{data_under};
ghost use Rattle.tree_range.specs.Shape.{IsTree, tree_items, tree_reach};
ghost use Rattle.tree_frame.specs.Frame.{AreCurrent, IsEdit, TakesAtMost, tree_leaves, with_item};
ghost use Rattle.cow_tree.specs.Whole.{IsTreeWritten};

use crate::node::node_over;
use crate::pieces::Pieces;
use crate::write::write_below;
use blk_base::Key;
use blk_base::format::MOST_ITEM_BYTES;
use block_table::{BlockTable, Tree};

/// Puts an item into a tree, in place of the one of its key, where there is one. Where two or three blocks then stand in
/// place of the root, a new node over them is the root ("insert_new_root" of fs/btrfs/ctree.c). A root on level 7, the
/// highest, has the room, since the table has fewer than 2^32 blocks.
fn write(table: &mut BlockTable, tree: &mut Tree, key: Key, bytes: &[u8])
    requires tree { IsTree table.old tree.old }
    requires current { AreCurrent table.old (tree_reach table.old tree.old) }
    requires short { length bytes.now ≤ MOST_ITEM_BYTES }
    requires spare { 17 ≤ table.old.spare }
    requires free { 17 ≤ free_blocks table.old }
    ensures { IsTreeWritten table.old table.new tree.old tree.new key bytes.now }
{
    // The proof reads here that the table has fewer than 2^32 blocks.
    let _blocks = table.blocks();
    let pieces = write_below(table, tree.level, tree.root, key, bytes);
    if let Pieces::One(only) = pieces {
        tree.root = only.at;
        return;
    }
    tree.root = node_over(table, &pieces);
    tree.level += 1;
}

/// Puts an item under a key that the tree hasn't, with 3970 bytes of data at most ("btrfs_insert_empty_item" and
/// "split_leaf" of fs/btrfs/ctree.c). It takes 17 blocks and buffers at most, as many of the one as
/// of the other, and makes two leaves at most. Where each block that isn't Dirty passed its header's checks by the pointer to
/// it, each still does.
pub fn put(table: &mut BlockTable, tree: &mut Tree, key: Key, bytes: &[u8])
    requires tree { IsTree table.old tree.old }
    requires current { AreCurrent table.old (tree_reach table.old tree.old) }
    requires absent { data_under key (tree_items table.old tree.old) ≡ None }
    requires short { length bytes.now ≤ MOST_ITEM_BYTES }
    requires spare { 17 ≤ table.old.spare }
    requires free { 17 ≤ free_blocks table.old }
    ensures tree { IsTree table.new tree.new }
    ensures items { tree_items table.new tree.new ≡ with_item key bytes.now (tree_items table.old tree.old) }
    ensures owner { tree.new.owner ≡ tree.old.owner }
    ensures edit { IsEdit table.old table.new (tree_reach table.old tree.old) (tree_reach table.new tree.new) }
    ensures current { AreCurrent table.new (tree_reach table.new tree.new) }
    ensures sealed { (fsid : List ℕ) (was : ℕ) → IsSealedTree table.old tree.old fsid was → (now : ℕ) × IsSealedTree table.new tree.new fsid now }
    ensures blocks { TakesAtMost table.old table.new 17 }
    ensures balance { table.new.spare + free_blocks table.old ≡ table.old.spare + free_blocks table.new }
    ensures leaves { tree_leaves table.new tree.new ≤ tree_leaves table.old tree.old + 2 }
{
    write(table, tree, key, bytes);
}

/// Puts other data, of 3970 bytes at most, under a key that the tree has. It takes 17 blocks and buffers at most, as
/// many of the one as of the other. It makes two leaves at most, and none where the data aren't longer than those that were
/// there. Where each block that isn't Dirty passed its header's checks by the pointer to it, each still does.
pub fn replace(table: &mut BlockTable, tree: &mut Tree, key: Key, bytes: &[u8])
    requires tree { IsTree table.old tree.old }
    requires current { AreCurrent table.old (tree_reach table.old tree.old) }
    requires present { IsSome (data_under key (tree_items table.old tree.old)) }
    requires short { length bytes.now ≤ MOST_ITEM_BYTES }
    requires spare { 17 ≤ table.old.spare }
    requires free { 17 ≤ free_blocks table.old }
    ensures tree { IsTree table.new tree.new }
    ensures items { tree_items table.new tree.new ≡ with_item key bytes.now (tree_items table.old tree.old) }
    ensures owner { tree.new.owner ≡ tree.old.owner }
    ensures edit { IsEdit table.old table.new (tree_reach table.old tree.old) (tree_reach table.new tree.new) }
    ensures current { AreCurrent table.new (tree_reach table.new tree.new) }
    ensures sealed { (fsid : List ℕ) (was : ℕ) → IsSealedTree table.old tree.old fsid was → (now : ℕ) × IsSealedTree table.new tree.new fsid now }
    ensures blocks { TakesAtMost table.old table.new 17 }
    ensures balance { table.new.spare + free_blocks table.old ≡ table.old.spare + free_blocks table.new }
    ensures leaves { tree_leaves table.new tree.new ≤ tree_leaves table.old tree.old + 2 }
    ensures no_leaf { (stood : List ℕ) → data_under key (tree_items table.old tree.old) ≡ Some stood → length bytes.now ≤ length stood → tree_leaves table.new tree.new ≡ tree_leaves table.old tree.old }
{
    write(table, tree, key, bytes);
}
