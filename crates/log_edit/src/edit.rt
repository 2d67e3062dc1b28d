ghost use Rattle.std.specs.Prelude.{◌≡◌, ◌≤◌, ◌+◌, ℕ, List, None, IsSome, length};
ghost use Rattle.block_table.specs.TreeIn.{IsSealedTree};
ghost use Rattle.tree_range.specs.Between.{data_under};
ghost use Rattle.tree_range.specs.Shape.{IsTree, tree_items, tree_reach};
ghost use Rattle.tree_frame.specs.Frame.{AreCurrent, IsEdit, with_item, without_item};
ghost use Rattle.log_edit.specs.Room.{HasRoomFor, room_of_tree, spare_of_tree};

use blk_base::Key;
use blk_base::format::MOST_ITEM_BYTES;
use block_table::{BlockTable, Tree};
use cow_tree::{delete, put, replace};

/// Puts an item under a key that the tree hasn't, with 3970 bytes of data at most ("btrfs_insert_empty_item" of
/// fs/btrfs/ctree.c). The tree's room is for one item less then.
pub fn put_item(table: &mut BlockTable, tree: &mut Tree, key: Key, bytes: &[u8])
    requires tree { IsTree table.old tree.old }
    requires current { AreCurrent table.old (tree_reach table.old tree.old) }
    requires absent { data_under key (tree_items table.old tree.old) ≡ None }
    requires short { length bytes.now ≤ MOST_ITEM_BYTES }
    requires room { HasRoomFor table.old tree.old 1 }
    ensures tree { IsTree table.new tree.new }
    ensures items { tree_items table.new tree.new ≡ with_item key bytes.now (tree_items table.old tree.old) }
    ensures owner { tree.new.owner ≡ tree.old.owner }
    ensures edit { IsEdit table.old table.new (tree_reach table.old tree.old) (tree_reach table.new tree.new) }
    ensures current { AreCurrent table.new (tree_reach table.new tree.new) }
    ensures sealed { (fsid : List ℕ) (was : ℕ) → IsSealedTree table.old tree.old fsid was → (now : ℕ) × IsSealedTree table.new tree.new fsid now }
    ensures blocks { room_of_tree table.new tree.new ≡ room_of_tree table.old tree.old }
    ensures buffers { spare_of_tree table.new tree.new ≡ spare_of_tree table.old tree.old }
    ensures room { (more : ℕ) → HasRoomFor table.old tree.old (more + 1) → HasRoomFor table.new tree.new more }
{
    put(table, tree, key, bytes);
}

/// Puts other data, of 3970 bytes at most, under a key that the tree has. The tree's room stays.
pub fn replace_item(table: &mut BlockTable, tree: &mut Tree, key: Key, bytes: &[u8])
    requires tree { IsTree table.old tree.old }
    requires current { AreCurrent table.old (tree_reach table.old tree.old) }
    requires present { IsSome (data_under key (tree_items table.old tree.old)) }
    requires short { length bytes.now ≤ MOST_ITEM_BYTES }
    requires room { HasRoomFor table.old tree.old 0 }
    ensures tree { IsTree table.new tree.new }
    ensures items { tree_items table.new tree.new ≡ with_item key bytes.now (tree_items table.old tree.old) }
    ensures owner { tree.new.owner ≡ tree.old.owner }
    ensures edit { IsEdit table.old table.new (tree_reach table.old tree.old) (tree_reach table.new tree.new) }
    ensures current { AreCurrent table.new (tree_reach table.new tree.new) }
    ensures sealed { (fsid : List ℕ) (was : ℕ) → IsSealedTree table.old tree.old fsid was → (now : ℕ) × IsSealedTree table.new tree.new fsid now }
    ensures blocks { room_of_tree table.new tree.new ≡ room_of_tree table.old tree.old }
    ensures buffers { spare_of_tree table.new tree.new ≡ spare_of_tree table.old tree.old }
    ensures room { (more : ℕ) → HasRoomFor table.old tree.old more → HasRoomFor table.new tree.new more }
{
    replace(table, tree, key, bytes);
}

/// Takes the item under a key out of a tree ("btrfs_del_items" of fs/btrfs/ctree.c). The tree's room is for one item more
/// then.
pub fn delete_item(table: &mut BlockTable, tree: &mut Tree, key: &Key)
    requires tree { IsTree table.old tree.old }
    requires current { AreCurrent table.old (tree_reach table.old tree.old) }
    requires present { IsSome (data_under key.now (tree_items table.old tree.old)) }
    requires room { HasRoomFor table.old tree.old 0 }
    ensures tree { IsTree table.new tree.new }
    ensures items { tree_items table.new tree.new ≡ without_item key.now (tree_items table.old tree.old) }
    ensures owner { tree.new.owner ≡ tree.old.owner }
    ensures edit { IsEdit table.old table.new (tree_reach table.old tree.old) (tree_reach table.new tree.new) }
    ensures current { AreCurrent table.new (tree_reach table.new tree.new) }
    ensures sealed { (fsid : List ℕ) (was : ℕ) → IsSealedTree table.old tree.old fsid was → (now : ℕ) × IsSealedTree table.new tree.new fsid now }
    ensures blocks { room_of_tree table.new tree.new ≡ room_of_tree table.old tree.old }
    ensures buffers { spare_of_tree table.new tree.new ≡ spare_of_tree table.old tree.old }
    ensures room { (more : ℕ) → HasRoomFor table.old tree.old more → HasRoomFor table.new tree.new (more + 1) }
{
    delete(table, tree, key);
}
