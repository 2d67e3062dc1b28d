ghost use Rattle.std.specs.Prelude.{◌≡◌, ◌≤◌, ◌+◌, ◌*◌, ℕ, List, length};
ghost use Rattle.block_table.specs.Table.{free_blocks};
ghost use Rattle.blk_base.specs.Trees.{first_key};
ghost use Rattle.block_table.specs.TreeIn.{IsSealedTree};
ghost use Rattle.tree_range.specs.Between.{items_between};
ghost use Rattle.tree_range.specs.Shape.{IsTree, tree_items, tree_reach};
ghost use Rattle.tree_frame.specs.Frame.{AreCurrent, IsEdit, TakesAtMost, tree_leaves};
ghost use Rattle.tree_delete_range.specs.Outside.{items_outside};

use blk_base::Key;
use block_table::{BlockTable, Tree};
use tree_delete::delete;
use tree_range::range;

/// The key of the first item from `first` to `last`, both included; `None` where the tree has none (own).
fn first_between(table: &BlockTable, tree: &Tree, first: &Key, last: &Key) -> Option<Key>
    requires { IsTree table.now tree.now }
    ensures { result ≡ first_key (items_between first.now last.now (tree_items table.now tree.now)) }
{
    match range(table, tree, first, last).next() {
        Some((key, _)) => Some(key),
        None => None,
    }
}

/// Takes the items whose keys are from `first` to `last`, both included, out of a tree ("btrfs_truncate_inode_items" of
/// fs/btrfs/inode-item.c removes a range of items).
///
/// It takes at most two blocks and buffers for each of these items, and 34 more, than it gives back, and as many
/// blocks as buffers. The tree may lose levels.
pub fn delete_range(table: &mut BlockTable, tree: &mut Tree, first: &Key, last: &Key)
    requires tree { IsTree table.old tree.old }
    requires current { AreCurrent table.old (tree_reach table.old tree.old) }
    requires spare { 2 * length (items_between first.now last.now (tree_items table.old tree.old)) + 34 ≤ table.old.spare }
    requires free { 2 * length (items_between first.now last.now (tree_items table.old tree.old)) + 34 ≤ free_blocks table.old }
    ensures tree { IsTree table.new tree.new }
    ensures items { tree_items table.new tree.new ≡ items_outside first.now last.now (tree_items table.old tree.old) }
    ensures owner { tree.new.owner ≡ tree.old.owner }
    ensures edit { IsEdit table.old table.new (tree_reach table.old tree.old) (tree_reach table.new tree.new) }
    ensures current { AreCurrent table.new (tree_reach table.new tree.new) }
    ensures blocks { TakesAtMost table.old table.new (2 * length (items_between first.now last.now (tree_items table.old tree.old)) + 34) }
    ensures balance { table.new.spare + free_blocks table.old ≡ table.old.spare + free_blocks table.new }
    ensures leaves { tree_leaves table.new tree.new ≤ tree_leaves table.old tree.old }
    ensures sealed { (fsid : List ℕ) (was : ℕ) → IsSealedTree table.old tree.old fsid was → (now : ℕ) × IsSealedTree table.new tree.new fsid now }
{
    while let Some(key) = first_between(table, tree, first, last) {
        delete(table, tree, &key);
    }
}
