ghost use Rattle.std.specs.Prelude.{◌≡◌, ◌≤◌, ◌+◌, ℕ, List, IsSome};
ghost use Rattle.blk_base.specs.declared.key.Key.{Key};
ghost use Rattle.block_table.specs.Table.{free_blocks};
ghost use Rattle.block_table.specs.TreeIn.{IsSealedTree};
ghost use Rattle.tree_range.specs.Shape.{IsTree, tree_items, tree_reach};
ghost use Rattle.tree_range.specs.Between.{data_under};
ghost use Rattle.tree_frame.specs.Frame.{AreCurrent, IsEdit, TakesAtMost, tree_leaves, without_item};
ghost use Rattle.tree_delete.specs.Ahead.{IsBetween, TakesAhead, tree_ahead};
ghost use Rattle.tree_delete.specs.Rows.{IsLessTree};

use crate::below::delete_below;
use crate::leaf::delete_in_leaf;
use blk_base::limits::LEAST_ROOT_POINTERS;
use blk_base::{Addr, Key};
use block_table::{BlockTable, Tree};
use tree_blocks::{node_child, node_len};

/// The tree without the item under a key.
fn without(table: &mut BlockTable, tree: Tree, key: &Key) -> Tree
    requires tree { IsTree table.old tree }
    requires current { AreCurrent table.old (tree_reach table.old tree) }
    requires present { IsSome (data_under key.now (tree_items table.old tree)) }
    requires spare { 17 ≤ table.old.spare }
    requires free { 17 ≤ free_blocks table.old }
    ensures { IsLessTree table.old table.new tree result key.now }
{
    if tree.level == 0 {
        let root = delete_in_leaf(table, tree.root, key);
        return Tree { root, ..tree };
    }
    let root = delete_below(table, tree.level - 1, tree.root, key);
    if node_len(table, root) >= LEAST_ROOT_POINTERS {
        return Tree { root, ..tree };
    }
    let child = node_child(table, root, 0).0;
    table.let_go(root);
    Tree {
        root: child,
        level: tree.level - 1,
        ..tree
    }
}

/// Takes the item under a key out of a tree ("btrfs_del_items" of fs/btrfs/ctree.c).
///
/// It takes at most 17 blocks and buffers more than it gives back, and as many blocks as buffers. Within a range of keys that has the item's, it takes
/// one at most, and one more for each node over items of the range that wasn't Dirty and now is, or is gone: those are few
/// where many items of the range are taken out. The tree may lose a level. Where each block of it that isn't Dirty passes
/// its header's checks, so it does afterwards.
pub fn delete(table: &mut BlockTable, tree: &mut Tree, key: &Key)
    requires tree { IsTree table.old tree.old }
    requires current { AreCurrent table.old (tree_reach table.old tree.old) }
    requires present { IsSome (data_under key.now (tree_items table.old tree.old)) }
    requires spare { 17 ≤ table.old.spare }
    requires free { 17 ≤ free_blocks table.old }
    ensures tree { IsTree table.new tree.new }
    ensures items { tree_items table.new tree.new ≡ without_item key.now (tree_items table.old tree.old) }
    ensures owner { tree.new.owner ≡ tree.old.owner }
    ensures edit { IsEdit table.old table.new (tree_reach table.old tree.old) (tree_reach table.new tree.new) }
    ensures current { AreCurrent table.new (tree_reach table.new tree.new) }
    ensures blocks { TakesAtMost table.old table.new 17 }
    ensures balance { table.new.spare + free_blocks table.old ≡ table.old.spare + free_blocks table.new }
    ensures sealed { (fsid : List ℕ) (was : ℕ) → IsSealedTree table.old tree.old fsid was → (now : ℕ) × IsSealedTree table.new tree.new fsid now }
    ensures ahead { (first last : Key) → IsBetween first last key.now → TakesAhead table.old table.new (tree_ahead first last table.old tree.old) (tree_ahead first last table.new tree.new) }
    ensures leaves { tree_leaves table.new tree.new ≤ tree_leaves table.old tree.old }
{
    *tree = without(table, *tree, key);
}
