//! The tree of the leaves of root items.
ghost use Rattle.std.specs.Prelude.{◌≡◌, ◌≤◌, ◌+◌, ◌∷◌, [], length};
ghost use Rattle.blk_base.specs.Trees.{ItemsRise};
ghost use Rattle.block_table.specs.Table.{free_blocks};
ghost use Rattle.tree_blocks.specs.Steps.{IsDirtyLeaf, IsSameBut, IsTakenAt, leaf_at};
ghost use Rattle.tree_frame.specs.Frame.{IsEdit, TakesAtMost};
ghost use Rattle.tree_range.specs.Shape.{IsTree, tree_items, tree_reach};
ghost use Rattle.root_tree.specs.Roots.{root_entries};

use crate::leaf::{ROOTS_IN_LEAF, root_leaf};
use blk_base::Key;
use block_table::{BlockTable, Tree};
use tree_blocks::{Child, new_node};
use volume_format::RootItem;

/// Makes a tree of at most 16 root items, by rising keys: one leaf where they are eight or fewer, and else two leaves
/// and a node, none of which is committed yet ("ROOT_ITEM" of the on-disk format). Its blocks name `owner` as their
/// owner once they are sealed. It takes a buffer for each of its blocks, three at most.
pub fn root_tree(table: &mut BlockTable, owner: u64, roots: &[(Key, RootItem)]) -> Tree
    requires few { length roots.now ≤ 16 }
    requires rise { ItemsRise (root_entries roots.now) }
    requires spare { 3 ≤ table.old.spare }
    requires free { 3 ≤ free_blocks table.old }
    ensures tree { IsTree table.new result }
    ensures items { tree_items table.new result ≡ root_entries roots.now }
    ensures owner { result.owner ≡ owner }
    ensures edit { IsEdit table.old table.new [] (tree_reach table.new result) }
    ensures few { length (tree_reach table.new result) ≤ 3 }
    ensures small { length roots.now ≤ 8 → length (tree_reach table.new result) ≡ 1 }
    ensures taken { TakesAtMost table.old table.new (length (tree_reach table.new result)) }
{
    if roots.len() <= ROOTS_IN_LEAF {
        return Tree {
            root: root_leaf(table, roots),
            level: 0,
            owner,
        };
    }
    let (front, back) = roots.split_at(ROOTS_IN_LEAF);
    let first = Child {
        key: front[0].0,
        at: root_leaf(table, front),
        generation: 0,
    };
    let second = Child {
        key: back[0].0,
        at: root_leaf(table, back),
        generation: 0,
    };
    Tree {
        root: new_node(table, first, second),
        level: 1,
        owner,
    }
}
