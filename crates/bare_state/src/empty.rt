//! An empty tree.
ghost use Rattle.std.specs.Prelude.{◌≡◌, []};
ghost use Rattle.tree_frame.specs.Frame.{AreCurrent, IsEdit, TakesAtMost};
ghost use Rattle.tree_range.specs.Shape.{IsTree, tree_items, tree_reach};
ghost use Rattle.table_volume.specs.Operated.{HasRoom};

use block_table::{BlockTable, Tree};
use tree_blocks::new_leaf;

/// A tree without items: one leaf, whose blocks name this tree as their owner once they are sealed ("Header" of the on-disk
/// format). It takes one block and buffer.
pub fn empty_tree(table: &mut BlockTable, owner: u64) -> Tree
    requires { HasRoom table.old 1 }
    ensures tree { IsTree table.new result }
    ensures items { tree_items table.new result ≡ [] }
    ensures owner { result.owner ≡ owner }
    ensures current { AreCurrent table.new (tree_reach table.new result) }
    ensures edit { IsEdit table.old table.new [] (tree_reach table.new result) }
    ensures taken { TakesAtMost table.old table.new 1 }
{
    Tree {
        root: new_leaf(table),
        level: 0,
        owner,
    }
}
