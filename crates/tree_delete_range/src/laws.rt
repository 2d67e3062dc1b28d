//! A law of the nodes that an edit within a range copies: the function here has no parameters and no body.

ghost use Rattle.std.specs.Prelude.{◌≤◌, ◌+◌, ◌*◌, length};
ghost use Rattle.blk_base.specs.declared.key.Key.{Key};
ghost use Rattle.block_table.specs.declared.tree.Tree.{Tree};
ghost use Rattle.block_table.specs.Table.{Table};
ghost use Rattle.tree_range.specs.Between.{items_between};
ghost use Rattle.tree_range.specs.Shape.{IsTree, tree_items};
ghost use Rattle.tree_delete.specs.Ahead.{tree_ahead};

/// A tree has at most as many nodes above items of a range that aren't Dirty as it has items of it, and two more on each
/// level: those at the range's ends (own).
pub fn few_nodes_are_ahead()
    ensures { (table : Table) (tree : Tree) (first last : Key) → IsTree table tree → tree_ahead first last table tree ≤ length (items_between first last (tree_items table tree)) + 2 * tree.level }
{}
