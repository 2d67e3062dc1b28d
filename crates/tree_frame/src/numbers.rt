//! How many leaves, nodes and blocks a tree has: the functions here have no parameters and no body.

ghost use Rattle.std.specs.Prelude.{◌≡◌, ◌≤◌, ◌<◌, ◌+◌, ◌*◌, ◌/◌, ◌^◌, ℕ, length};
ghost use Rattle.block_table.specs.declared.tree.Tree.{Tree};
ghost use Rattle.block_table.specs.Table.{Table};
ghost use Rattle.tree_range.specs.Shape.{AreAlike, IsTree, node_pointers, reach_below, tree_items, tree_reach};
ghost use Rattle.tree_frame.specs.Frame.{AreReadable, leaves_below, nodes_below, tree_leaves, tree_nodes};

/// A tree has one node for 29 leaves at most, and one more: each node but the root has 30 pointers at least, and the root
/// two (own).
pub fn a_tree_has_few_nodes()
    ensures { (table : Table) (tree : Tree) → IsTree table tree → tree_nodes table tree ≤ tree_leaves table tree / 29 + 1 }
{}

/// A tree's blocks are its leaves and its nodes, and they are at most twice as many as its items, and one more (own).
pub fn a_tree_has_few_blocks()
    ensures number { (table : Table) (tree : Tree) → IsTree table tree → length (tree_reach table tree) ≡ tree_leaves table tree + tree_nodes table tree }
    ensures most { (table : Table) (tree : Tree) → IsTree table tree → length (tree_reach table tree) ≤ 2 * length (tree_items table tree) + 1 }
{}

/// A tree has no more blocks than the table that it stands in (own).
pub fn a_tree_fits_its_table()
    ensures { (table : Table) (tree : Tree) → IsTree table tree → length (tree_reach table tree) ≤ length table.slots }
{}

/// A root on level 7, the highest, has room for another pointer, of 121: a table of fewer than 2 ^ 32 blocks has no room
/// for 120 subtrees of the level below (own).
pub fn a_high_root_is_not_full()
    ensures { (table : Table) (tree : Tree) → IsTree table tree → tree.level ≡ 7 → length table.slots < 2 ^ 32 → length (node_pointers table tree.root.0) < 120 }
{}

/// How many leaves and nodes stand below a block depends on the blocks that it reaches alone, and on their bytes alone
/// where each of them is there to be read (own).
pub fn counting_is_by_bytes()
    ensures leaves { (level : ℕ) (old new : Table) (at : ℕ) → AreReadable old new (reach_below level old at) → leaves_below level new at ≡ leaves_below level old at }
    ensures nodes { (level : ℕ) (old new : Table) (at : ℕ) → AreReadable old new (reach_below level old at) → nodes_below level new at ≡ nodes_below level old at }
    ensures leaves_alike { (level : ℕ) (old new : Table) (at : ℕ) → AreAlike old new (reach_below level old at) → leaves_below level new at ≡ leaves_below level old at }
    ensures nodes_alike { (level : ℕ) (old new : Table) (at : ℕ) → AreAlike old new (reach_below level old at) → nodes_below level new at ≡ nodes_below level old at }
{}
