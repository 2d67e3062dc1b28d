//! Laws of the checks: the functions here have no parameters and no body.
ghost use Rattle.std.specs.Prelude.{◌≡◌, ◌↔◌, ◌≤◌, ℕ, List, Ok, Err, Contains, length};
ghost use Rattle.blk_base.specs.declared.format.TheConstants.{MOST_ITEM_BYTES};
ghost use Rattle.blk_base.specs.declared.key.Key.{Key};
ghost use Rattle.block_table.specs.declared.tree.Tree.{Tree};
ghost use Rattle.block_table.specs.Table.{Table};
ghost use Rattle.tree_range.specs.Shape.{IsTree, tree_items};
ghost use Rattle.tree_check.specs.declared.fault.TreeFault.{TreeFault};
ghost use Rattle.tree_check.specs.Blocks.{AreFresh, blocks_checked};
ghost use Rattle.tree_check.specs.Items.{AreBytes, AreRight, IsFirstFault, items_answer};

/// A tree's items have no fault exactly where each is spelled by the grammar of its key's type, and no two extents of a
/// file cover one byte.
pub fn right_items_have_no_fault()
    ensures { (table : Table) (tree : Tree) → IsTree table tree → AreBytes (tree_items table tree)
        → (items_answer table tree ≡ Ok tt) ↔ AreRight (tree_items table tree) }
{}

/// The fault of a tree's items is that of the first item that isn't right, and names a leaf that has it.
pub fn a_fault_is_the_first()
    ensures { (table : Table) (tree : Tree) (fault : TreeFault) → IsTree table tree → AreBytes (tree_items table tree)
        → items_answer table tree ≡ Err fault → IsFirstFault table tree fault }
{}

/// An item of a tree has 3970 bytes at most ("Leaf Node" of the Btrfs on-disk format).
pub fn items_are_short()
    ensures { (table : Table) (tree : Tree) (key : Key) (bytes : List ℕ) → IsTree table tree
        → Contains (tree_items table tree) (key, bytes) → length bytes ≤ MOST_ITEM_BYTES }
{}

/// Data blocks have no fault exactly where each stands at an address that is allowed, none stands twice, and none was
/// reached before.
pub fn fresh_blocks_have_no_fault()
    ensures { (blocks : ℕ) (reached addresses : List ℕ) → (blocks_checked blocks reached addresses ≡ Ok tt) ↔ AreFresh blocks reached addresses }
{}
