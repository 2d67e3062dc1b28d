//! Laws of trees as functions of the table: the functions here have no parameters and no body.

ghost use Rattle.std.specs.Prelude.{◌≡◌, ◌↔◌, ℕ, Bool, List, Some, Contains};
ghost use Rattle.blk_base.specs.declared.key.Key.{Key};
ghost use Rattle.blk_base.specs.Leaf.{Item};
ghost use Rattle.block_table.specs.declared.tree.Tree.{Tree};
ghost use Rattle.block_table.specs.Table.{Table};
ghost use Rattle.blk_base.specs.Trees.{ItemsRise};
ghost use Rattle.block_table.specs.TreeIn.{IsTreeIn};
ghost use Rattle.tree_range.specs.Shape.{AreAlike, IsSubtree, IsTree, items_below, reach_below, tree_items, tree_reach};
ghost use Rattle.tree_range.specs.Between.{data_under};

/// A tree stands in a table with these items and blocks exactly where it stands there by the functions, and they are
/// what these say (own).
pub fn tree_is_by_functions()
    ensures { (table : Table) (tree : Tree) (items : List Item) (reach : List ℕ) → IsTreeIn table tree items reach ↔ (IsTree table tree × (items ≡ tree_items table tree) × (reach ≡ tree_reach table tree)) }
{}

/// What stands below a block depends on the blocks that it reaches alone (own).
pub fn subtree_is_local()
    ensures items { (level : ℕ) (old new : Table) (at : ℕ) → AreAlike old new (reach_below level old at) → items_below level new at ≡ items_below level old at }
    ensures reach { (level : ℕ) (old new : Table) (at : ℕ) → AreAlike old new (reach_below level old at) → reach_below level new at ≡ reach_below level old at }
    ensures shape { (level : ℕ) (old new : Table) (is_root : Bool) (at : ℕ) → AreAlike old new (reach_below level old at) → IsSubtree level old is_root at → IsSubtree level new is_root at }
{}

/// A tree depends on the blocks that it reaches alone (own).
pub fn tree_is_local()
    ensures items { (old new : Table) (tree : Tree) → AreAlike old new (tree_reach old tree) → tree_items new tree ≡ tree_items old tree }
    ensures reach { (old new : Table) (tree : Tree) → AreAlike old new (tree_reach old tree) → tree_reach new tree ≡ tree_reach old tree }
    ensures stands { (old new : Table) (tree : Tree) → AreAlike old new (tree_reach old tree) → IsTree old tree → IsTree new tree }
{}

/// A list of rising items has bytes under a key exactly where it contains that item (own).
pub fn item_is_under_its_key()
    ensures { (items : List Item) (key : Key) (bytes : List ℕ) → ItemsRise items → (data_under key items ≡ Some bytes) ↔ Contains items (key, bytes) }
{}
