//! What an edit of one tree leaves of others: the functions here have no parameters and no body.

ghost use Rattle.std.specs.Prelude.{◌≡◌, ◌≢◌, ℕ, Bool, List, Contains};
ghost use Rattle.block_table.specs.declared.state.SlotState.TheVariants.{Dirty};
ghost use Rattle.block_table.specs.declared.tree.Tree.{Tree};
ghost use Rattle.block_table.specs.Table.{Table};
ghost use Rattle.block_table.specs.TreeIn.{block_at};
ghost use Rattle.tree_range.specs.Shape.{IsSubtree, IsTree, items_below, reach_below, tree_items, tree_reach};
ghost use Rattle.tree_frame.specs.Frame.{AreReadable, IsEdit};

/// What stands below a block depends on the bytes of the blocks that it reaches, and not on their states, where each is
/// there to be read (own).
pub fn reading_is_by_bytes()
    ensures items { (level : ℕ) (old new : Table) (at : ℕ) → AreReadable old new (reach_below level old at) → items_below level new at ≡ items_below level old at }
    ensures reach { (level : ℕ) (old new : Table) (at : ℕ) → AreReadable old new (reach_below level old at) → reach_below level new at ≡ reach_below level old at }
    ensures shape { (level : ℕ) (old new : Table) (is_root : Bool) (at : ℕ) → AreReadable old new (reach_below level old at) → IsSubtree level old is_root at → IsSubtree level new is_root at }
{}

/// A tree depends on the bytes of its blocks alone, where each is there to be read (own).
pub fn a_tree_is_by_bytes()
    ensures items { (old new : Table) (tree : Tree) → AreReadable old new (tree_reach old tree) → tree_items new tree ≡ tree_items old tree }
    ensures reach { (old new : Table) (tree : Tree) → AreReadable old new (tree_reach old tree) → tree_reach new tree ≡ tree_reach old tree }
    ensures stands { (old new : Table) (tree : Tree) → AreReadable old new (tree_reach old tree) → IsTree old tree → IsTree new tree }
{}

/// An edit keeps every tree of which no Dirty block is one of the edited tree, as a sealed tree has none: it stands with
/// the items and the blocks that it had (own).
pub fn an_edit_keeps_other_trees()
    ensures { (old new : Table) (before after : List ℕ) (other : Tree) → IsEdit old new before after → IsTree old other → ((at : ℕ) → Contains (tree_reach old other) at → Contains before at → (block_at old at).state ≢ Dirty) → IsTree new other × (tree_items new other ≡ tree_items old other) × (tree_reach new other ≡ tree_reach old other) }
{}
