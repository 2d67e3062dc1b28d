//! Laws of sealed trees: the functions here have no parameters and no body.

ghost use Rattle.std.specs.Prelude.{◌≡◌, ◌≢◌, ℕ, List, length, All};
ghost use Rattle.blk_base.specs.Bytes.{Image};
ghost use Rattle.block_table.specs.declared.tree.Tree.{Tree};
ghost use Rattle.block_table.specs.Table.{Table};
ghost use Rattle.block_table.specs.TreeIn.{IsSealedTree, block_at};
ghost use Rattle.block_table.specs.declared.state.SlotState.TheVariants.{Dirty};
ghost use Rattle.tree_range.specs.Shape.{AreAlike, IsTree, reach_below, tree_items, tree_reach};
ghost use Rattle.tree_frame.specs.Frame.{IsEdit};
ghost use Rattle.tree_seal.specs.Above.{DirtyIsAbove, IsDirtyAbove};
ghost use Rattle.volume_image.specs.Tree as of_image;
ghost use Rattle.tree_seal.specs.OnImage.{AreClean, HasBlocks, root_want};

/// A sealed tree without Dirty blocks is the tree of each image that has its blocks, with the same items and at the same
/// addresses (own).
pub fn a_sealed_tree_is_on_an_image()
    ensures { (table : Table) (tree : Tree) (fsid : List ℕ) (generation : ℕ) (image : Image) → IsTree table tree → AreClean table (tree_reach table tree) → IsSealedTree table tree fsid generation → HasBlocks image table (tree_reach table tree) → of_image.IsTree image (length table.slots) (root_want tree fsid generation) (tree_items table tree) (tree_reach table tree) }
{}

/// Below a block that isn't Dirty no block is, where Dirty blocks stand below Dirty ones alone (own).
pub fn clean_below_a_clean_block()
    ensures { (level : ℕ) (table : Table) (at : ℕ) → DirtyIsAbove level table at → (block_at table at).state ≢ Dirty → AreClean table (reach_below level table at) }
{}

/// Where no block is Dirty, each stands as it has to (own).
pub fn clean_is_dirty_above()
    ensures { (level : ℕ) (table : Table) (at : ℕ) → AreClean table (reach_below level table at) → DirtyIsAbove level table at }
{}

/// Whether Dirty blocks stand below Dirty ones alone depends on the blocks that are reached alone (own).
pub fn dirty_above_is_local()
    ensures { (level : ℕ) (old new : Table) (at : ℕ) → AreAlike old new (reach_below level old at) → DirtyIsAbove level old at → DirtyIsAbove level new at }
{}

/// An edit of a tree leaves no Dirty block below one that isn't, where the blocks that aren't Dirty pass their headers'
/// checks before and after it: a block that isn't Dirty is one from before (own).
pub fn an_edit_keeps_dirty_above()
    ensures { (old new : Table) (before after : Tree) (fsid : List ℕ) (was is : ℕ) → IsEdit old new (tree_reach old before) (tree_reach new after) → IsTree old before → IsTree new after → IsSealedTree old before fsid was → IsSealedTree new after fsid is → IsDirtyAbove old before → IsDirtyAbove new after }
{}
