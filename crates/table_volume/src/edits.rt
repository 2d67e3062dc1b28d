//! Edits of a tree alone, and of data alone, as edits of the subvolume that has both: the functions here have no
//! parameters and no body.

ghost use Rattle.std.specs.Prelude.{◌↔◌, ℕ, List, ◌++◌, Contains};
ghost use Rattle.flat_model.specs.Volume.{Subvolume};
ghost use Rattle.blk_base.specs.Trees.{NoneTwice};
ghost use Rattle.block_table.specs.declared.tree.Tree.{Tree};
ghost use Rattle.block_table.specs.Table.{Table};
ghost use Rattle.tree_range.specs.Shape.{AreAlike, tree_reach};
ghost use Rattle.tree_frame.specs.Frame.{IsEdit};
ghost use Rattle.table_volume.specs.Gives.{GivesSubvolume, sub_reach, tree_data};

/// An edit of a subvolume's tree is one of the subvolume: its data blocks stay as they were, and no block of the new tree
/// is one of them.
pub fn a_tree_edit_is_of_its_subvolume()
    ensures edit { (old new : Table) (tree : Tree) (sub : Subvolume) (after : List ℕ) → GivesSubvolume old tree sub
        → IsEdit old new (tree_reach old tree) after → IsEdit old new (sub_reach old tree) (after ++ tree_data old tree) }
    ensures files { (old new : Table) (tree : Tree) (sub : Subvolume) (after : List ℕ) → GivesSubvolume old tree sub
        → IsEdit old new (tree_reach old tree) after → AreAlike old new (tree_data old tree) }
    ensures once { (old new : Table) (tree : Tree) (sub : Subvolume) (after : List ℕ) → GivesSubvolume old tree sub
        → IsEdit old new (tree_reach old tree) after → NoneTwice after → NoneTwice (after ++ tree_data old tree) }
{}

/// An edit of a subvolume's data is one of the subvolume: the blocks of its tree stay as they were, and none of the new
/// data blocks is one of them.
pub fn a_data_edit_is_of_its_subvolume()
    ensures edit { (old new : Table) (tree : Tree) (sub : Subvolume) (after : List ℕ) → GivesSubvolume old tree sub
        → IsEdit old new (tree_data old tree) after → IsEdit old new (sub_reach old tree) (tree_reach old tree ++ after) }
    ensures tree { (old new : Table) (tree : Tree) (sub : Subvolume) (after : List ℕ) → GivesSubvolume old tree sub
        → IsEdit old new (tree_data old tree) after → AreAlike old new (tree_reach old tree) }
    ensures once { (old new : Table) (tree : Tree) (sub : Subvolume) (after : List ℕ) → GivesSubvolume old tree sub
        → IsEdit old new (tree_data old tree) after → NoneTwice after → NoneTwice (tree_reach old tree ++ after) }
{}
