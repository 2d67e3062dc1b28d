//! Laws of trees whose checks were Ok: the functions here have no parameters and no body.
ghost use Rattle.std.specs.Prelude.{◌≡◌, Ok};
ghost use Rattle.block_table.specs.declared.tree.Tree.{Tree};
ghost use Rattle.block_table.specs.Table.{Table};
ghost use Rattle.flat_model.specs.Coherent.{IsCoherent};
ghost use Rattle.image_faults.specs.Faulty.{AreReadable, HasData};
ghost use Rattle.image_faults.specs.Said.{said_sub};
ghost use Rattle.table_volume.specs.Gives.{GivesSubvolume, data_in, sub_reach};
ghost use Rattle.tree_frame.specs.Frame.{AreCurrent};
ghost use Rattle.tree_range.specs.Shape.{tree_items, tree_reach};
ghost use Rattle.coherent.specs.Answer.{IsCoherentAnswer};
ghost use Rattle.coherent_run.specs.Checked.{AreChecked};

/// Law: once the check of a tree's items was Ok, and that of its data blocks, which it left in the table, the items can be
/// read and their data blocks are there: what the check of coherence asks for (own).
pub fn checked_trees_are_ready()
    ensures readable { (old new : Table) (tree : Tree) → AreChecked old new tree → AreReadable (tree_items new tree) }
    ensures there { (old new : Table) (tree : Tree) → AreChecked old new tree → HasData (tree_items new tree) (data_in new) }
{}

/// Law: where the check of coherence is Ok too, the tree gives the subvolume that its items say, which is coherent; and none
/// of its blocks was let go, if none of the tree's was before (own).
pub fn coherent_trees_give()
    ensures gives { (old new : Table) (tree : Tree) → AreChecked old new tree → IsCoherentAnswer (tree_items new tree) (data_in new) (Ok tt)
        → GivesSubvolume new tree (said_sub (tree_items new tree) (data_in new)) }
    ensures coherent { (old new : Table) (tree : Tree) → AreChecked old new tree → IsCoherentAnswer (tree_items new tree) (data_in new) (Ok tt)
        → IsCoherent (said_sub (tree_items new tree) (data_in new)) }
    ensures current { (old new : Table) (tree : Tree) → AreChecked old new tree → AreCurrent old (tree_reach old tree) → AreCurrent new (sub_reach new tree) }
{}
