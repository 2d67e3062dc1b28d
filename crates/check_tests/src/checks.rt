//! The checks of a tree that stands in the table, one behind the other.
ghost use Rattle.std.specs.Prelude.{◌≤◌, length, OnOk};
ghost use Rattle.flat_model.specs.Coherent.{IsCoherent};
ghost use Rattle.flat_model.specs.Volume.{Subvolume};
ghost use Rattle.table_volume.specs.Gives.{GivesSubvolume};
ghost use Rattle.tree_range.specs.Shape.{IsTree};

use block_table::{BlockTable, Tree};
use coherent::coherent;
use disk_model::Disk;
use std::alloc::Global;
use tree_check::{TreeFault, data, items};

/// The first fault of a tree: of its items, of its data blocks, which are read into the table, or of its inodes. Where there
/// is none the tree gives a coherent subvolume.
pub fn check_tree<D: Disk>(
    alloc: Global,
    disk: &mut D,
    table: &mut BlockTable,
    tree: &Tree,
) -> Result<(), TreeFault>
    requires on_disk { length table.old.slots ≤ D.count disk.old }
    requires tree { IsTree table.old tree.now }
    ensures { OnOk result ((sub : Subvolume) × GivesSubvolume table.new tree.now sub × IsCoherent sub) }
{
    items(table, tree)?;
    data(alloc, disk, table, tree)?;
    coherent(alloc, table, tree)?;
    Ok(())
}
