//! The checks of trees that were loaded: their items, their data blocks, and their inodes.
ghost use Rattle.std.specs.Prelude.{◌≡◌, ◌≤◌, true, length, Contains, Err, IfErr, None, OnOk};
ghost use Rattle.blk_base.specs.Causes.{HasRisen};
ghost use Rattle.blk_base.specs.declared.key.Want.{Want as Wanted};
ghost use Rattle.disk_model.specs.Disk.{IfTold, known};
ghost use Rattle.image_faults.specs.Lowest.{first_faulty};
ghost use Rattle.table_volume.specs.Gives.{data_in};
ghost use Rattle.tree_load.specs.Loaded.{HasBytes, IsLoad, tree_wanted};
ghost use Rattle.tree_range.specs.Shape.{IsTree};
ghost use Rattle.tree_mount.specs.Trees.{items_of, wants_data};
ghost use Rattle.tree_mount.specs.Checks.{AreItemsRight, AreReachable, IsCheckable, IsInodeFault, IsItemsFault, IsReadFault};

use crate::MountFault;
use crate::fault::of_tree;
use crate::trees::tree_wanted;
use blk_base::{SubId, Want};
use block_table::BlockTable;
use coherent::coherent;
use disk_model::Disk;
use std::alloc::Global;
use tree_check::{data, items};

/// Checks the items of trees, one tree after another.
pub(crate) fn check_items(table: &BlockTable, wants: &[Want]) -> Result<(), MountFault>
    requires trees { (want : Wanted) → Contains wants.now want → IsTree table.now (tree_wanted want) }
    ensures ok { OnOk result ((want : Wanted) → Contains wants.now want → AreItemsRight table.now want) }
    ensures fault { IfErr result (IsItemsFault table.now wants.now) }
{
    for want in wants {
        if let Err(fault) = items(table, &tree_wanted(want)) {
            return Err(of_tree(SubId(want.owner), fault));
        }
    }
    Ok(())
}

/// Reads the data blocks of trees into the table, those of one tree behind those of another.
pub(crate) fn read_data<D: Disk>(
    alloc: Global,
    disk: &mut D,
    table: &mut BlockTable,
    wants: &[Want],
) -> Result<(), MountFault>
    requires on_disk { length table.old.slots ≤ D.count disk.old }
    requires trees { (want : Wanted) → Contains wants.now want → IsTree table.old (tree_wanted want) }
    ensures loaded { OnOk result (IsLoad true table.old table.new (wants_data table.old wants.now)) }
    ensures reachable { OnOk result (AreReachable table.old (wants_data table.old wants.now)) }
    ensures bytes { OnOk result (IfTold (known (D.seen disk.old) (D.lost disk.old)) (λ image. HasBytes image table.new (wants_data table.old wants.now))) }
    ensures fault { IfErr result (IsReadFault table.old (wants_data table.old wants.now)) }
    ensures disk_fault { (result ≡ Err MountFault.Disk) → HasRisen (D.faults disk.old) (D.faults disk.new) }
    ensures size { D.count disk.new ≡ D.count disk.old }
    ensures seen { D.seen disk.new ≡ D.seen disk.old }
    ensures lost { D.lost disk.new ≡ D.lost disk.old }
    ensures told { D.told disk.new ≡ D.told disk.old }
    ensures counted { D.faults disk.old ≤ D.faults disk.new }
{
    for want in wants {
        if let Err(fault) = data(alloc, disk, table, &tree_wanted(want)) {
            return Err(of_tree(SubId(want.owner), fault));
        }
    }
    Ok(())
}

/// Checks that the items of trees are those of coherent subvolumes, one tree after another.
pub(crate) fn check_inodes(
    alloc: Global,
    table: &BlockTable,
    wants: &[Want],
) -> Result<(), MountFault>
    requires checked { (want : Wanted) → Contains wants.now want → IsCheckable table.now want }
    ensures ok { OnOk result ((want : Wanted) → Contains wants.now want → first_faulty (items_of table.now want) (data_in table.now) ≡ None) }
    ensures fault { IfErr result (IsInodeFault table.now wants.now) }
{
    for want in wants {
        if let Err(fault) = coherent(alloc, table, &tree_wanted(want)) {
            return Err(of_tree(SubId(want.owner), fault));
        }
    }
    Ok(())
}
