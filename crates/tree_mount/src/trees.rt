//! The trees of a volume, loaded into a table.
ghost use Rattle.std.specs.Prelude.{◌≡◌, ◌≤◌, ◌∷◌, [], length, Err, IfErr, OnOk};
ghost use Rattle.blk_base.specs.Causes.{HasRisen};
ghost use Rattle.disk_model.specs.Disk.{IfTold, known};
ghost use Rattle.tree_load.specs.Loaded.{tree_wanted};
ghost use Rattle.tree_mount.specs.Trees.{AreLoaded, AreWalked, HasWalksFault};

use crate::MountFault;
use crate::fault::of_load;
use blk_base::Want;
use block_table::{BlockTable, Tree};
use disk_model::Disk;
use std::alloc::Global;
use tree_load::load;

/// The tree whose root is read so.
pub(crate) fn tree_wanted(want: &Want) -> Tree
    ensures { result ≡ tree_wanted want.now }
{
    Tree {
        root: want.at,
        level: want.level,
        owner: want.owner,
    }
}

/// Loads a tree behind what the table has.
pub(crate) fn load_tree<D: Disk>(
    alloc: Global,
    disk: &mut D,
    table: &mut BlockTable,
    want: &Want,
) -> Result<(), MountFault>
    requires on_disk { length table.old.slots ≤ D.count disk.old }
    ensures loaded { OnOk result (AreLoaded table.old table.new (want.now ∷ [])) }
    ensures walked { OnOk result (IfTold (known (D.seen disk.old) (D.lost disk.old)) (λ image. AreWalked image table.old table.new (want.now ∷ []))) }
    ensures fault { IfErr result (λ fault. IfTold (known (D.seen disk.old) (D.lost disk.old))
        (λ image. HasWalksFault image table.old (want.now ∷ []) fault)) }
    ensures disk_fault { (result ≡ Err MountFault.Disk) → HasRisen (D.faults disk.old) (D.faults disk.new) }
    ensures size { D.count disk.new ≡ D.count disk.old }
    ensures seen { D.seen disk.new ≡ D.seen disk.old }
    ensures lost { D.lost disk.new ≡ D.lost disk.old }
    ensures told { D.told disk.new ≡ D.told disk.old }
    ensures counted { D.faults disk.old ≤ D.faults disk.new }
{
    match load(alloc, disk, table, want) {
        Ok(_) => Ok(()),
        Err(fault) => Err(of_load(fault)),
    }
}

/// Loads trees into one table, one behind the other, so that a block which an earlier one reached is `Twice`.
pub(crate) fn load_trees<D: Disk>(
    alloc: Global,
    disk: &mut D,
    table: &mut BlockTable,
    wants: &[Want],
) -> Result<(), MountFault>
    requires on_disk { length table.old.slots ≤ D.count disk.old }
    ensures loaded { OnOk result (AreLoaded table.old table.new wants.now) }
    ensures walked { OnOk result (IfTold (known (D.seen disk.old) (D.lost disk.old)) (λ image. AreWalked image table.old table.new wants.now)) }
    ensures fault { IfErr result (λ fault. IfTold (known (D.seen disk.old) (D.lost disk.old)) (λ image. HasWalksFault image table.old wants.now fault)) }
    ensures disk_fault { (result ≡ Err MountFault.Disk) → HasRisen (D.faults disk.old) (D.faults disk.new) }
    ensures size { D.count disk.new ≡ D.count disk.old }
    ensures seen { D.seen disk.new ≡ D.seen disk.old }
    ensures lost { D.lost disk.new ≡ D.lost disk.old }
    ensures told { D.told disk.new ≡ D.told disk.old }
    ensures counted { D.faults disk.old ≤ D.faults disk.new }
{
    for want in wants {
        load_tree(alloc, disk, table, want)?;
    }
    Ok(())
}
