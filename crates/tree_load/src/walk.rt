//! A tree of a disk, loaded into a table of blocks.
ghost use Rattle.std.specs.Prelude.{false, ◌≡◌, ◌≤◌, ℕ, length, IfOk, IfErr, Err};
ghost use Rattle.blk_base.specs.Causes.{HasRisen};
ghost use Rattle.block_table.specs.TreeIn.{IsSealedTree};
ghost use Rattle.disk_model.specs.Disk.{IfTold, known};
ghost use Rattle.tree_range.specs.Shape.{IsTree, tree_items, tree_reach};
ghost use Rattle.tree_load.specs.Loaded.{HasBytes, IsLoad, IsWalkAfter, IsWalkFault, tree_wanted};

use crate::below::load_below;
use blk_base::Want;
use block_table::{BlockTable, Tree};
use disk_model::Disk;
use std::alloc::Global;
use volume_image::LoadFault;

/// Loads the tree whose root is read with `want` into the table ("Header", "Internal Node" and "Leaf Node" of the Btrfs
/// on-disk format).
///
/// `Ok`: the tree stands in the table with the items of a walk over the image and with the bytes of its blocks, each of
/// them read and summed once. Addresses are byte addresses; each block that the table has counts as reached before.
/// `Err`: the first fault of that walk, from left to right, a parent before its children; for one address an address that
/// isn't allowed, one reached before, a level above 7, a check of the block itself, too little in it, and last its first
/// key. `Disk` comes only where the disk's count of faults rose in this call, and `OutOfMemory` at any place; after an
/// `Err` the table isn't used again.
pub fn load<D: Disk>(
    alloc: Global,
    disk: &mut D,
    table: &mut BlockTable,
    want: &Want,
) -> Result<Tree, LoadFault>
    requires on_disk { length table.old.slots ≤ D.count disk.old }
    ensures tree { IfOk result (λ tree. tree ≡ tree_wanted want.now) }
    ensures stands { IfOk result (λ tree. IsTree table.new tree) }
    ensures sealed { IfOk result (λ tree. IsSealedTree table.new tree want.now.fsid want.now.generation) }
    ensures loaded { IfOk result (λ tree. IsLoad false table.old table.new (tree_reach table.new tree)) }
    ensures bytes { IfOk result (λ tree. IfTold (known (D.seen disk.old) (D.lost disk.old)) (λ image. HasBytes image table.new (tree_reach table.new tree))) }
    ensures walk { IfOk result (λ tree. IfTold (known (D.seen disk.old) (D.lost disk.old)) (λ image. IsWalkAfter image table.old want.now (tree_items table.new tree) (tree_reach table.new tree))) }
    ensures fault { IfErr result (λ fault. IfTold (known (D.seen disk.old) (D.lost disk.old)) (λ image. IsWalkFault image table.old want.now fault)) }
    ensures disk_fault { (result ≡ Err LoadFault.Disk) → HasRisen (D.faults disk.old) (D.faults disk.new) }
    ensures size { D.count disk.new ≡ D.count disk.old }
    ensures seen { D.seen disk.new ≡ D.seen disk.old }
    ensures lost { D.lost disk.new ≡ D.lost disk.old }
    ensures told { D.told disk.new ≡ D.told disk.old }
    ensures counted { D.faults disk.old ≤ D.faults disk.new }
{
    load_below(alloc, disk, table, want, None, None)?;
    Ok(Tree {
        root: want.at,
        level: want.level,
        owner: want.owner,
    })
}
