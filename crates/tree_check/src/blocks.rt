//! The data blocks of a tree, read into the table.
ghost use Rattle.std.specs.Prelude.{◌≡◌, ◌≤◌, ◌<◌, ◌+◌, ◌^◌, ◌∷◌, [], true, length, Err, IfErr, OnOk};
ghost use Rattle.blk_base.specs.Causes.{HasRisen};
ghost use Rattle.disk_model.specs.Disk.{IfTold, known};
ghost use Rattle.tree_load.specs.Loaded.{HasBytes, IsLoad};
ghost use Rattle.tree_range.specs.Shape.{IsTree, tree_items, tree_reach};
ghost use Rattle.tree_check.specs.Blocks.{AreRead, IsDataAnswer, IsDataFault, run_of, runs_of, tree_data};

use crate::fault::TreeFault;
use crate::runs::{Run, add_tree};
use blk_base::format::BLOCK_SIZE;
use blk_base::{Addr, is_allowed};
use block_table::{BlockTable, SlotState, Tree};
use disk_model::Disk;
use std::alloc::Global;
use tree_load::{read_block, stand};

/// Reads the data block at a byte address into the table.
fn read_data<D: Disk>(
    alloc: Global,
    disk: &mut D,
    table: &mut BlockTable,
    at: Addr,
) -> Result<(), TreeFault>
    requires { length table.old.slots ≤ D.count disk.old }
    ensures ok { OnOk result (AreRead (known (D.seen disk.old) (D.lost disk.old)) table.old table.new (at.0 ∷ [])) }
    ensures below_end { OnOk result (at.0 + 4096 < 2 ^ 64) }
    ensures fault { IfErr result (IsDataFault table.old (at.0 ∷ [])) }
    ensures disk_fault { (result ≡ Err TreeFault.Disk) → HasRisen (D.faults disk.old) (D.faults disk.new) }
    ensures size { D.count disk.new ≡ D.count disk.old }
    ensures seen { D.seen disk.new ≡ D.seen disk.old }
    ensures lost { D.lost disk.new ≡ D.lost disk.old }
    ensures told { D.told disk.new ≡ D.told disk.old }
    ensures counted { D.faults disk.old ≤ D.faults disk.new }
{
    let blocks = table.blocks();
    if !is_allowed(blocks, at) {
        return Err(TreeFault::Outside(at));
    }
    if table.state(at) != SlotState::Free {
        return Err(TreeFault::Twice(at));
    }
    let mut block = [0; 4096];
    if read_block(disk, at, &mut block).is_err() {
        return Err(TreeFault::Disk);
    }
    match stand(alloc, table, at, &block, true) {
        Ok(()) => Ok(()),
        Err(_) => Err(TreeFault::OutOfMemory),
    }
}

/// Reads the blocks of a run into the table.
fn read_run<D: Disk>(
    alloc: Global,
    disk: &mut D,
    table: &mut BlockTable,
    run: Run,
) -> Result<(), TreeFault>
    requires { length table.old.slots ≤ D.count disk.old }
    ensures ok { OnOk result (AreRead (known (D.seen disk.old) (D.lost disk.old)) table.old table.new (run_of run)) }
    ensures fault { IfErr result (IsDataFault table.old (run_of run)) }
    ensures disk_fault { (result ≡ Err TreeFault.Disk) → HasRisen (D.faults disk.old) (D.faults disk.new) }
    ensures size { D.count disk.new ≡ D.count disk.old }
    ensures seen { D.seen disk.new ≡ D.seen disk.old }
    ensures lost { D.lost disk.new ≡ D.lost disk.old }
    ensures told { D.told disk.new ≡ D.told disk.old }
    ensures counted { D.faults disk.old ≤ D.faults disk.new }
{
    let mut at = run.at;
    for _place in 0..run.count {
        read_data(alloc, disk, table, at)?;
        at = Addr(at.0 + BLOCK_SIZE);
    }
    Ok(())
}

/// Reads the blocks of runs into the table, one run behind the other.
fn read_runs<D: Disk>(
    alloc: Global,
    disk: &mut D,
    table: &mut BlockTable,
    runs: &[Run],
) -> Result<(), TreeFault>
    requires { length table.old.slots ≤ D.count disk.old }
    ensures ok { OnOk result (AreRead (known (D.seen disk.old) (D.lost disk.old)) table.old table.new (runs_of runs.now)) }
    ensures fault { IfErr result (IsDataFault table.old (runs_of runs.now)) }
    ensures disk_fault { (result ≡ Err TreeFault.Disk) → HasRisen (D.faults disk.old) (D.faults disk.new) }
    ensures size { D.count disk.new ≡ D.count disk.old }
    ensures seen { D.seen disk.new ≡ D.seen disk.old }
    ensures lost { D.lost disk.new ≡ D.lost disk.old }
    ensures told { D.told disk.new ≡ D.told disk.old }
    ensures counted { D.faults disk.old ≤ D.faults disk.new }
{
    for run in runs {
        read_run(alloc, disk, table, *run)?;
    }
    Ok(())
}

/// Reads the data blocks of a tree's extents into the table, by rising keys, the blocks of a run in order ("EXTENT_DATA"
/// of the Btrfs on-disk format).
///
/// `Ok`: each of these blocks, which was Free, stands in the table as data, with the bytes that the disk has there; all
/// else stays, and so does the tree. `Err`: `Outside` or `Twice` with the byte address of the first block that isn't
/// allowed, or that the table had or that was read before in this call: a block of a tree, or of another extent's data.
/// `Disk` comes only where the disk's count of faults rose in this call, and `OutOfMemory` at any place; after an `Err`
/// the table isn't used again.
pub fn data<D: Disk>(
    alloc: Global,
    disk: &mut D,
    table: &mut BlockTable,
    tree: &Tree,
) -> Result<(), TreeFault>
    requires on_disk { length table.old.slots ≤ D.count disk.old }
    requires tree { IsTree table.old tree.now }
    ensures answer { IsDataAnswer table.old (tree_data table.old tree.now) result }
    ensures loaded { OnOk result (IsLoad true table.old table.new (tree_data table.old tree.now)) }
    ensures bytes { OnOk result (IfTold (known (D.seen disk.old) (D.lost disk.old)) (λ image. HasBytes image table.new (tree_data table.old tree.now))) }
    ensures stands { OnOk result (IsTree table.new tree.now) }
    ensures items { OnOk result (tree_items table.new tree.now ≡ tree_items table.old tree.now) }
    ensures reach { OnOk result (tree_reach table.new tree.now ≡ tree_reach table.old tree.now) }
    ensures disk_fault { (result ≡ Err TreeFault.Disk) → HasRisen (D.faults disk.old) (D.faults disk.new) }
    ensures size { D.count disk.new ≡ D.count disk.old }
    ensures seen { D.seen disk.new ≡ D.seen disk.old }
    ensures lost { D.lost disk.new ≡ D.lost disk.old }
    ensures told { D.told disk.new ≡ D.told disk.old }
    ensures counted { D.faults disk.old ≤ D.faults disk.new }
{
    let mut runs = Vec::new(alloc);
    if add_tree(&mut runs, table, tree).is_err() {
        return Err(TreeFault::OutOfMemory);
    }
    read_runs(alloc, disk, table, &runs)
}
