//! Mount of a volume on trees.
ghost use Rattle.std.specs.Prelude.{◌≡◌, ◌≤◌, ◌∷◌, map, Contains, Err, IfErr, IfOk, OnOk};
ghost use Rattle.blk_base.specs.Causes.{HasRisen};
ghost use Rattle.blk_base.specs.declared.key.Want.{Want as Wanted};
ghost use Rattle.block_table.specs.declared.tree.SubState.{SubState as State};
ghost use Rattle.block_table.specs.Table.{empty_table};
ghost use Rattle.disk_model.specs.Disk.{IfTold, known};
ghost use Rattle.tree_load.specs.Loaded.{tree_wanted};
ghost use Rattle.volume_format.specs.Views.{super_view};
ghost use Rattle.volume_image.specs.Roots.{root_want};
ghost use Rattle.tree_mount.specs.Checks.{IsCheckable};
ghost use Rattle.tree_mount.specs.Faults.{HasSuper, IsToldFault};
ghost use Rattle.tree_mount.specs.Mounted.{AreWhole, IsMountedAs, IsReadyMount, IsRunState, LeadsToTrees, LeadsToVolume};
ghost use Rattle.tree_mount.specs.Roots.{AreRootsRead};
ghost use Rattle.tree_mount.specs.Trees.{AreLoaded, items_of};

use crate::checks::{check_inodes, check_items, read_data};
use crate::room::check_room;
use crate::roots::{root_want, sub_wants};
use crate::superblock::read_super;
use crate::trees::{load_tree, load_trees, tree_wanted};
use crate::{MountFault, Mounted};
use blk_base::{OutOfMemory, Want};
use block_table::{BlockTable, SubState};
use coherent_run::run_state;
use disk_model::Disk;
use std::alloc::Global;
use volume_format::Super;

/// The buffers that a mount makes spare at least, for the root trees of commits (own).
const SPARE: u32 = 80;

/// Loads the root tree and the trees of the subvolumes into an empty table, and answers how the latter are read.
fn load_volume<D: Disk>(
    alloc: Global,
    disk: &mut D,
    table: &mut BlockTable,
    superblock: &Super,
) -> Result<Vec<Want>, MountFault>
    requires empty { table.old ≡ empty_table superblock.now.blocks }
    requires on_disk { superblock.now.blocks ≤ D.count disk.old }
    requires spelled { IfTold (known (D.seen disk.old) (D.lost disk.old)) (λ image. HasSuper image (super_view superblock.now)) }
    requires no_log { superblock.now.log_root.0 ≡ 0 }
    ensures loaded { IfOk result (λ wants. AreLoaded table.old table.new (root_want (super_view superblock.now) ∷ wants.items)) }
    ensures read { IfOk result (λ wants. AreRootsRead (super_view superblock.now) (items_of table.new (root_want (super_view superblock.now))) wants.items) }
    ensures found { IfOk result (λ wants. IfTold (known (D.seen disk.old) (D.lost disk.old))
        (λ image. LeadsToTrees image (super_view superblock.now) table.new wants.items)) }
    ensures fault { IfErr result (IsToldFault (known (D.seen disk.old) (D.lost disk.old))) }
    ensures disk_fault { (result ≡ Err MountFault.Disk) → HasRisen (D.faults disk.old) (D.faults disk.new) }
    ensures size { D.count disk.new ≡ D.count disk.old }
    ensures seen { D.seen disk.new ≡ D.seen disk.old }
    ensures lost { D.lost disk.new ≡ D.lost disk.old }
    ensures told { D.told disk.new ≡ D.told disk.old }
    ensures counted { D.faults disk.old ≤ D.faults disk.new }
{
    let want = root_want(superblock);
    load_tree(alloc, disk, table, &want)?;
    let wants = sub_wants(alloc, table, superblock, &tree_wanted(&want))?;
    load_trees(alloc, disk, table, &wants)?;
    Ok(wants)
}

/// Checks the items of the trees of subvolumes, reads their data blocks behind them, and checks their inodes.
fn check_volume<D: Disk>(
    alloc: Global,
    disk: &mut D,
    table: &mut BlockTable,
    superblock: &Super,
    wants: &[Want],
) -> Result<(), MountFault>
    requires loaded { AreLoaded (empty_table superblock.now.blocks) table.old (root_want (super_view superblock.now) ∷ wants.now) }
    requires on_disk { superblock.now.blocks ≤ D.count disk.old }
    requires found { IfTold (known (D.seen disk.old) (D.lost disk.old)) (λ image. LeadsToTrees image (super_view superblock.now) table.old wants.now) }
    ensures whole { OnOk result (AreWhole table.old table.new wants.now) }
    ensures found { OnOk result (IfTold (known (D.seen disk.old) (D.lost disk.old))
        (λ image. LeadsToVolume image (super_view superblock.now) table.new wants.now)) }
    ensures fault { IfErr result (IsToldFault (known (D.seen disk.old) (D.lost disk.old))) }
    ensures disk_fault { (result ≡ Err MountFault.Disk) → HasRisen (D.faults disk.old) (D.faults disk.new) }
    ensures size { D.count disk.new ≡ D.count disk.old }
    ensures seen { D.seen disk.new ≡ D.seen disk.old }
    ensures lost { D.lost disk.new ≡ D.lost disk.old }
    ensures told { D.told disk.new ≡ D.told disk.old }
    ensures counted { D.faults disk.old ≤ D.faults disk.new }
{
    check_items(table, wants)?;
    read_data(alloc, disk, table, wants)?;
    check_inodes(alloc, table, wants)
}

/// The states of trees whose checks were all Ok.
fn run_states(
    alloc: Global,
    table: &BlockTable,
    wants: &[Want],
    running: u64,
) -> Result<Vec<SubState>, OutOfMemory>
    requires checked { (want : Wanted) → Contains wants.now want → IsCheckable table.now want }
    ensures trees { IfOk result (λ states. map (λ (state : State). state.tree) states.items ≡ map tree_wanted wants.now) }
    ensures each { IfOk result (λ states. (state : State) → Contains states.items state → IsRunState table.now running state) }
{
    let mut states = Vec::new(alloc);
    for want in wants {
        states.push(run_state(table, &tree_wanted(want), running))?;
    }
    Ok(states)
}

/// Mounts the volume of a disk: reads its superblock, its root tree, the trees of its subvolumes and the data blocks of
/// their files, and checks them in this order and then the inodes and the room (open_ctree of fs/btrfs/disk-io.c; own for
/// the order). Nothing is written.
///
/// `Ok`: where the disk tells its image, the image stands for the volume that the states give. Whatever it tells, that volume
/// is coherent and as its run begins, in the generation after the superblock's, and 1 to 16 subvolumes have it; it has 4096
/// to 65,536 blocks, all of them on the disk; its root tree has 33 blocks at most, and 3 at least where there are more than
/// 8 subvolumes; the table has each block in use once, and no other; 116 blocks are free beside 82 that are kept back, and
/// 80 buffers or more are spare.
///
/// # Errors
///
/// `Log` where the superblock has a log; `Disk` only where the disk failed in this call; `OutOfMemory` at any place; every
/// other one is the first fault of the image.
pub fn mount<D: Disk>(alloc: Global, disk: &mut D) -> Result<Mounted, MountFault>
    ensures stands { IfOk result (λ mounted. IfTold (known (D.seen disk.old) (D.lost disk.old)) (λ image. IsMountedAs image mounted)) }
    ensures ready { IfOk result (λ mounted. IsReadyMount mounted (D.count disk.old)) }
    ensures fault { IfErr result (IsToldFault (known (D.seen disk.old) (D.lost disk.old))) }
    ensures disk_fault { (result ≡ Err MountFault.Disk) → HasRisen (D.faults disk.old) (D.faults disk.new) }
    ensures size { D.count disk.new ≡ D.count disk.old }
    ensures seen { D.seen disk.new ≡ D.seen disk.old }
    ensures lost { D.lost disk.new ≡ D.lost disk.old }
    ensures told { D.told disk.new ≡ D.told disk.old }
    ensures counted { D.faults disk.old ≤ D.faults disk.new }
{
    let superblock = read_super(disk)?;
    if superblock.log_root.0 != 0 {
        return Err(MountFault::Log);
    }
    let mut table = BlockTable::new(alloc, superblock.blocks)?;
    let usable = table.free_count();
    let wants = load_volume(alloc, disk, &mut table, &superblock)?;
    check_volume(alloc, disk, &mut table, &superblock, &wants)?;
    check_room(superblock.blocks, usable - table.free_count())?;
    let running = superblock.generation.wrapping_add(1);
    let states = run_states(alloc, &table, &wants, running)?;
    let root = tree_wanted(&root_want(&superblock));
    table.reserve(alloc, SPARE)?;
    Ok(Mounted {
        table,
        states,
        root,
        superblock,
    })
}
