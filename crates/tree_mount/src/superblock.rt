//! The superblock, read from a disk.
ghost use Rattle.std.specs.Prelude.{◌≡◌, ◌≤◌, IfOk, IfErr, OnOk, Err};
ghost use Rattle.blk_base.specs.Causes.{HasRisen};
ghost use Rattle.disk_model.specs.Disk.{HasCause, IfTold, known};
ghost use Rattle.volume_format.specs.Views.{super_view};
ghost use Rattle.volume_image.specs.Stands.{super_block};
ghost use Rattle.tree_mount.specs.Faults.{HasSuper, IsToldFault};

use crate::MountFault;
use blk_base::Block;
use blk_base::format::SUPER_BLOCK;
use disk_model::{Disk, DiskFailed};
use volume_format::Super;

/// Reads the bytes of the superblock; a disk without its block counts as zeros there.
fn read_super_block<D: Disk>(disk: &mut D, into: &mut Block) -> Result<(), DiskFailed>
    ensures bytes { OnOk result (IfTold (known (D.seen disk.old) (D.lost disk.old)) (λ image. super_block image ≡ into.new)) }
    ensures size { D.count disk.new ≡ D.count disk.old }
    ensures seen { D.seen disk.new ≡ D.seen disk.old }
    ensures lost { D.lost disk.new ≡ D.lost disk.old }
    ensures told { D.told disk.new ≡ D.told disk.old }
    ensures cause { HasCause (D.faults disk.old) (D.faults disk.new) result }
{
    if disk.blocks() <= SUPER_BLOCK {
        *into = [0; 4096];
        return Ok(());
    }
    disk.read(SUPER_BLOCK, into)
}

/// Reads the superblock ("Superblock" of the Btrfs on-disk format). `Super` with the first check that it fails; `Disk` comes
/// only where the disk's count of faults rose in this call.
pub(crate) fn read_super<D: Disk>(disk: &mut D) -> Result<Super, MountFault>
    ensures ok { IfOk result (λ superblock. IfTold (known (D.seen disk.old) (D.lost disk.old)) (λ image. HasSuper image (super_view superblock))) }
    ensures least { IfOk result (λ superblock. 4096 ≤ superblock.blocks) }
    ensures most { IfOk result (λ superblock. superblock.blocks ≤ 65536) }
    ensures on_disk { IfOk result (λ superblock. superblock.blocks ≤ D.count disk.old) }
    ensures fault { IfErr result (IsToldFault (known (D.seen disk.old) (D.lost disk.old))) }
    ensures disk_fault { (result ≡ Err MountFault.Disk) → HasRisen (D.faults disk.old) (D.faults disk.new) }
    ensures size { D.count disk.new ≡ D.count disk.old }
    ensures seen { D.seen disk.new ≡ D.seen disk.old }
    ensures lost { D.lost disk.new ≡ D.lost disk.old }
    ensures told { D.told disk.new ≡ D.told disk.old }
    ensures counted { D.faults disk.old ≤ D.faults disk.new }
{
    let mut block = [0; 4096];
    if read_super_block(disk, &mut block).is_err() {
        return Err(MountFault::Disk);
    }
    match Super::decode(&block, disk.blocks()) {
        Ok(superblock) => Ok(superblock),
        Err(fault) => Err(MountFault::Super(fault)),
    }
}
