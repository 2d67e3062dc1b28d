//! An empty volume, written to a disk.
ghost use Rattle.std.specs.Prelude.{◌≡◌, ◌≤◌, ◌↔◌, ◌⊎◌, Err, IsTrue, OnOk};
ghost use Rattle.blk_base.specs.Causes.{HasRisen};
ghost use Rattle.disk_model.specs.Disk.{IfTold};
ghost use Rattle.flat_model.specs.Volume.{bare_volume};
ghost use Rattle.volume_image.specs.Stands.{Stands};
ghost use Rattle.volume_mkfs.specs.Made.{CrashLeaves, HasNewSuper, IsMade, IsOldOrBare, MayBeMade};

use crate::MkfsFault;
use crate::empty::empty_volume;
use blk_base::limits::{FEWEST_BLOCKS, MOST_BLOCKS, MOST_SUBS};
use device_side::DeviceSide;
use disk_model::Disk;
use std::alloc::Global;

/// Whether a volume of so many blocks and subvolumes may be made on a disk of so many blocks.
fn may_be_made(disk_blocks: u32, blocks: u32, subs: u8) -> bool
    ensures { IsTrue result ↔ MayBeMade disk_blocks blocks subs }
{
    let has_size = FEWEST_BLOCKS <= blocks && blocks <= MOST_BLOCKS && blocks <= disk_blocks;
    has_size && 1 <= subs && u32::from(subs) <= MOST_SUBS
}

/// Makes an empty volume with this uuid, of so many blocks of 4096 bytes and so many subvolumes, on the disk, as the commit
/// of a volume whose subvolumes have nothing but their root directories: their trees and the root tree, a flush, and then
/// the superblock, as `mkfs.btrfs` makes its trees ahead of it. The subvolumes are 5, then 256 and on (own).
///
/// A crash at any moment leaves the superblock from before, or the new volume.
///
/// # Errors
///
/// `Range` comes exactly where the volume wouldn't have 4096 to 65,536 blocks, all of them on the disk, and 1 to 16
/// subvolumes (own). `Disk` comes only where the disk failed in this call.
pub fn mkfs<D: Disk>(
    alloc: Global,
    disk: &mut D,
    fsid: [u8; 16],
    blocks: u32,
    subs: u8,
) -> Result<(), MkfsFault>
    ensures range { (result ≡ Err MkfsFault.Range) ↔ (MayBeMade (D.count disk.old) blocks subs → ⊥) }
    ensures untouched { (result ≡ Err MkfsFault.Range) ⊎ (result ≡ Err MkfsFault.OutOfMemory) → disk.new ≡ disk.old }
    ensures made { OnOk result (IsMade fsid blocks subs (D.seen disk.new) (D.lost disk.old) (D.lost disk.new) (D.told disk.old) (D.told disk.new)) }
    ensures stands { OnOk result (IfTold (D.seen disk.new) (λ image. Stands image (bare_volume subs))) }
    ensures superblock { OnOk result (IfTold (D.seen disk.new) (HasNewSuper fsid blocks)) }
    ensures crash { CrashLeaves (D.told disk.old) (D.told disk.new) (IsOldOrBare subs) }
    ensures size { D.count disk.new ≡ D.count disk.old }
    ensures counted { D.faults disk.old ≤ D.faults disk.new }
    ensures disk_fault { (result ≡ Err MkfsFault.Disk) → HasRisen (D.faults disk.old) (D.faults disk.new) }
{
    if !may_be_made(disk.blocks(), blocks, subs) {
        return Err(MkfsFault::Range);
    }
    let batch = empty_volume(alloc, &fsid, blocks, subs)?;
    match DeviceSide::new().finish(disk, &batch) {
        Ok(()) => Ok(()),
        Err(_) => Err(MkfsFault::Disk),
    }
}
