//! A volume's superblock and its chunks.
ghost use Rattle.std.specs.Prelude.{◌≡◌, ◌≤◌, ◌*◌, All, IfOk, OnOk, Err};
ghost use Rattle.blk_base.specs.Causes.{HasRisen};
ghost use Rattle.disk_model.specs.Disk.{HasCause, IfTold, known};
ghost use Rattle.foreign_format.specs.declared.fault.ReadFault.{ReadFault};
ghost use Rattle.foreign_format.specs.Answer.{Answers};
ghost use Rattle.foreign_format.specs.Chunks.{IsOnDisk};
ghost use Rattle.foreign_volume.specs.Opened.{opened_of, size_of, super_bytes};
ghost use Rattle.foreign_volume.specs.View.{opened_value};

use crate::chunks::{array_chunks, tree_chunks, volume_with};
use blk_base::Block;
use blk_base::format::SUPER_BLOCK;
use disk_model::{Disk, DiskFailed};
use foreign_format::{ReadFault, Superblock, read_superblock};
use foreign_tree::Volume;
use std::alloc::Global;

/// A volume that was opened: its superblock, and what its trees are read by.
#[derive(Drop)]
pub struct Opened {
    pub superblock: Superblock,
    pub volume: Volume,
}

/// Reads the block of the superblock; a disk without it counts as zeros there.
fn read_super_block<D: Disk>(disk: &mut D, into: &mut Block) -> Result<(), DiskFailed>
    ensures bytes { OnOk result (IfTold (known (D.seen disk.old) (D.lost disk.old)) (λ image. super_bytes image ≡ into.new)) }
    ensures size { D.count disk.new ≡ D.count disk.old }
    ensures seen { D.seen disk.new ≡ D.seen disk.old }
    ensures lost { D.lost disk.new ≡ D.lost disk.old }
    ensures told { D.told disk.new ≡ D.told disk.old }
    ensures cause { HasCause (D.faults disk.old) (D.faults disk.new) result }
{
    if disk.blocks() <= SUPER_BLOCK {
        *into = [0; 4096];
        return Ok(());
    }
    disk.read(SUPER_BLOCK, into)
}

/// Opens the volume on a disk ("Superblock", "CHUNK_ITEM" of the on-disk format), or answers the first fault: of the
/// superblock; of the chunks that it has, which serve to read the chunk tree alone; of that tree; of the chunks in it.
/// `Disk` comes only where the disk's count of faults rose in this call.
pub fn open<D: Disk>(alloc: Global, disk: &mut D) -> Result<Opened, ReadFault>
    ensures answer { IfTold (known (D.seen disk.old) (D.lost disk.old)) (λ image. Answers opened_value result (opened_of (D.count disk.old) image)) }
    ensures on_disk { IfOk result (λ opened. All (IsOnDisk (size_of (D.count disk.old))) opened.volume.chunks.items) }
    ensures least { IfOk result (λ opened. 4096 ≤ opened.volume.node_size) }
    ensures most { IfOk result (λ opened. opened.volume.node_size ≤ 65536) }
    ensures disk_fault { (result ≡ Err ReadFault.Disk) → HasRisen (D.faults disk.old) (D.faults disk.new) }
    ensures size { D.count disk.new ≡ D.count disk.old }
    ensures seen { D.seen disk.new ≡ D.seen disk.old }
    ensures lost { D.lost disk.new ≡ D.lost disk.old }
    ensures told { D.told disk.new ≡ D.told disk.old }
    ensures counted { D.faults disk.old ≤ D.faults disk.new }
{
    let mut block = [0; 4096];
    if read_super_block(disk, &mut block).is_err() {
        return Err(ReadFault::Disk);
    }
    let superblock = match read_superblock(&block) {
        Ok(superblock) => superblock,
        Err(fault) => return Err(ReadFault::Foreign(fault)),
    };
    let first = array_chunks(alloc, &block, disk.blocks())?;
    let chunks = tree_chunks(alloc, disk, &superblock, first)?;
    let volume = volume_with(&superblock, chunks);
    Ok(Opened { superblock, volume })
}
