//! What a listing shows of a file's bytes.
ghost use Rattle.std.specs.Prelude.{◌≡◌, ◌≤◌, ◌*◌, ◌+◌, All, Err};
ghost use Rattle.blk_base.specs.Causes.{HasRisen};
ghost use Rattle.disk_model.specs.Disk.{IfTold, known};
ghost use Rattle.foreign_format.specs.declared.fault.ReadFault.{ReadFault};
ghost use Rattle.foreign_format.specs.Answer.{Answers};
ghost use Rattle.foreign_format.specs.Chunks.{IsOnDisk};
ghost use Rattle.foreign_tree.specs.Tree.{disk_bytes, volume_value};
ghost use Rattle.foreign_file.specs.File.{below_size, coding_of, content_from, file_sum};
ghost use Rattle.foreign_file.specs.Registers.{IsRegisterOf};

use crate::bytes::{add_source, add_zeros};
use disk_model::Disk;
use foreign_format::{Coding, Extent, ReadFault};
use foreign_tree::Volume;
use std::alloc::Global;

/// The most bytes of a file whose sum is taken.
const MOST_SUMMED: u64 = 1_073_741_824;

/// What a listing shows of a file's bytes: how they are written where they aren't plain, that they are too many to be
/// summed, or their CRC-32C.
#[derive(Clone, Copy, Debug, PartialEq, Eq)]
pub enum Sum {
    Compressed,
    Encrypted,
    Large,
    Taken(u32),
}

/// How many bytes of an extent lie below a file's size.
fn below_size(size: u64, extent: &Extent) -> u64
    ensures { result ≡ below_size size extent.now }
{
    extent.length().min(size.saturating_sub(extent.offset))
}

/// How the first extent that isn't plain is written.
fn coding_of(extents: &[Extent]) -> Coding
    ensures { result ≡ coding_of extents.now }
{
    for extent in extents {
        match extent.coding {
            Coding::Plain => {}
            coding => return coding,
        }
    }
    Coding::Plain
}

/// The register behind all bytes of a file.
fn register_of<D: Disk>(
    alloc: Global,
    disk: &mut D,
    volume: &Volume,
    size: u64,
    extents: &[Extent],
) -> Result<u32, ReadFault>
    requires { All (IsOnDisk (4096 * D.count disk.old)) volume.now.chunks.items }
    ensures answer { IfTold (known (D.seen disk.old) (D.lost disk.old)) (λ image. IsRegisterOf 0xFFFF_FFFF result (content_from (volume_value volume.now) (disk_bytes image) size 0 extents.now)) }
    ensures disk_fault { (result ≡ Err ReadFault.Disk) → HasRisen (D.faults disk.old) (D.faults disk.new) }
    ensures size { D.count disk.new ≡ D.count disk.old }
    ensures seen { D.seen disk.new ≡ D.seen disk.old }
    ensures lost { D.lost disk.new ≡ D.lost disk.old }
    ensures told { D.told disk.new ≡ D.told disk.old }
    ensures counted { D.faults disk.old ≤ D.faults disk.new }
{
    let mut register = u32::MAX;
    let mut from = 0;
    for extent in extents {
        let count = below_size(size, extent);
        if count == 0 {
            continue;
        }
        let before = add_zeros(register, extent.offset.saturating_sub(from));
        register = add_source(alloc, disk, volume, before, extent.source, count)?;
        from = extent.offset + count;
    }
    Ok(add_zeros(register, size.saturating_sub(from)))
}

/// What a listing shows of the bytes of a file of this size, by its extents in ascending order ("EXTENT_DATA" of the on-disk
/// format), or the first fault: an extent whose bytes below the size aren't wholly in one chunk. The bytes of a preallocated
/// extent, of a gap and behind the last extent are zeros. A sum is taken of a file of up to 1 GiB whose extents are all
/// plain. `Disk` comes only where the disk's count of faults rose in this call.
pub fn sum_of<D: Disk>(
    alloc: Global,
    disk: &mut D,
    volume: &Volume,
    size: u64,
    extents: &[Extent],
) -> Result<Sum, ReadFault>
    requires { All (IsOnDisk (4096 * D.count disk.old)) volume.now.chunks.items }
    ensures answer { IfTold (known (D.seen disk.old) (D.lost disk.old)) (λ image. Answers (λ sum. sum) result (file_sum (volume_value volume.now) (disk_bytes image) size extents.now)) }
    ensures disk_fault { (result ≡ Err ReadFault.Disk) → HasRisen (D.faults disk.old) (D.faults disk.new) }
    ensures size { D.count disk.new ≡ D.count disk.old }
    ensures seen { D.seen disk.new ≡ D.seen disk.old }
    ensures lost { D.lost disk.new ≡ D.lost disk.old }
    ensures told { D.told disk.new ≡ D.told disk.old }
    ensures counted { D.faults disk.old ≤ D.faults disk.new }
{
    match coding_of(extents) {
        Coding::Compressed => return Ok(Sum::Compressed),
        Coding::Encrypted => return Ok(Sum::Encrypted),
        Coding::Plain => {}
    }
    if size > MOST_SUMMED {
        return Ok(Sum::Large);
    }
    let register = register_of(alloc, disk, volume, size, extents)?;
    Ok(Sum::Taken(register ^ u32::MAX))
}
