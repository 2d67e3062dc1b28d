//! Bytes of a disk, and zeros, summed as they come.
ghost use Rattle.std.specs.Prelude.{◌≡◌, ◌≢◌, ◌≤◌, ◌*◌, ◌+◌, All, IfErr, IfOk, Err};
ghost use Rattle.blk_base.specs.Bytes.{bytes_at, zeros};
ghost use Rattle.blk_base.specs.Causes.{HasRisen};
ghost use Rattle.blk_base.specs.Crc.{register_after};
ghost use Rattle.disk_model.specs.Disk.{IfTold, known};
ghost use Rattle.foreign_format.specs.declared.fault.ReadFault.{ReadFault};
ghost use Rattle.foreign_format.specs.Chunks.{IsOnDisk};
ghost use Rattle.foreign_tree.specs.Answers.{IsNoCheck};
ghost use Rattle.foreign_tree.specs.Tree.{disk_bytes, volume_value};
ghost use Rattle.foreign_file.specs.File.{source_bytes};
ghost use Rattle.foreign_file.specs.Registers.{IsRegisterOf};

use blk_base::crc_register;
use blk_base::format::BLOCK_SIZE;
use disk_model::Disk;
use foreign_format::{ForeignFault, ReadFault, Source, physical_of};
use foreign_tree::{Volume, read_part};
use std::alloc::Global;

/// The most bytes that are read at once.
const PIECE: u64 = 65_536;

/// The register behind so many zeros more.
pub(crate) fn add_zeros(register: u32, count: u64) -> u32
    ensures { result ≡ register_after register (zeros count) }
{
    let piece = [0; 4096];
    let mut after = register;
    let mut left = count;
    while left > 0 {
        let step = left.min(4096);
        after = crc_register(after, &piece[..step as usize]);
        left -= step;
    }
    after
}

/// The register behind so many bytes more of the disk, from byte `place` on.
fn add_range<D: Disk>(
    alloc: Global,
    disk: &mut D,
    register: u32,
    place: u64,
    count: u64,
) -> Result<u32, ReadFault>
    requires { place + count ≤ 4096 * D.count disk.old }
    ensures bytes { IfOk result (λ after. IfTold (known (D.seen disk.old) (D.lost disk.old)) (λ image. after ≡ register_after register (bytes_at count (disk_bytes image) place))) }
    ensures no_check { IfErr result IsNoCheck }
    ensures disk_fault { (result ≡ Err ReadFault.Disk) → HasRisen (D.faults disk.old) (D.faults disk.new) }
    ensures size { D.count disk.new ≡ D.count disk.old }
    ensures seen { D.seen disk.new ≡ D.seen disk.old }
    ensures lost { D.lost disk.new ≡ D.lost disk.old }
    ensures told { D.told disk.new ≡ D.told disk.old }
    ensures counted { D.faults disk.old ≤ D.faults disk.new }
{
    // Each byte's number fits 64 bits, as the number of blocks fits 32.
    let _blocks = disk.blocks();
    let mut after = register;
    let mut done = 0;
    while done < count {
        let step = PIECE.min(count - done);
        let part = read_part(alloc, disk, place + done, step as usize)?;
        after = crc_register(after, &part);
        done += step;
    }
    Ok(after)
}

/// The register behind so many bytes more of an extent.
pub(crate) fn add_source<D: Disk>(
    alloc: Global,
    disk: &mut D,
    volume: &Volume,
    register: u32,
    source: Source,
    count: u64,
) -> Result<u32, ReadFault>
    requires { All (IsOnDisk (4096 * D.count disk.old)) volume.now.chunks.items }
    ensures answer { IfTold (known (D.seen disk.old) (D.lost disk.old)) (λ image. IsRegisterOf register result (source_bytes (volume_value volume.now) (disk_bytes image) source count)) }
    ensures disk_fault { (result ≡ Err ReadFault.Disk) → HasRisen (D.faults disk.old) (D.faults disk.new) }
    ensures size { D.count disk.new ≡ D.count disk.old }
    ensures seen { D.seen disk.new ≡ D.seen disk.old }
    ensures lost { D.lost disk.new ≡ D.lost disk.old }
    ensures told { D.told disk.new ≡ D.told disk.old }
    ensures counted { D.faults disk.old ≤ D.faults disk.new }
{
    let disk_size = u64::from(disk.blocks()) * BLOCK_SIZE;
    match source {
        Source::Inline { at, .. } => {
            // No item of a disk passes its end.
            let there = count.min(disk_size.saturating_sub(at));
            add_range(alloc, disk, register, at.min(disk_size), there)
        }
        Source::Regular { at, offset, .. } => {
            let logical = u128::from(at) + u128::from(offset);
            match physical_of(&volume.chunks, logical, count, disk_size) {
                Some(place) => add_range(alloc, disk, register, place, count),
                None => Err(ReadFault::Foreign(ForeignFault::Unmapped(at))),
            }
        }
        Source::Zeros { .. } => Ok(add_zeros(register, count)),
    }
}
