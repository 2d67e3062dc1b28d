//! Ranges of a disk's bytes.
ghost use Rattle.std.specs.Prelude.{◌≡◌, ◌≢◌, ◌≤◌, ◌<◌, ◌+◌, ◌*◌, ◌/◌, ◌++◌, ℕ, length, IfOk, IfErr, OnOk, Err};
ghost use Rattle.blk_base.specs.Bytes.{bytes_at};
ghost use Rattle.blk_base.specs.Causes.{HasRisen};
ghost use Rattle.disk_model.specs.Disk.{HasCause, IfTold, known};
ghost use Rattle.foreign_format.specs.declared.fault.ReadFault.{ReadFault};
ghost use Rattle.foreign_tree.specs.Answers.{IsNoCheck};
ghost use Rattle.foreign_tree.specs.Tree.{disk_bytes};

use blk_base::format::BLOCK_SIZE;
use disk_model::{Disk, DiskFailed};
use foreign_format::ReadFault;
use std::alloc::Global;

/// Reads the block in which a byte of the disk stands.
fn read_block<D: Disk>(disk: &mut D, at: u64, into: &mut [u8; 4096]) -> Result<(), DiskFailed>
    requires { at < 4096 * D.count disk.old }
    ensures bytes { OnOk result (IfTold (known (D.seen disk.old) (D.lost disk.old)) (λ image. (start count : ℕ) → start + count ≤ 4096 → bytes_at count into.new start ≡ bytes_at count (disk_bytes image) (4096 * (at / 4096) + start))) }
    ensures size { D.count disk.new ≡ D.count disk.old }
    ensures seen { D.seen disk.new ≡ D.seen disk.old }
    ensures lost { D.lost disk.new ≡ D.lost disk.old }
    ensures told { D.told disk.new ≡ D.told disk.old }
    ensures cause { HasCause (D.faults disk.old) (D.faults disk.new) result }
{
    // Its number fits 32 bits, as the number of blocks does.
    let _blocks = disk.blocks();
    disk.read((at / BLOCK_SIZE) as u32, into)
}

/// Adds the bytes of the disk from byte `at` on to `part`, as far as the block of that byte goes, but `most` at most.
fn add_piece<D: Disk>(
    disk: &mut D,
    at: u64,
    most: usize,
    part: &mut Vec<u8>,
) -> Result<usize, ReadFault>
    requires some { 0 < most }
    requires room { at + most ≤ 4096 * D.count disk.old }
    ensures least { IfOk result (λ count. 0 < count) }
    ensures most { IfOk result (λ count. count ≤ most) }
    ensures length { IfOk result (λ count. length part.new.items ≡ length part.old.items + count) }
    ensures bytes { IfOk result (λ count. IfTold (known (D.seen disk.old) (D.lost disk.old)) (λ image. part.new.items ≡ part.old.items ++ bytes_at count (disk_bytes image) at)) }
    ensures no_check { IfErr result IsNoCheck }
    ensures disk_fault { (result ≡ Err ReadFault.Disk) → HasRisen (D.faults disk.old) (D.faults disk.new) }
    ensures size { D.count disk.new ≡ D.count disk.old }
    ensures seen { D.seen disk.new ≡ D.seen disk.old }
    ensures lost { D.lost disk.new ≡ D.lost disk.old }
    ensures told { D.told disk.new ≡ D.told disk.old }
    ensures counted { D.faults disk.old ≤ D.faults disk.new }
{
    let mut block = [0; 4096];
    if read_block(disk, at, &mut block).is_err() {
        return Err(ReadFault::Disk);
    }
    let start = (at % BLOCK_SIZE) as usize;
    let count = most.min(4096 - start);
    part.extend_from_slice(&block[start..start + count])?;
    Ok(count)
}

/// Reads so many bytes of the disk from byte `place` on. `Disk` comes only where the disk's count of faults rose in this
/// call.
pub fn read_part<D: Disk>(
    alloc: Global,
    disk: &mut D,
    place: u64,
    count: usize,
) -> Result<Vec<u8>, ReadFault>
    requires { place + count ≤ 4096 * D.count disk.old }
    ensures length { IfOk result (λ part. length part.items ≡ count) }
    ensures bytes { IfOk result (λ part. IfTold (known (D.seen disk.old) (D.lost disk.old)) (λ image. part.items ≡ bytes_at count (disk_bytes image) place)) }
    ensures no_check { IfErr result IsNoCheck }
    ensures disk_fault { (result ≡ Err ReadFault.Disk) → HasRisen (D.faults disk.old) (D.faults disk.new) }
    ensures size { D.count disk.new ≡ D.count disk.old }
    ensures seen { D.seen disk.new ≡ D.seen disk.old }
    ensures lost { D.lost disk.new ≡ D.lost disk.old }
    ensures told { D.told disk.new ≡ D.told disk.old }
    ensures counted { D.faults disk.old ≤ D.faults disk.new }
{
    // Each byte's number fits 64 bits, as the number of blocks fits 32.
    let _blocks = disk.blocks();
    let mut part = Vec::with_capacity(alloc, count)?;
    let mut read = 0;
    while read < count {
        read += add_piece(disk, place + read as u64, count - read, &mut part)?;
    }
    Ok(part)
}
