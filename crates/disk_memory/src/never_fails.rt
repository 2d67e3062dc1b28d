ghost use Rattle.std.specs.Prelude.{◌≤◌, length};

use crate::blocks::Blocks;
use crate::fault::{MemoryDiskFault, zeroed};
use blk_base::Block;
use disk_model::{Disk, DiskFailed};
use std::alloc::Global;

/// A disk in memory that never fails. It tells what a read gives, and keeps no record of its calls.
#[derive(Drop)]
pub struct NeverFails {
    image: Blocks,
    ghost small: { length image.items.items ≤ 65536 },
}

impl NeverFails {
    ghost use Rattle.std.specs.Prelude.{◌≡◌, ◌<◌, ◌↔◌, replicate, IfOk, IsErrOf};
    ghost use Rattle.disk_memory.specs.NeverFails.{never_reads};

    /// A disk of so many blocks of zeros, from 4096 to 65,536.
    pub fn new(alloc: Global, blocks: u32) -> Result<NeverFails, MemoryDiskFault>
        ensures small { IsErrOf result MemoryDiskFault.TooSmall ↔ (blocks < 4096) }
        ensures large { IsErrOf result MemoryDiskFault.TooLarge ↔ (65536 < blocks) }
        ensures zeros { IfOk result (λ disk. never_reads disk ≡ replicate blocks (replicate 4096 0)) }
    {
        Ok(NeverFails {
            image: zeroed(alloc, blocks)?,
        })
    }
}

impl Disk for NeverFails {
    ghost use Rattle.std.specs.Prelude.{[], length, Some, None, refl};
    ghost use Rattle.disk_memory.specs.NeverFails.{never_reads};

    ghost count = { λ disk. length (never_reads disk) };

    ghost seen = { λ disk. Some (never_reads disk) };

    ghost lost = { λ disk. [] };

    ghost told = { λ disk. None };

    ghost faults = { λ disk. 0 };

    fn blocks(&self) -> u32 {
        self.image.items.len() as u32
    }

    fn read(&mut self, at: u32, into: &mut Block) -> Result<(), DiskFailed> {
        *into = *self.image.get(at);
        Ok(())
    }

    fn write(&mut self, at: u32, from: &Block) -> Result<(), DiskFailed> {
        self.image.set(at, from);
        Ok(())
    }

    fn write_super(&mut self, from: &Block) -> Result<(), DiskFailed> {
        self.image.set(16, from);
        Ok(())
    }

    fn flush(&mut self) -> Result<(), DiskFailed> {
        Ok(())
    }

    ghost reads_as_told = { λ disk. tt };

    ghost lost_as_told = { λ disk. tt };

    ghost reads_blocks = { λ disk. disk.image.are_blocks };

    ghost reads_all = { λ disk. refl };

    ghost reads_as_left = { λ disk. tt };
}
