ghost use Rattle.std.specs.Prelude.{◌≡◌, ◌<◌, ◌↔◌, replicate, IfOk, IsErrOf};

use crate::blocks::Blocks;
use blk_base::OutOfMemory;
use blk_base::limits::{FEWEST_BLOCKS, MOST_BLOCKS};
use std::alloc::Global;
use thiserror::Error;

/// Why there is no such disk in memory.
#[derive(Clone, Copy, Debug, PartialEq, Eq, Error)]
pub enum MemoryDiskFault {
    /// Fewer than 4096 blocks.
    #[error("too small")]
    TooSmall,
    /// More than 65,536 blocks.
    #[error("too large")]
    TooLarge,
    /// No memory.
    #[error("no memory")]
    OutOfMemory,
}

impl From<OutOfMemory> for MemoryDiskFault {
    ghost use Rattle.std.specs.Prelude.{◌≡◌};
    ghost use Rattle.disk_memory.specs.declared.fault.MemoryDiskFault.TheVariants as fault;

    ghost from_gives = { λ _ e. e ≡ fault.OutOfMemory };

    fn from(_fault: OutOfMemory) -> MemoryDiskFault {
        MemoryDiskFault::OutOfMemory
    }
}

/// So many blocks of zeros, as many as a disk may have.
pub fn zeroed(alloc: Global, blocks: u32) -> Result<Blocks, MemoryDiskFault>
    ensures small { IsErrOf result MemoryDiskFault.TooSmall ↔ (blocks < FEWEST_BLOCKS) }
    ensures large { IsErrOf result MemoryDiskFault.TooLarge ↔ (MOST_BLOCKS < blocks) }
    ensures zeros { IfOk result (λ image. image.items.items ≡ replicate blocks (replicate 4096 0)) }
{
    if blocks < FEWEST_BLOCKS {
        return Err(MemoryDiskFault::TooSmall);
    }
    if blocks > MOST_BLOCKS {
        return Err(MemoryDiskFault::TooLarge);
    }
    Ok(Blocks::zeros(alloc, blocks)?)
}
