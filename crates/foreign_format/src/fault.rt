ghost use Rattle.std.specs.Prelude.{◌≡◌};

use blk_base::{BlockFault, Ino, ItemFault, Key, OutOfMemory, SubId};
use std::alloc::{AllocError, AllocFailed};
use thiserror::Error;

/// The first check that a volume of another maker fails, in the order of the checks. Addresses are logical byte
/// addresses.
#[derive(Clone, Copy, Debug, PartialEq, Eq, Error)]
pub enum ForeignFault {
    /// Not the magic of Btrfs.
    #[error("magic")]
    Magic,
    /// Sums of another kind than CRC-32C: csum_type.
    #[error("kind")]
    Kind(u16),
    /// The superblock's sum isn't that of its bytes.
    #[error("checksum")]
    Checksum,
    /// The superblock stands elsewhere, or has sizes that aren't read.
    #[error("size")]
    Size,
    /// The volume has a log tree: log_root.
    #[error("log")]
    HasLog(u64),
    /// The volume has another number of devices than one: num_devices.
    #[error("devices")]
    Devices(u64),
    /// The system chunks of the superblock aren't a row of keys and chunk items.
    #[error("array")]
    Array,
    /// A chunk, by its logical address, is neither single nor DUP.
    #[error("profile")]
    Profile(u64),
    /// A chunk, by its logical address, has numbers that can't be.
    #[error("chunk")]
    Chunk(u64),
    /// A tree block, or an extent, that isn't wholly in one chunk.
    #[error("unmapped")]
    Unmapped(u64),
    /// A tree block that fails this check.
    #[error("block")]
    Block(u64, BlockFault),
    /// A tree, by the address of its root, that is higher than level 7.
    #[error("level")]
    Level(u64),
    /// A tree block that one tree reaches twice.
    #[error("twice")]
    Twice(u64),
    /// An item of the leaf at this address, by its key, that fails this check.
    #[error("item")]
    Item(u64, Key, ItemFault),
    /// An inode of a subvolume that has a name and can't be listed.
    #[error("incoherent")]
    Incoherent(SubId, Ino),
}

/// Why a volume wasn't read to its end.
#[derive(Clone, Copy, Debug, PartialEq, Eq, Error)]
pub enum ReadFault {
    /// It fails this check, the first.
    #[error("{0}")]
    Foreign(ForeignFault),
    /// The disk failed.
    #[error("disk")]
    Disk,
    /// No memory.
    #[error("no memory")]
    OutOfMemory,
}

impl From<OutOfMemory> for ReadFault {
    ghost use Rattle.foreign_format.specs.declared.fault.ReadFault.TheVariants.{OutOfMemory};

    ghost from_gives = { λ _ fault. fault ≡ OutOfMemory };

    fn from(_e: OutOfMemory) -> ReadFault {
        ReadFault::OutOfMemory
    }
}

impl From<AllocError> for ReadFault {
    ghost use Rattle.foreign_format.specs.declared.fault.ReadFault.TheVariants.{OutOfMemory};

    ghost from_gives = { λ _ fault. fault ≡ OutOfMemory };

    fn from(_e: AllocError) -> ReadFault {
        ReadFault::OutOfMemory
    }
}

impl<T: Drop> From<AllocFailed<T>> for ReadFault {
    ghost use Rattle.foreign_format.specs.declared.fault.ReadFault.TheVariants.{OutOfMemory};

    ghost from_gives = { λ _ fault. fault ≡ OutOfMemory };

    fn from(_e: AllocFailed<T>) -> ReadFault {
        ReadFault::OutOfMemory
    }
}
