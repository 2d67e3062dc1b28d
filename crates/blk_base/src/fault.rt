ghost use Rattle.std.specs.Prelude.{◌≡◌};

use std::alloc::{AllocError, AllocFailed};
use thiserror::Error;

/// No memory for what was asked.
#[derive(Clone, Copy, Debug, PartialEq, Eq, Error)]
#[error("no memory")]
pub struct OutOfMemory;

impl From<AllocError> for OutOfMemory {
    fn from(_e: AllocError) -> OutOfMemory {
        OutOfMemory
    }
}

impl<T: Drop> From<AllocFailed<T>> for OutOfMemory {
    fn from(_e: AllocFailed<T>) -> OutOfMemory {
        OutOfMemory
    }
}

/// The first check that a tree block fails, in the order of the checks.
#[derive(Clone, Copy, Debug, PartialEq, Eq, Error)]
pub enum BlockFault {
    /// The sum of bytes 32 to 4095 isn't the one at byte 0.
    #[error("checksum")]
    Checksum,
    /// The block is of another file system.
    #[error("fsid")]
    Fsid,
    /// The block says that it stands elsewhere.
    #[error("address")]
    Address,
    /// The block is of another transaction than the pointer to it.
    #[error("generation")]
    Generation,
    /// The block is of another tree.
    #[error("owner")]
    Owner,
    /// The block stands on another level.
    #[error("level")]
    Level,
    /// A leaf of more than 159 items, or a node of none or of more than 121 pointers.
    #[error("count")]
    Count,
    /// The keys don't rise.
    #[error("order")]
    Order,
    /// Data of an item lie outside the room between the last item header and the block's end.
    #[error("bounds")]
    Bounds,
    /// Data of two items share a byte.
    #[error("overlap")]
    Overlap,
}

/// The first check that a superblock fails, in the order of the checks.
#[derive(Clone, Copy, Debug, PartialEq, Eq, Error)]
pub enum SuperFault {
    /// Not the magic of Btrfs.
    #[error("magic")]
    Magic,
    /// The sum of bytes 32 to 4095 isn't the one at byte 0.
    #[error("checksum")]
    Checksum,
    /// A volume of another kind than this profile's.
    #[error("foreign")]
    Foreign,
    /// The number of bytes isn't one that a volume may have here.
    #[error("size")]
    Size,
    /// The root tree stands at an address that isn't allowed.
    #[error("root")]
    Root,
    /// The root tree is higher than 7.
    #[error("level")]
    Level,
    /// The log root tree is higher than 7, or has a level and no address.
    #[error("loglevel")]
    LogLevel,
}

/// What is wrong with a root item.
#[derive(Clone, Copy, Debug, PartialEq, Eq, Error)]
pub enum RootFault {
    /// It hasn't 439 bytes.
    #[error("size")]
    Size,
}

/// The first check that an item fails, in the order of the item's checks.
#[derive(Clone, Copy, Debug, PartialEq, Eq, Error)]
pub enum ItemFault {
    /// A length that the item can't have.
    #[error("size")]
    Size,
    /// A name that is none.
    #[error("namelen")]
    NameLen,
    /// An entry passes the item's end.
    #[error("cut")]
    Cut,
    /// A type or mode that isn't known here, or data where none belong.
    #[error("kind")]
    Kind,
    /// A name that stands twice in one item.
    #[error("twice")]
    Twice,
    /// A compressed extent.
    #[error("compressed")]
    Compressed,
    /// An encrypted extent, or one of another encoding.
    #[error("encrypted")]
    Encrypted,
    /// An extent that is only reserved.
    #[error("preallocated")]
    Preallocated,
    /// A number of an extent that isn't a whole number of blocks in its range.
    #[error("align")]
    Align,
    /// An extent that begins below the end of the one before it.
    #[error("overlap")]
    Overlap,
}
