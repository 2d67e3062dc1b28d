use blk_base::{Addr, Ino, ItemFault, Key};
use thiserror::Error;

/// The first fault of a check of a tree; addresses are byte addresses (own).
#[derive(Clone, Copy, Debug, PartialEq, Eq, Error)]
pub enum TreeFault {
    /// The item under this key, in the leaf at this address, fails this check.
    #[error("item {0:?} {1:?}: {2}")]
    Item(Addr, Key, ItemFault),
    /// A data block stands at an address at which the volume can't have one.
    #[error("outside: {0:?}")]
    Outside(Addr),
    /// A data block stands at an address that was reached before.
    #[error("twice: {0:?}")]
    Twice(Addr),
    /// This inode and the items that belong to it don't agree.
    #[error("incoherent: {0:?}")]
    Incoherent(Ino),
    /// The disk failed.
    #[error("disk")]
    Disk,
    /// No memory.
    #[error("no memory")]
    OutOfMemory,
}
