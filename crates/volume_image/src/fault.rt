use blk_base::{Addr, BlockFault};
use thiserror::Error;

/// The first fault of a walk over a tree, from left to right, a parent before its children; addresses are byte
/// addresses (own).
#[derive(Clone, Copy, Debug, PartialEq, Eq, Error)]
pub enum LoadFault {
    /// The block at this address fails this check; `Order` also where its first key isn't its pointer's, or isn't
    /// above every key before it.
    #[error("block {0:?}: {1}")]
    Block(Addr, BlockFault),
    /// An address at which the volume can't have a block.
    #[error("outside: {0:?}")]
    Outside(Addr),
    /// An address that was reached before.
    #[error("twice: {0:?}")]
    Twice(Addr),
    /// A root on a level above 7.
    #[error("level: {0:?}")]
    Level(Addr),
    /// A node or leaf below the least fill.
    #[error("thin: {0:?}")]
    Thin(Addr),
    /// The disk failed.
    #[error("disk")]
    Disk,
    /// No memory.
    #[error("no memory")]
    OutOfMemory,
}
