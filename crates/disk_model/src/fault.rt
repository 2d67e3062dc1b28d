use thiserror::Error;

/// A call of a device was refused.
#[derive(Clone, Copy, Debug, PartialEq, Eq, Error)]
pub enum DeviceFault {
    /// The disk failed. `tried`: the superblock that the call was to write was tried.
    #[error("disk")]
    Disk { tried: bool },
}
