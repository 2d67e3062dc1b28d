ghost use Rattle.std.specs.Prelude.{◌≡◌};

use blk_base::OutOfMemory;
use thiserror::Error;

/// Why no volume was made.
#[derive(Clone, Copy, Debug, PartialEq, Eq, Error)]
pub enum MkfsFault {
    /// A number that a volume can't have here.
    #[error("range")]
    Range,
    /// The disk failed.
    #[error("disk")]
    Disk,
    /// No memory.
    #[error("no memory")]
    OutOfMemory,
}

impl From<OutOfMemory> for MkfsFault {
    ghost use Rattle.volume_mkfs.specs.declared.fault.MkfsFault.TheVariants.{OutOfMemory};

    ghost from_gives = { λ _ fault. fault ≡ OutOfMemory };

    fn from(_e: OutOfMemory) -> MkfsFault {
        MkfsFault::OutOfMemory
    }
}
