ghost use Rattle.std.specs.Prelude.{◌≡◌};
ghost use Rattle.tree_mount.specs.Faults.{load_fault, tree_fault};

use blk_base::{Addr, Ino, ItemFault, Key, OutOfMemory, SubId, SuperFault};
use thiserror::Error;
use tree_check::TreeFault;
use volume_image::LoadFault;

/// Why a volume can't be mounted (own).
#[derive(Clone, Copy, Debug, PartialEq, Eq, Error)]
pub enum MountFault {
    /// The superblock fails this check.
    #[error("superblock: {0}")]
    Super(SuperFault),
    /// The volume has a log.
    #[error("a log")]
    Log,
    /// A tree or data block fails this check, or stands at an address that is outside or was reached before.
    #[error("tree: {0}")]
    Load(LoadFault),
    /// The item under this key, in the leaf at this byte address, fails this check.
    #[error("item {0:?} {1:?}: {2}")]
    Item(Addr, Key, ItemFault),
    /// The lowest faulty inode of this subvolume.
    #[error("incoherent: {0:?} {1:?}")]
    Incoherent(SubId, Ino),
    /// Too few blocks are free for a mount.
    #[error("no room: {free} blocks free, {need} needed")]
    NoRoom { free: u64, need: u64 },
    /// The disk failed.
    #[error("disk")]
    Disk,
    /// No memory.
    #[error("no memory")]
    OutOfMemory,
}

impl From<OutOfMemory> for MountFault {
    ghost use Rattle.tree_mount.specs.declared.fault.MountFault.TheVariants.{OutOfMemory};

    ghost from_gives = { λ _ fault. fault ≡ OutOfMemory };

    fn from(_e: OutOfMemory) -> MountFault {
        MountFault::OutOfMemory
    }
}

/// The fault of a mount that a fault of a walk over a tree is.
pub(crate) fn of_load(fault: LoadFault) -> MountFault
    ensures { result ≡ load_fault fault }
{
    match fault {
        LoadFault::Disk => MountFault::Disk,
        LoadFault::OutOfMemory => MountFault::OutOfMemory,
        other => MountFault::Load(other),
    }
}

/// The fault of a mount that a fault in the tree of this subvolume is.
pub(crate) fn of_tree(sub: SubId, fault: TreeFault) -> MountFault
    ensures { result ≡ tree_fault sub.0 fault }
{
    match fault {
        TreeFault::Item(at, key, why) => MountFault::Item(at, key, why),
        TreeFault::Outside(at) => MountFault::Load(LoadFault::Outside(at)),
        TreeFault::Twice(at) => MountFault::Load(LoadFault::Twice(at)),
        TreeFault::Incoherent(ino) => MountFault::Incoherent(sub, ino),
        TreeFault::Disk => MountFault::Disk,
        TreeFault::OutOfMemory => MountFault::OutOfMemory,
    }
}
