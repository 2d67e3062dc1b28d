ghost use Rattle.std.specs.Prelude.{◌≡◌};
ghost use Rattle.std.specs.Option.{unwrap_or};
ghost use Rattle.flat_model.specs.Walk.{ino_at, is_absent, is_blocked, is_dirless, is_root, is_taken};
ghost use Rattle.name_walk.specs.Ends.{end_view};

use blk_base::format::FIRST_FREE;

/// What stands in a slot: the inode to which the name leads, its index in the directory, and whether it is near, which is
/// held in an INODE_REF item, or far, which is held in an INODE_EXTREF item ("INODE_REF", "INODE_EXTREF" of the on-disk
/// format).
#[derive(Clone, Copy, Debug, PartialEq, Eq)]
pub struct Held {
    pub ino: u64,
    pub index: u64,
    pub near: bool,
}

/// Where a path leads in a subvolume. A slot is a directory and a name's bytes, which are the path's last.
#[derive(Clone, Copy, Debug)]
pub enum End<'p> {
    /// To the root directory.
    Root,
    /// To a slot of this directory that has no name.
    Free {
        dir: u64,
        name: &'p [u8],
    },
    /// To a slot of this directory with a name.
    Taken {
        dir: u64,
        name: &'p [u8],
        held: Held,
    },
    /// Nowhere: a name before the last isn't in its directory.
    Missing,
    /// Nowhere: what stands before the last name is no directory.
    Blocked,
}

/// Where a path leads in a subvolume, by the inode alone.
#[derive(Clone, Copy, Debug, PartialEq, Eq)]
pub enum Target {
    /// To the inode of this number.
    Inode(u64),
    /// Nowhere: a name isn't in its directory.
    Missing,
    /// Nowhere: what stands before the last name is no directory.
    Blocked,
}

impl End<'_> {
    /// Whether the walk met a name that isn't in its directory, the last one included.
    pub fn is_absent(&self) -> bool
        ensures { result ≡ is_absent (end_view self.now) }
    {
        match self {
            End::Free { .. } | End::Missing => true,
            End::Root | End::Taken { .. } | End::Blocked => false,
        }
    }

    /// Whether the walk met a name before the last that isn't in its directory.
    pub fn is_dirless(&self) -> bool
        ensures { result ≡ is_dirless (end_view self.now) }
    {
        match self {
            End::Missing => true,
            End::Root | End::Free { .. } | End::Taken { .. } | End::Blocked => false,
        }
    }

    /// Whether the walk met what is no directory before the last name.
    pub fn is_blocked(&self) -> bool
        ensures { result ≡ is_blocked (end_view self.now) }
    {
        match self {
            End::Blocked => true,
            End::Root | End::Free { .. } | End::Taken { .. } | End::Missing => false,
        }
    }

    /// Whether the path is the root directory's.
    pub fn is_root(&self) -> bool
        ensures { result ≡ is_root (end_view self.now) }
    {
        match self {
            End::Root => true,
            End::Free { .. } | End::Taken { .. } | End::Missing | End::Blocked => false,
        }
    }

    /// Whether something is there, the root directory included.
    pub fn is_taken(&self) -> bool
        ensures { result ≡ is_taken (end_view self.now) }
    {
        match self {
            End::Root | End::Taken { .. } => true,
            End::Free { .. } | End::Missing | End::Blocked => false,
        }
    }

    /// The number of the inode that is there, 0 where none is.
    pub fn ino(&self) -> u64
        ensures { result ≡ unwrap_or (ino_at (end_view self.now)) 0 }
    {
        match self {
            End::Root => FIRST_FREE,
            End::Taken { held, .. } => held.ino,
            End::Free { .. } | End::Missing | End::Blocked => 0,
        }
    }
}
