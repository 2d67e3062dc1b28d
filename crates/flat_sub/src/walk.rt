//! Where a path leads in a subvolume.
ghost use Rattle.std.specs.Prelude.{◌≡◌, position, is_some, option_map, nat_eq, bytes_eq, ◌&&◌, List, unwrap_or};
ghost use Rattle.std.specs.FinMap.{get};
ghost use Rattle.flat_model.specs.Records.{kind_of};
ghost use Rattle.flat_model.specs.Volume.{is_dir_at, is_dir_there, is_other_there};
ghost use Rattle.flat_sub.specs.View.{sub_view, IsWellKept};
ghost use Rattle.flat_model.specs.Walk.{WalkEnd, walk, is_absent, is_blocked, ino_at, record_at};
ghost use Rattle.flat_model.specs.Names.{FlatName};
ghost use Rattle.flat_sub.specs.Ends.{IsEnd, ComesTo, next_end, slot_end};
ghost use Rattle.flat_model.specs.Operations.{lookup};

use crate::sub::FlatSub;
use blk_base::Name;
use flat_model::{Answer, Kind, Path};
use flat_record::place_of;

/// Where a path leads.
#[derive(Clone, Copy)]
pub(crate) enum End {
    /// To the root directory.
    Root,
    /// To a slot of this directory that has no name.
    Free { dir: u64 },
    /// To a slot of this directory with a name, which stands at this place among the names and leads to this inode.
    Taken { dir: u64, at: usize, ino: u64 },
    /// Nowhere: a name before the last isn't in its directory.
    Missing,
    /// Nowhere: what stands before the last name is no directory.
    Blocked,
}

impl End {
    /// Whether the walk met a name that isn't in its directory, the last one included.
    pub(crate) fn is_absent(self) -> bool
        ensures { (names : List FlatName) (end : WalkEnd) → IsEnd names end self → result ≡ is_absent end }
    {
        match self {
            End::Root => false,
            End::Free { .. } => true,
            End::Taken { .. } => false,
            End::Missing => true,
            End::Blocked => false,
        }
    }

    /// Whether the walk met what is no directory before the last name.
    pub(crate) fn is_blocked(self) -> bool
        ensures { (names : List FlatName) (end : WalkEnd) → IsEnd names end self → result ≡ is_blocked end }
    {
        match self {
            End::Root => false,
            End::Free { .. } => false,
            End::Taken { .. } => false,
            End::Missing => false,
            End::Blocked => true,
        }
    }

    /// The number of the inode that is there, 0 where none is.
    pub(crate) fn ino(self) -> u64
        ensures { (names : List FlatName) (end : WalkEnd) → IsEnd names end self → result ≡ unwrap_or (ino_at end) 0 }
    {
        match self {
            End::Root => 256,
            End::Free { .. } => 0,
            End::Taken { ino, .. } => ino,
            End::Missing => 0,
            End::Blocked => 0,
        }
    }
}

impl FlatSub {
    /// What kind of inode has this number, where one has it.
    pub fn kind(&self, ino: u64) -> Option<Kind>
        ensures { result ≡ option_map kind_of (get (sub_view self.now).sub.inodes ino) }
    {
        match place_of(&self.inodes, ino) {
            Some(at) => {
                let entry = &self.inodes[at];
                Some(entry.1.kind())
            }
            None => None,
        }
    }

    /// Whether the inode is there and is a directory.
    pub fn is_dir(&self, ino: u64) -> bool
        ensures { result ≡ is_dir_at (sub_view self.now).sub ino }
    {
        match self.kind(ino) {
            Some(Kind::Dir) => true,
            Some(Kind::File) | Some(Kind::Link) | None => false,
        }
    }

    /// Whether the inode is there and is no directory.
    pub(crate) fn is_other(&self, ino: u64) -> bool
        ensures { result ≡ is_other_there (get (sub_view self.now).sub.inodes ino) }
    {
        match self.kind(ino) {
            Some(Kind::File) | Some(Kind::Link) => true,
            Some(Kind::Dir) | None => false,
        }
    }

    /// Whether a directory is there.
    pub(crate) fn is_dir_there(&self, end: End) -> bool
        ensures { (names : List FlatName) (before : WalkEnd) → IsEnd names before end → result ≡ is_dir_there (record_at (sub_view self.now).sub before) }
    {
        match end {
            End::Root => self.is_dir(256),
            End::Free { .. } => false,
            End::Taken { ino, .. } => self.is_dir(ino),
            End::Missing => false,
            End::Blocked => false,
        }
    }

    /// The place of the first name in a slot, which is a directory and bytes.
    fn place_in_slot(&self, dir: u64, bytes: &[u8]) -> Option<usize>
        ensures { result ≡ position (λ name. nat_eq name.dir.0 dir && bytes_eq name.name bytes.now) self.now.names.items }
    {
        self.names
            .iter()
            .position(|name| name.dir.0 == dir && name.name.as_bytes() == bytes)
    }

    /// Where one name leads, from a directory on.
    fn slot(&self, dir: u64, bytes: &[u8]) -> End
        requires { IsWellKept self.now }
        ensures { IsEnd (sub_view self.now).sub.names (slot_end (sub_view self.now).sub dir bytes.now) result }
    {
        if !self.is_dir(dir) {
            return End::Blocked;
        }
        match self.place_in_slot(dir, bytes) {
            Some(at) => {
                let name = &self.names[at];
                End::Taken {
                    dir,
                    at,
                    ino: name.ino.0,
                }
            }
            None => End::Free { dir },
        }
    }

    /// Where a path leads that goes on from such an end by one name.
    fn next(&self, end: End, bytes: &[u8]) -> End
        requires { IsWellKept self.now }
        ensures { (before : WalkEnd) → IsEnd (sub_view self.now).sub.names before end → IsEnd (sub_view self.now).sub.names (next_end (sub_view self.now).sub before bytes.now) result }
    {
        match end {
            End::Root => self.slot(256, bytes),
            End::Taken { ino, .. } => self.slot(ino, bytes),
            End::Free { .. } | End::Missing => End::Missing,
            End::Blocked => End::Blocked,
        }
    }

    /// Where a path leads.
    pub(crate) fn walk(&self, path: &Path) -> End
        requires { IsWellKept self.now }
        ensures { IsEnd (sub_view self.now).sub.names (walk (sub_view self.now).sub path.now) result }
    {
        let names: &[Name] = path.names();
        let mut end = End::Root;
        for name in names {
            end = self.next(end, name.as_bytes());
        }
        end
    }

    /// The number of the inode at a place.
    pub fn lookup(&self, path: &Path) -> Answer
        requires { IsWellKept self.now }
        ensures { ComesTo (lookup (sub_view self.now) path.now) (sub_view self.now) result }
    {
        match self.walk(path) {
            End::Free { .. } => Answer::NoEnt,
            End::Missing => Answer::NoEnt,
            End::Blocked => Answer::NotDir,
            End::Root => Answer::Number(256),
            End::Taken { ino, .. } => Answer::Number(ino),
        }
    }
}
