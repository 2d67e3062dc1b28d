ghost use Rattle.std.specs.Prelude.{◌≡◌, IfOk, IsPermutation, is_some, option_map, map};
ghost use Rattle.std.specs.FinMap.{get};

use blk_base::{Ino, Name, OutOfMemory};
use std::alloc::Global;

/// What an inode is.
#[derive(Clone, Copy, Debug, PartialEq, Eq)]
pub enum Kind {
    File,
    Dir,
    Link,
}

/// A name: the directory that has it, its index there, its bytes, and the inode that it leads to.
#[derive(Drop, Debug)]
pub struct NameAt {
    pub dir: Ino,
    pub index: u64,
    pub name: Name,
    pub ino: Ino,
}

impl NameAt {
    /// A copy of it.
    pub fn copy(&self, alloc: Global) -> Result<NameAt, OutOfMemory>
        ensures { IfOk result (λ name. name ≡ self.now) }
    {
        Ok(NameAt {
            dir: self.dir,
            index: self.index,
            name: self.name.copy(alloc)?,
            ino: self.ino,
        })
    }
}

/// A subvolume as its names and kinds are seen, wherever they are kept. What each call answers is a matter of the
/// subvolume alone.
pub trait NameView {
    ghost use Rattle.flat_model.specs.Volume.{Subvolume, is_dir_at};
    ghost use Rattle.flat_model.specs.Names.{names_of, entries_of, hashed_of, name_in_slot};
    ghost use Rattle.flat_model.specs.Unmarked.{unmarked};

    /// The subvolume that is seen.
    ghost sub: { Self → Subvolume };

    /// The names of an inode, in any order.
    fn names_of(&self, alloc: Global, ino: Ino) -> Result<Vec<NameAt>, OutOfMemory>
        ensures { IfOk result (λ names. IsPermutation (map unmarked (names_of (sub self.now).names ino.0)) names.items) };

    /// The names in a directory, in any order.
    fn entries(&self, alloc: Global, dir: Ino) -> Result<Vec<NameAt>, OutOfMemory>
        ensures { IfOk result (λ names. IsPermutation (map unmarked (entries_of (sub self.now).names dir.0)) names.items) };

    /// The names in a directory whose bytes have this hash, in any order ("DIR_ITEM": key offset).
    fn hashed(&self, alloc: Global, dir: Ino, hash: u32) -> Result<Vec<NameAt>, OutOfMemory>
        ensures { IfOk result (λ names. IsPermutation (map unmarked (hashed_of (sub self.now).names dir.0 hash)) names.items) };

    /// The inode to which the name in a directory leads, where the directory has it. Takes no memory.
    fn slot(&self, dir: Ino, name: &[u8]) -> Option<Ino>
        ensures { option_map (λ ino. ino.0) result ≡ option_map (λ entry. entry.ino) (name_in_slot (sub self.now).names dir.0 name.now) };

    /// Whether the inode is there. Takes no memory.
    fn has(&self, ino: Ino) -> bool
        ensures { result ≡ is_some (get (sub self.now).inodes ino.0) };

    /// Whether the inode is there and is a directory. Takes no memory.
    fn is_dir(&self, ino: Ino) -> bool
        ensures { result ≡ is_dir_at (sub self.now) ino.0 };
}
