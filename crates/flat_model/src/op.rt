ghost use Rattle.std.specs.Prelude.{◌≡◌, IfOk};

use crate::Place;
use blk_base::{Name, OutOfMemory, Text};
use std::alloc::Global;

/// An operation on a volume. Symlinks aren't followed (system calls of the same names; the answers are own).
#[derive(Drop, Debug)]
pub enum Op {
    /// Makes an empty file.
    Create(Place),
    /// Makes a directory without names.
    Mkdir(Place),
    /// Makes a symlink to this target, 1 to 1023 bytes.
    Symlink(Place, Text),
    /// Gives the file or symlink at the first place the second as a further name.
    Link(Place, Place),
    /// Removes a name of a file or symlink.
    Unlink(Place),
    /// Removes a directory without names.
    Rmdir(Place),
    /// Moves the name at the first place to the second; a name that stood there goes.
    Rename(Place, Place),
    /// Swaps what the names at two places lead to.
    Exchange(Place, Place),
    /// Asks for the inode number at a place.
    Lookup(Place),
    /// Writes these 1 to 65,536 bytes from this offset on.
    Write(Place, u64, Text),
    /// Sets the size of a file, in bytes.
    Truncate(Place, u64),
    /// Reads from this offset on at most so many bytes.
    Read(Place, u64, u64),
    /// Sets an attribute to a value of at least one byte.
    SetAttr(Place, Name, Text),
    /// Removes an attribute.
    DelAttr(Place, Name),
    /// Asks for the value of an attribute.
    GetAttr(Place, Name),
}

impl Op {
    /// A copy of it.
    pub fn copy(&self, alloc: Global) -> Result<Op, OutOfMemory>
        ensures { IfOk result (λ op. op ≡ self.now) }
    {
        Ok(match self {
            Op::Create(place) => Op::Create(place.copy(alloc)?),
            Op::Mkdir(place) => Op::Mkdir(place.copy(alloc)?),
            Op::Symlink(place, target) => Op::Symlink(place.copy(alloc)?, target.copy(alloc)?),
            Op::Link(old, new) => Op::Link(old.copy(alloc)?, new.copy(alloc)?),
            Op::Unlink(place) => Op::Unlink(place.copy(alloc)?),
            Op::Rmdir(place) => Op::Rmdir(place.copy(alloc)?),
            Op::Rename(old, new) => Op::Rename(old.copy(alloc)?, new.copy(alloc)?),
            Op::Exchange(one, two) => Op::Exchange(one.copy(alloc)?, two.copy(alloc)?),
            Op::Lookup(place) => Op::Lookup(place.copy(alloc)?),
            Op::Write(place, offset, text) => {
                Op::Write(place.copy(alloc)?, *offset, text.copy(alloc)?)
            }
            Op::Truncate(place, size) => Op::Truncate(place.copy(alloc)?, *size),
            Op::Read(place, offset, count) => Op::Read(place.copy(alloc)?, *offset, *count),
            Op::SetAttr(place, name, value) => {
                Op::SetAttr(place.copy(alloc)?, name.copy(alloc)?, value.copy(alloc)?)
            }
            Op::DelAttr(place, name) => Op::DelAttr(place.copy(alloc)?, name.copy(alloc)?),
            Op::GetAttr(place, name) => Op::GetAttr(place.copy(alloc)?, name.copy(alloc)?),
        })
    }
}
