//! How many bytes names have in the items that tell of them.
ghost use Rattle.std.specs.Prelude.{◌≡◌, ◌≤◌, ◌&&◌, ◌+◌, All, filter, length, nat_eq, not};
ghost use Rattle.std.specs.List.{sum_by};
ghost use Rattle.blk_base.specs.Crc.{extref_hash_of, name_hash_of};
ghost use Rattle.flat_model.specs.Lengths.{entry_length, extref_length, ref_length};
ghost use Rattle.flat_model.specs.Names.{hashed_of};
ghost use Rattle.name_ops.specs.Changes.{names_told};
ghost use Rattle.name_ops.specs.Sums.{IsFew, far_of, near_of};

use blk_base::{extref_hash, name_hash};
use name_items::NameEntry;

/// How many bytes names have in the item of a directory and a hash ("DIR_ITEM").
pub(crate) fn hashed_sum(entries: &[NameEntry<'_>], dir: u64, hash: u32) -> usize
    requires { IsFew entries.now }
    ensures sum { result ≡ sum_by entry_length (hashed_of (names_told entries.now) dir hash) }
    ensures small { result ≤ 570 }
{
    let mut sum = 0;
    for entry in entries {
        if entry.dir.0 == dir && name_hash(entry.bytes) == hash {
            sum += 30 + entry.bytes.len();
        }
    }
    sum
}

/// How many bytes names have in the item of the near names of an inode in a directory ("INODE_REF").
pub(crate) fn near_sum(entries: &[NameEntry<'_>], ino: u64, dir: u64) -> usize
    requires { IsFew entries.now }
    ensures sum { result ≡ sum_by ref_length (near_of (names_told entries.now) ino dir) }
    ensures small { result ≤ 570 }
{
    let mut sum = 0;
    for entry in entries {
        if entry.near && entry.ino.0 == ino && entry.dir.0 == dir {
            sum += 10 + entry.bytes.len();
        }
    }
    sum
}

/// How many bytes names have in the item of the far names of an inode with a hash ("INODE_EXTREF").
pub(crate) fn far_sum(entries: &[NameEntry<'_>], ino: u64, hash: u32) -> usize
    requires { IsFew entries.now }
    ensures sum { result ≡ sum_by extref_length (far_of (names_told entries.now) ino hash) }
    ensures small { result ≤ 570 }
{
    let mut sum = 0;
    for entry in entries {
        if !entry.near && entry.ino.0 == ino && extref_hash(entry.dir, entry.bytes) == hash {
            sum += 18 + entry.bytes.len();
        }
    }
    sum
}
