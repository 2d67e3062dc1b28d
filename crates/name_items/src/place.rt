//! Where a name's entry lies among the bytes of an item.
ghost use Rattle.std.specs.Prelude.{◌≡◌, ◌<◌, ◌^◌, length, Contains};
ghost use Rattle.std.specs.List.{flat_map};
ghost use Rattle.blk_base.specs.Entries.{EntryValue, ExtRefValue, RefValue, entry_bytes, extref_bytes, ref_bytes};
ghost use Rattle.name_items.specs.Places.{HasPlace, IsEntryNamed, IsFarNamed, IsRefNamed};

use blk_base::Ino;
use item_dir::Entries;
use item_inode::{ExtRefs, Refs};

/// From which byte to which the near name with these bytes lies, of names one of which has them ("INODE_REF" of the on-disk
/// format).
pub(crate) fn near_place(refs: Refs<'_>, name: &[u8]) -> (usize, usize)
    requires there { (ref : RefValue) × Contains refs ref × IsRefNamed name.now ref }
    requires few { length (flat_map ref_bytes refs) < 2 ^ 32 }
    ensures { HasPlace ref_bytes (IsRefNamed name.now) refs.entry result.0 result.1 }
{
    let mut at = 0;
    for (_, other) in refs {
        let end = at + 10 + other.len();
        if other == name {
            return (at, end);
        }
        at = end;
    }
    unreachable!()
}

/// The same of a far name, which a directory has ("INODE_EXTREF" of the on-disk format).
pub(crate) fn far_place(refs: ExtRefs<'_>, parent: Ino, name: &[u8]) -> (usize, usize)
    requires there { (ref : ExtRefValue) × Contains refs ref × IsFarNamed parent.0 name.now ref }
    requires few { length (flat_map extref_bytes refs) < 2 ^ 32 }
    ensures { HasPlace extref_bytes (IsFarNamed parent.0 name.now) refs.entry result.0 result.1 }
{
    let mut at = 0;
    for (dir, _, other) in refs {
        let end = at + 18 + other.len();
        if dir.0 == parent.0 && other == name {
            return (at, end);
        }
        at = end;
    }
    unreachable!()
}

/// The same of an entry of a directory ("DIR_ITEM" of the on-disk format).
pub(crate) fn entry_place(entries: Entries<'_>, name: &[u8]) -> (usize, usize)
    requires there { (entry : EntryValue) × Contains entries entry × IsEntryNamed name.now entry }
    requires few { length (flat_map entry_bytes entries) < 2 ^ 32 }
    ensures { HasPlace entry_bytes (IsEntryNamed name.now) entries.entry result.0 result.1 }
{
    let mut at = 0;
    for entry in entries {
        let end = at + 30 + entry.name.len() + entry.value.len();
        if entry.name == name {
            return (at, end);
        }
        at = end;
    }
    unreachable!()
}
