ghost use Rattle.std.specs.Prelude.{◌≡◌};
ghost use Rattle.std.specs.Option.{is_some};
ghost use Rattle.std.specs.List.{list_all};
ghost use Rattle.std.specs.Iterator.{YieldsFirstBy, item_count};
ghost use Rattle.blk_base.specs.Entries.{all_entries, extref_from, extrefs_of};
ghost use Rattle.blk_base.specs.Name.{is_name as name_test};
ghost use Rattle.item_inode.specs.Names.{extref_view, first_extref_view};

use crate::names::is_plain_name;
use blk_base::{Ino, ItemFault, u16_at, u64_at};
use std::marker::Model;

/// The names of an inode whose hashes meet, in their order ("INODE_EXTREF" of the on-disk format): an iterator over
/// the directory of each name, the directory's index of it, and the name, which is a part of the item's bytes.
#[derive(Debug, Drop)]
pub struct ExtRefs<'a> {
    rest: &'a [u8],
}

impl<'a> Model for ExtRefs<'a> {
    ghost use Rattle.std.specs.Prelude.{List, IsTrue};
    ghost use Rattle.std.specs.Option.{is_some};
    ghost use Rattle.blk_base.specs.Entries.{ExtRefValue, all_entries, extref_from};
    ghost use Rattle.item_inode.specs.Names.{extrefs_in};

    ghost Value = { List ExtRefValue };

    ghost view = { λ refs. extrefs_in refs.rest.now };

    ghost invariant = { λ refs. IsTrue (is_some (all_entries extref_from refs.rest.now)) };
}

impl<'a> ExtRefs<'a> {
    /// The names in an item, or the first check that the item fails, in the order Size (no bytes), Cut, NameLen.
    /// Takes any bytes.
    pub fn open(bytes: &'a [u8]) -> Result<ExtRefs<'a>, ItemFault>
        ensures { result ≡ extrefs_of bytes.now }
    {
        if bytes.is_empty() {
            return Err(ItemFault::Size);
        }
        if !is_whole(bytes) {
            return Err(ItemFault::Cut);
        }
        if !all_named(ExtRefs { rest: bytes }) {
            return Err(ItemFault::NameLen);
        }
        Ok(ExtRefs { rest: bytes })
    }
}

impl<'a> Iterator for ExtRefs<'a> {
    type Item = (Ino, u64, &'a [u8]);

    ghost next_gives = { YieldsFirstBy extref_view (λ refs. refs) };

    ghost remaining = { item_count (λ refs. refs) };

    fn next(&mut self) -> Option<(Ino, u64, &'a [u8])> {
        let (parent, index, name, behind) = first_extref(self.rest)?;
        self.rest = behind;
        Some((parent, index, name))
    }
}

/// The directory, the index and the name of the entry at the front, and the bytes behind it, where the entry doesn't
/// pass the end.
#[tactic(auto, unfolding(blk_base::specs::Entries::extref_from))]
fn first_extref<'a>(bytes: &'a [u8]) -> Option<(Ino, u64, &'a [u8], &'a [u8])>
    ensures { first_extref_view result ≡ extref_from bytes.now }
{
    if bytes.len() < 18 {
        return None;
    }
    let end = 18 + u16_at(bytes, 16) as usize;
    if bytes.len() < end {
        return None;
    }
    Some((
        Ino(u64_at(bytes, 0)),
        u64_at(bytes, 8),
        &bytes[18..end],
        &bytes[end..],
    ))
}

/// Whether the bytes are whole entries.
fn is_whole(bytes: &[u8]) -> bool
    ensures { result ≡ is_some (all_entries extref_from bytes.now) }
{
    let mut rest = bytes;
    while !rest.is_empty() {
        match first_extref(rest) {
            Some((_, _, _, behind)) => rest = behind,
            None => return false,
        }
    }
    true
}

/// Whether each name is one.
fn all_named(refs: ExtRefs<'_>) -> bool
    ensures { result ≡ list_all (λ r. name_test r.name) refs.entry }
{
    for (_, _, name) in refs {
        if !is_plain_name(name) {
            return false;
        }
    }
    true
}
