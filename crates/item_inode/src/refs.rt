ghost use Rattle.std.specs.Prelude.{◌≡◌, ◌≤◌, length, List};
ghost use Rattle.std.specs.Option.{is_some};
ghost use Rattle.std.specs.List.{list_all};
ghost use Rattle.std.specs.Str.{bytes_eq};
ghost use Rattle.std.specs.Iterator.{YieldsFirstBy, item_count};
ghost use Rattle.blk_base.specs.Entries.{all_entries, dots, is_dots_place as dots_place_test, is_ref_name as ref_name_test, ref_from, refs_of};
ghost use Rattle.item_inode.specs.Names.{ref_view, first_ref_view};

use crate::names::is_plain_name;
use blk_base::format::{DOTS, FIRST_FREE, INODE_REF};
use blk_base::{ItemFault, Key, u16_at, u64_at};
use std::marker::Model;

/// The names of an inode in one directory, in their order ("INODE_REF" of the on-disk format): an iterator over the
/// directory's index of each name, and the name, which is a part of the item's bytes.
#[derive(Debug, Drop)]
pub struct Refs<'a> {
    rest: &'a [u8],
}

impl<'a> Model for Refs<'a> {
    ghost use Rattle.std.specs.Prelude.{◌≡◌, List, IsTrue};
    ghost use Rattle.std.specs.Option.{is_some};
    ghost use Rattle.blk_base.specs.Entries.{RefValue, all_entries, ref_from};
    ghost use Rattle.item_inode.specs.Names.{refs_in};

    ghost Value = { List RefValue };

    ghost view = { λ refs. refs_in refs.rest.now };

    ghost invariant = { λ refs. IsTrue (is_some (all_entries ref_from refs.rest.now)) };
}

impl<'a> Refs<'a> {
    /// The names in the item under a key, or the first check that the item fails, in the order Size (no bytes), Cut,
    /// NameLen. The name `..` is allowed under the key (256, 12, 256) alone. Takes any bytes.
    pub fn open(key: &Key, bytes: &'a [u8]) -> Result<Refs<'a>, ItemFault>
        ensures { result ≡ refs_of key.now bytes.now }
    {
        if bytes.is_empty() {
            return Err(ItemFault::Size);
        }
        if !is_whole(bytes) {
            return Err(ItemFault::Cut);
        }
        if !all_named(key, Refs { rest: bytes }) {
            return Err(ItemFault::NameLen);
        }
        Ok(Refs { rest: bytes })
    }
}

impl<'a> Iterator for Refs<'a> {
    type Item = (u64, &'a [u8]);

    ghost next_gives = { YieldsFirstBy ref_view (λ refs. refs) };

    ghost remaining = { item_count (λ refs. refs) };

    fn next(&mut self) -> Option<(u64, &'a [u8])> {
        let (index, name, behind) = first_ref(self.rest)?;
        self.rest = behind;
        Some((index, name))
    }
}

/// The index and the name of the entry at the front, and the bytes behind it, where the entry doesn't pass the end.
#[tactic(auto, unfolding(blk_base::specs::Entries::ref_from))]
fn first_ref<'a>(bytes: &'a [u8]) -> Option<(u64, &'a [u8], &'a [u8])>
    ensures { first_ref_view result ≡ ref_from bytes.now }
{
    if bytes.len() < 10 {
        return None;
    }
    let end = 10 + u16_at(bytes, 8) as usize;
    if bytes.len() < end {
        return None;
    }
    Some((u64_at(bytes, 0), &bytes[10..end], &bytes[end..]))
}

/// Whether the bytes are whole entries.
fn is_whole(bytes: &[u8]) -> bool
    ensures { result ≡ is_some (all_entries ref_from bytes.now) }
{
    let mut rest = bytes;
    while !rest.is_empty() {
        match first_ref(rest) {
            Some((_, _, behind)) => rest = behind,
            None => return false,
        }
    }
    true
}

/// Whether each name may stand under the key.
fn all_named(key: &Key, refs: Refs<'_>) -> bool
    ensures { result ≡ list_all (λ r. ref_name_test key.now r.name) refs.entry }
{
    for (_, name) in refs {
        if !is_ref_name(key, name) {
            return false;
        }
    }
    true
}

/// A name, or `..` in the root directory's item of itself.
fn is_ref_name(key: &Key, name: &[u8]) -> bool
    ensures { result ≡ ref_name_test key.now name.now }
{
    is_plain_name(name) || is_dots_place(key) && is_dots(name)
}

/// The key of the root directory's item of itself.
fn is_dots_place(key: &Key) -> bool
    ensures { result ≡ dots_place_test key.now }
{
    key.objectid == FIRST_FREE && key.kind == INODE_REF && key.offset == FIRST_FREE
}

/// The name `..`.
fn is_dots(name: &[u8]) -> bool
    ensures { result ≡ bytes_eq name.now dots }
{
    name == DOTS
}
