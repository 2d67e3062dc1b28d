ghost use Rattle.std.specs.Prelude.{◌≡◌, ◌==◌, ◌||◌, ◌&&◌, nat_lt, length, IsTrue};
ghost use Rattle.std.specs.Option.{is_some};
ghost use Rattle.std.specs.List.{list_all, list_any};
ghost use Rattle.std.specs.Str.{bytes_eq};
ghost use Rattle.std.specs.Iterator.{YieldsFirstBy, item_count};
ghost use Rattle.blk_base.specs.Keys.{dir_index};
ghost use Rattle.blk_base.specs.Name.{is_name as name_test};
ghost use Rattle.blk_base.specs.Entries.{all_entries, entries_of, entry_from, has_twice as twice_test, is_entry_kind};
ghost use Rattle.item_dir.specs.Entries.{entries_in};
ghost use Rattle.item_dir.specs.Entry.{entry_view};

use crate::entry::{Entry, first_entry};
use blk_base::format::{ATTR_ENTRY, DIR_ENTRY, DIR_INDEX, FILE_ENTRY, LINK_ENTRY, XATTR_ITEM};
use blk_base::{ItemFault, is_name};
use std::marker::Model;

/// The entries of an item, in their order ("DIR_ITEM", "DIR_INDEX" and "XATTR_ITEM" of the on-disk format): an
/// iterator over them.
#[derive(Debug, Drop)]
pub struct Entries<'a> {
    rest: &'a [u8],
}

impl<'a> Model for Entries<'a> {
    ghost use Rattle.std.specs.Prelude.{List, IsTrue};
    ghost use Rattle.std.specs.Option.{is_some};
    ghost use Rattle.blk_base.specs.Entries.{EntryValue, all_entries, entry_from};
    ghost use Rattle.item_dir.specs.Entries.{entries_in};

    ghost Value = { List EntryValue };

    ghost view = { λ entries. entries_in entries.rest.now };

    ghost invariant = { λ entries. IsTrue (is_some (all_entries entry_from entries.rest.now)) };
}

impl<'a> Entries<'a> {
    /// The entries of an item whose key has this type (84, 96 or 24), or the first check that the item fails, in the
    /// order Size (no bytes), Cut, NameLen, Kind (a type that the item can't have, or data where none belong), Twice
    /// (a name twice, or a second entry in a DIR_INDEX). Takes any bytes.
    pub fn open(kind: u8, bytes: &'a [u8]) -> Result<Entries<'a>, ItemFault>
        ensures { result ≡ entries_of kind bytes.now }
    {
        if bytes.is_empty() {
            return Err(ItemFault::Size);
        }
        if !is_whole(bytes) {
            return Err(ItemFault::Cut);
        }
        if !all_named(Entries { rest: bytes }) {
            return Err(ItemFault::NameLen);
        }
        if !all_of_kind(kind, Entries { rest: bytes }) {
            return Err(ItemFault::Kind);
        }
        if has_too_many(kind, bytes) {
            return Err(ItemFault::Twice);
        }
        Ok(Entries { rest: bytes })
    }
}

impl<'a> Iterator for Entries<'a> {
    type Item = Entry<'a>;

    ghost next_gives = { YieldsFirstBy entry_view (λ entries. entries) };

    ghost remaining = { item_count (λ entries. entries) };

    fn next(&mut self) -> Option<Entry<'a>> {
        let (entry, behind) = first_entry(self.rest)?;
        self.rest = behind;
        Some(entry)
    }
}

/// Whether the bytes are whole entries.
fn is_whole(bytes: &[u8]) -> bool
    ensures { result ≡ is_some (all_entries entry_from bytes.now) }
{
    let mut rest = bytes;
    while !rest.is_empty() {
        match first_entry(rest) {
            Some((_, behind)) => rest = behind,
            None => return false,
        }
    }
    true
}

/// Whether each name is one.
fn all_named(entries: Entries<'_>) -> bool
    ensures { result ≡ list_all (λ e. name_test e.name) entries.entry }
{
    for entry in entries {
        if !is_plain_name(entry.name) {
            return false;
        }
    }
    true
}

/// Whether each entry may stand in an item of this type.
fn all_of_kind(kind: u8, entries: Entries<'_>) -> bool
    ensures { result ≡ list_all (is_entry_kind kind) entries.entry }
{
    for entry in entries {
        if !is_of_kind(kind, &entry) {
            return false;
        }
    }
    true
}

/// Whether a name stands twice in bytes that are whole entries, or a second entry in a DIR_INDEX.
fn has_too_many(kind: u8, bytes: &[u8]) -> bool
    requires { IsTrue (is_some (all_entries entry_from bytes.now)) }
    ensures { result ≡ (twice_test (entries_in bytes.now) || ((kind == dir_index) && nat_lt 1 (length (entries_in bytes.now)))) }
{
    has_twice(bytes) || kind == DIR_INDEX && is_several(Entries { rest: bytes })
}

/// Whether a name stands twice in bytes that are whole entries.
fn has_twice(bytes: &[u8]) -> bool
    requires { IsTrue (is_some (all_entries entry_from bytes.now)) }
    ensures { result ≡ twice_test (entries_in bytes.now) }
{
    let mut rest = bytes;
    while let Some((entry, behind)) = first_entry(rest) {
        if has_name(entry.name, Entries { rest: behind }) {
            return true;
        }
        rest = behind;
    }
    false
}

/// Whether an entry has this name.
fn has_name(name: &[u8], entries: Entries<'_>) -> bool
    ensures { result ≡ list_any (λ other. bytes_eq other.name name.now) entries.entry }
{
    for other in entries {
        if other.name == name {
            return true;
        }
    }
    false
}

/// Whether there is a second entry.
fn is_several(mut entries: Entries<'_>) -> bool
    ensures { result ≡ nat_lt 1 (length entries.entry) }
{
    entries.next().is_some() && entries.next().is_some()
}

/// Whether an entry may stand in an item of this type: an attribute, or one of a directory without data.
fn is_of_kind(kind: u8, entry: &Entry<'_>) -> bool
    ensures { result ≡ is_entry_kind kind (entry_view entry.now) }
{
    if kind == XATTR_ITEM {
        return entry.kind == ATTR_ENTRY;
    }
    is_dir_kind(entry.kind) && entry.value.is_empty()
}

/// A file, a directory or a symlink.
fn is_dir_kind(kind: u8) -> bool
    ensures { result ≡ ((kind == FILE_ENTRY) || (kind == DIR_ENTRY) || (kind == LINK_ENTRY)) }
{
    kind == FILE_ENTRY || kind == DIR_ENTRY || kind == LINK_ENTRY
}

/// Whether the bytes may be the name of a file or an attribute.
#[tactic(auto, using(item_laws::specs::Names::is_name_same))]
fn is_plain_name(name: &[u8]) -> bool
    ensures { result ≡ name_test name.now }
{
    is_name(name)
}
