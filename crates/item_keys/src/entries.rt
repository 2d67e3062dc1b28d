//! The entries of an item, one by one.
ghost use Rattle.std.specs.Prelude.{◌≡◌, ◌↔◌, IsTrue};
ghost use Rattle.std.specs.List.{list_all};
ghost use Rattle.item_dir.specs.Entry.{entry_view};
ghost use Rattle.item_keys.specs.Fits.{AreAttributesAt, AreEntriesAt, AreExtRefsAt, IsEntryAtIndex, is_attribute_at, is_entry_at, is_extref_at, leads_nowhere, leads_to_inode};

use blk_base::format::{DIR_INDEX, DIR_ITEM, INODE_ITEM, XATTR_ITEM};
use blk_base::{extref_hash, name_hash};
use item_dir::{Entries, Entry};
use item_inode::ExtRefs;

/// Whether an entry leads to the item of an inode.
fn leads_to_inode(entry: &Entry<'_>) -> bool
    ensures { result ≡ leads_to_inode (entry_view entry.now) }
{
    entry.target.kind == INODE_ITEM && entry.target.offset == 0
}

/// Whether an entry leads nowhere.
fn leads_nowhere(entry: &Entry<'_>) -> bool
    ensures { result ≡ leads_nowhere (entry_view entry.now) }
{
    entry.target.objectid == 0 && entry.target.kind == 0 && entry.target.offset == 0
}

/// Whether an entry is that of a name of this hash in a directory.
fn is_entry_at(hash: u64, entry: &Entry<'_>) -> bool
    ensures { result ≡ is_entry_at hash (entry_view entry.now) }
{
    u64::from(name_hash(entry.name)) == hash && leads_to_inode(entry)
}

/// Whether an entry is that of an attribute of this hash.
fn is_attribute_at(hash: u64, entry: &Entry<'_>) -> bool
    ensures { result ≡ is_attribute_at hash (entry_view entry.now) }
{
    u64::from(name_hash(entry.name)) == hash && leads_nowhere(entry)
}

/// Whether each far name has this hash.
fn all_extrefs_at(hash: u64, refs: ExtRefs<'_>) -> bool
    ensures { result ≡ list_all (is_extref_at hash) refs.entry }
{
    for (parent, _, name) in refs {
        if u64::from(extref_hash(parent, name)) != hash {
            return false;
        }
    }
    true
}

/// Whether each entry is that of a name of this hash in a directory.
fn all_entries_at(hash: u64, entries: Entries<'_>) -> bool
    ensures { result ≡ list_all (is_entry_at hash) entries.entry }
{
    for entry in entries {
        if !is_entry_at(hash, &entry) {
            return false;
        }
    }
    true
}

/// Whether each entry leads to the item of an inode.
fn all_lead(entries: Entries<'_>) -> bool
    ensures { result ≡ list_all leads_to_inode entries.entry }
{
    for entry in entries {
        if !leads_to_inode(&entry) {
            return false;
        }
    }
    true
}

/// Whether each entry is that of an attribute of this hash.
fn all_attributes_at(hash: u64, entries: Entries<'_>) -> bool
    ensures { result ≡ list_all (is_attribute_at hash) entries.entry }
{
    for entry in entries {
        if !is_attribute_at(hash, &entry) {
            return false;
        }
    }
    true
}

/// Whether the far names of an item have this hash.
pub(crate) fn are_extrefs_at(hash: u64, bytes: &[u8]) -> bool
    ensures { IsTrue result ↔ AreExtRefsAt hash bytes.now }
{
    match ExtRefs::open(bytes) {
        Ok(refs) => all_extrefs_at(hash, refs),
        Err(_) => true,
    }
}

/// Whether the names in a directory of an item have this hash, and lead to inodes.
pub(crate) fn are_entries_at(hash: u64, bytes: &[u8]) -> bool
    ensures { IsTrue result ↔ AreEntriesAt hash bytes.now }
{
    match Entries::open(DIR_ITEM, bytes) {
        Ok(entries) => all_entries_at(hash, entries),
        Err(_) => true,
    }
}

/// Whether the name at an index of a directory leads to an inode.
pub(crate) fn is_entry_at_index(bytes: &[u8]) -> bool
    ensures { IsTrue result ↔ IsEntryAtIndex bytes.now }
{
    match Entries::open(DIR_INDEX, bytes) {
        Ok(entries) => all_lead(entries),
        Err(_) => true,
    }
}

/// Whether the attributes of an item have this hash, and lead nowhere.
pub(crate) fn are_attributes_at(hash: u64, bytes: &[u8]) -> bool
    ensures { IsTrue result ↔ AreAttributesAt hash bytes.now }
{
    match Entries::open(XATTR_ITEM, bytes) {
        Ok(entries) => all_attributes_at(hash, entries),
        Err(_) => true,
    }
}
