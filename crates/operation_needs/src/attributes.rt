//! The items of an inode's attributes.
ghost use Rattle.std.specs.Prelude.{◌≡◌, ◌≤◌, ◌^◌, length, not};
ghost use Rattle.std.specs.FinMap.{get};
ghost use Rattle.std.specs.List.{list_any};
ghost use Rattle.std.specs.Str.{bytes_eq};
ghost use Rattle.blk_base.specs.Crc.{name_hash_of};
ghost use Rattle.blk_base.specs.Entries.{entries_of};
ghost use Rattle.blk_base.specs.Keys.{xattr_item};
ghost use Rattle.flat_model.specs.Needs.{items_with};
ghost use Rattle.flat_model.specs.Operations.{attributes_there};
ghost use Rattle.flat_model.specs.Volume.{Subvolume};
ghost use Rattle.tree_range.specs.Shape.{IsTree, tree_items};
ghost use Rattle.volume_image.specs.Subvolume.{make_key};
ghost use Rattle.attribute_items.specs.Found.{entries_read};
ghost use Rattle.name_walk.specs.Given.{GivesCoherent};
ghost use Rattle.operation_needs.specs.Items.{attribute_items_there, attributes_between};

use blk_base::format::XATTR_ITEM;
use blk_base::{Ino, Key, Name, name_hash};
use block_table::{BlockTable, Tree};
use item_dir::Entries;
use tree_range::{Range, get, range};

/// The key of the item of an inode's attributes whose names have a hash ("XATTR_ITEM").
fn attribute_key(ino: Ino, hash: u32) -> Key
    ensures { result ≡ make_key ino.0 xattr_item hash }
{
    Key {
        objectid: ino.0,
        kind: XATTR_ITEM,
        offset: u64::from(hash),
    }
}

/// The items of an inode's attributes, by rising hashes.
fn attributes_of<'t>(table: &'t BlockTable, tree: &Tree, ino: Ino) -> Range<'t>
    requires { IsTree table.now tree.now }
    ensures { result ≡ attributes_between (tree_items table.now tree.now) ino.0 }
{
    let first = attribute_key(ino, 0);
    let last = attribute_key(ino, u32::MAX);
    range(table, tree, &first, &last)
}

/// How many items these are.
fn count_of(items: Range<'_>) -> u64
    requires { length items ≤ 2 ^ 32 }
    ensures { result ≡ length items.entry }
{
    let mut count = 0;
    for _item in items {
        count += 1;
    }
    count
}

/// How many items an inode's attributes have, one for each hash, and 0 where the inode isn't there ("XATTR_ITEM").
pub(crate) fn attribute_count(table: &BlockTable, tree: &Tree, ino: Ino) -> u64
    requires { (sub : Subvolume) × GivesCoherent table.now tree.now sub }
    ensures count { (sub : Subvolume) → GivesCoherent table.now tree.now sub → result ≡ attribute_items_there (get sub.inodes ino.0) }
    ensures few { result ≤ 2 ^ 32 }
{
    count_of(attributes_of(table, tree, ino))
}

/// Whether one of the entries has another name.
fn is_other_among(entries: Entries<'_>, name: &[u8]) -> bool
    ensures { result ≡ list_any (λ entry. not (bytes_eq entry.name name.now)) entries.entry }
{
    for entry in entries {
        if entry.name != name {
            return true;
        }
    }
    false
}

/// Whether an item has an attribute with another name.
fn has_other(bytes: &[u8], name: &[u8]) -> bool
    ensures { result ≡ list_any (λ entry. not (bytes_eq entry.name name.now)) (entries_read (entries_of xattr_item bytes.now)) }
{
    match Entries::open(XATTR_ITEM, bytes) {
        Ok(entries) => is_other_among(entries, name),
        Err(_) => false,
    }
}

/// How many items go with an attribute of an inode: none where another has the same hash, else 1, also where the inode hasn't
/// the attribute ("XATTR_ITEM").
pub(crate) fn items_with(table: &BlockTable, tree: &Tree, ino: Ino, name: &Name) -> u64
    requires { IsTree table.now tree.now }
    ensures count { (sub : Subvolume) → GivesCoherent table.now tree.now sub
        → result ≡ items_with (attributes_there (get sub.inodes ino.0)) name.now }
    ensures few { result ≤ 1 }
{
    let name = name.as_bytes();
    let key = attribute_key(ino, name_hash(name));
    match get(table, tree, &key) {
        Some(bytes) => { if has_other(bytes, name) { 0 } else { 1 } }
        None => 1,
    }
}
