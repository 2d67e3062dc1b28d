//! The attributes of an inode.
ghost use Rattle.std.specs.Prelude.{◌≡◌, ◌<◌, ◌≤◌, ◌^◌, ◌++◌, ◌∷◌, [], IsSome, Some, length, nat_lt, sum_by, take};
ghost use Rattle.std.specs.FinMap.{get, insert, remove};
ghost use Rattle.std.specs.List.{flat_map};
ghost use Rattle.blk_base.specs.Crc.{name_hash_of};
ghost use Rattle.blk_base.specs.Entries.{entry_bytes};
ghost use Rattle.blk_base.specs.Keys.{xattr_item};
ghost use Rattle.block_table.specs.Table.{free_blocks};
ghost use Rattle.tree_range.specs.Between.{data_under, data_view};
ghost use Rattle.tree_range.specs.Shape.{IsTree, tree_items, tree_reach};
ghost use Rattle.tree_frame.specs.Frame.{AreCurrent};
ghost use Rattle.flat_model.specs.Lengths.{most_item_bytes, xattr_item_length};
ghost use Rattle.flat_model.specs.Operations.{with_record};
ghost use Rattle.flat_model.specs.Records.{InodeRecord, attributes_of, with_attributes};
ghost use Rattle.flat_model.specs.Volume.{Subvolume};
ghost use Rattle.volume_image.specs.Subvolume.{make_key};
ghost use Rattle.table_volume.specs.Edited.{Makes};
ghost use Rattle.table_volume.specs.Gives.{GivesSubvolume, sub_reach};
ghost use Rattle.item_edit.specs.ItemEdit.{IsItemEdit};
ghost use Rattle.attribute_items.specs.Found.{entries_there, entry_size, item_of, others, value_of, written_entry};
ghost use Rattle.attribute_items.specs.Given.{entries_at, size_with};

use crate::entries::{put_attribute, put_others, size_without, value_in};
use blk_base::format::{MOST_ITEM_BYTES, XATTR_ITEM};
use blk_base::limits::MOST_VALUE_BYTES;
use blk_base::{Ino, Key, Name, Text, name_hash};
use block_table::{BlockTable, SubState, Tree};
use item_edit::{remove_item, write_item};

/// The key of the item of an inode's attributes whose names have the hash of this one ("XATTR_ITEM").
fn attribute_key(ino: Ino, name: &[u8]) -> Key
    ensures { result ≡ make_key ino.0 xattr_item (name_hash_of name.now) }
{
    Key {
        objectid: ino.0,
        kind: XATTR_ITEM,
        offset: name_hash(name) as u64,
    }
}

/// The value of an inode's attribute, where it has it ("XATTR_ITEM" of the on-disk format). It is a part of a block.
pub fn get_attribute<'t>(
    table: &'t BlockTable,
    sub: &SubState,
    ino: Ino,
    name: &Name,
) -> Option<&'t [u8]>
    requires { IsTree table.now sub.now.tree }
    ensures value { (given : Subvolume) (inode : InodeRecord) → GivesSubvolume table.now sub.now.tree given → get given.inodes ino.0 ≡ Some inode
        → data_view result ≡ get (attributes_of inode) name.now }
    ensures entry { data_view result ≡ value_of name.now (entries_at table.now sub.now.tree ino.0 name.now) }
{
    let name = name.as_bytes();
    match tree_range::get(table, &sub.tree, &attribute_key(ino, name)) {
        Some(bytes) => value_in(bytes, name),
        None => None,
    }
}

/// The bytes of the entries beside that of a name in the item under a key.
fn size_beside(table: &BlockTable, tree: &Tree, key: &Key, name: &[u8]) -> usize
    requires { IsTree table.now tree.now }
    ensures value { result ≡ sum_by entry_size (others name.now (entries_there (data_under key.now (tree_items table.now tree.now)))) }
    ensures short { result ≤ MOST_ITEM_BYTES }
{
    match tree_range::get(table, tree, key) {
        Some(bytes) => size_without(bytes, name),
        None => 0,
    }
}

/// Writes the entries beside that of a name in the item under a key, and tells how many bytes they take.
fn put_beside(table: &BlockTable, tree: &Tree, key: &Key, name: &[u8], into: &mut [u8]) -> usize
    requires tree { IsTree table.now tree.now }
    requires room { sum_by entry_size (others name.now (entries_there (data_under key.now (tree_items table.now tree.now)))) ≤ length into.old }
    ensures end { result ≡ sum_by entry_size (others name.now (entries_there (data_under key.now (tree_items table.now tree.now)))) }
    ensures bytes { take result into.new ≡ flat_map entry_bytes (others name.now (entries_there (data_under key.now (tree_items table.now tree.now)))) }
{
    match tree_range::get(table, tree, key) {
        Some(bytes) => put_others(bytes, name, into),
        None => 0,
    }
}

/// Whether the item of an inode's attribute would have more bytes than a leaf holds, once the attribute had a value of so
/// many bytes, at most 1024 ("XATTR_ITEM" of the on-disk format).
pub fn is_crowded(table: &BlockTable, sub: &SubState, ino: Ino, name: &Name, value: &Text) -> bool
    requires tree { IsTree table.now sub.now.tree }
    requires short { length value.now ≤ MOST_VALUE_BYTES }
    ensures size { result ≡ nat_lt MOST_ITEM_BYTES (size_with table.now sub.now.tree ino.0 name.now value.now) }
    ensures crowded { (given : Subvolume) (inode : InodeRecord) → GivesSubvolume table.now sub.now.tree given → get given.inodes ino.0 ≡ Some inode
        → result ≡ nat_lt most_item_bytes (xattr_item_length (insert (attributes_of inode) name.now value.now) (name_hash_of name.now)) }
{
    let bytes = name.as_bytes();
    let beside = size_beside(table, &sub.tree, &attribute_key(ino, bytes), bytes);
    MOST_ITEM_BYTES < beside.saturating_add(30 + bytes.len() + value.len())
}

/// The item of a tree's attributes under a key, with this value of an attribute in place of the one that it has.
fn put_value(table: &mut BlockTable, sub: &mut SubState, key: Key, name: &Name, value: &Text)
    requires tree { IsTree table.old sub.old.tree }
    requires current { AreCurrent table.old (tree_reach table.old sub.old.tree) }
    requires short { length value.now ≤ MOST_VALUE_BYTES }
    requires room { sum_by entry_size (others name.now (entries_there (data_under key (tree_items table.old sub.old.tree))) ++ written_entry sub.old.running name.now value.now ∷ []) ≤ MOST_ITEM_BYTES }
    requires spare { 17 ≤ table.old.spare }
    requires free { 17 ≤ free_blocks table.old }
    ensures edit { IsItemEdit table.old table.new sub.old.tree sub.new.tree key (item_of (others name.now (entries_there (data_under key (tree_items table.old sub.old.tree))) ++ written_entry sub.old.running name.now value.now ∷ [])) }
    ensures state { sub.new ≡ record sub.old { tree = sub.new.tree } }
    ensures range { sub.old.running < 2 ^ 64 }
{
    let mut bytes = [0; MOST_ITEM_BYTES];
    let kept = put_beside(table, &sub.tree, &key, name.as_bytes(), &mut bytes);
    let end = put_attribute(sub.running, name, value, &mut bytes, kept);
    write_item(table, &mut sub.tree, key, &bytes[..end]);
}

/// Gives an attribute of an inode a value of 1 to 1024 bytes, in place of the one that it has, where its item has the room
/// ("XATTR_ITEM" of the on-disk format). It takes 17 blocks and buffers at most.
pub fn set_attribute(
    table: &mut BlockTable,
    sub: &mut SubState,
    ino: Ino,
    name: &Name,
    value: &Text,
)
    requires tree { IsTree table.old sub.old.tree }
    requires room { size_with table.old sub.old.tree ino.0 name.now value.now ≤ MOST_ITEM_BYTES }
    requires current { AreCurrent table.old (sub_reach table.old sub.old.tree) }
    requires short { length value.now ≤ MOST_VALUE_BYTES }
    requires spare { 17 ≤ table.old.spare }
    requires free { 17 ≤ free_blocks table.old }
    ensures made { (given : Subvolume) (inode : InodeRecord) → GivesSubvolume table.old sub.old.tree given → get given.inodes ino.0 ≡ Some inode
        → Makes table.old table.new sub.old sub.new 17 (with_record given ino.0 (with_attributes inode (insert (attributes_of inode) name.now value.now))) }
    ensures state { sub.new ≡ record sub.old { tree = sub.new.tree } }
{
    let key = attribute_key(ino, name.as_bytes());
    put_value(table, sub, key, name, value);
}

/// The item of a tree's attributes under a key without one of them; an item without another entry goes.
fn drop_value(table: &mut BlockTable, sub: &mut SubState, key: Key, name: &Name)
    requires tree { IsTree table.old sub.old.tree }
    requires current { AreCurrent table.old (tree_reach table.old sub.old.tree) }
    requires present { IsSome (data_under key (tree_items table.old sub.old.tree)) }
    requires spare { 17 ≤ table.old.spare }
    requires free { 17 ≤ free_blocks table.old }
    ensures edit { IsItemEdit table.old table.new sub.old.tree sub.new.tree key (item_of (others name.now (entries_there (data_under key (tree_items table.old sub.old.tree))))) }
    ensures state { sub.new ≡ record sub.old { tree = sub.new.tree } }
{
    if size_beside(table, &sub.tree, &key, name.as_bytes()) == 0 {
        remove_item(table, &mut sub.tree, key);
        return;
    }
    let mut bytes = [0; MOST_ITEM_BYTES];
    let end = put_beside(table, &sub.tree, &key, name.as_bytes(), &mut bytes);
    write_item(table, &mut sub.tree, key, &bytes[..end]);
}

/// Takes an attribute of an inode away, which has it; an item without another entry goes with it ("XATTR_ITEM" of the
/// on-disk format). It takes 17 blocks and buffers at most.
pub fn remove_attribute(table: &mut BlockTable, sub: &mut SubState, ino: Ino, name: &Name)
    requires tree { IsTree table.old sub.old.tree }
    requires there { IsSome (value_of name.now (entries_at table.old sub.old.tree ino.0 name.now)) }
    requires current { AreCurrent table.old (sub_reach table.old sub.old.tree) }
    requires spare { 17 ≤ table.old.spare }
    requires free { 17 ≤ free_blocks table.old }
    ensures made { (given : Subvolume) (inode : InodeRecord) → GivesSubvolume table.old sub.old.tree given → get given.inodes ino.0 ≡ Some inode
        → Makes table.old table.new sub.old sub.new 17 (with_record given ino.0 (with_attributes inode (remove (attributes_of inode) name.now))) }
    ensures state { sub.new ≡ record sub.old { tree = sub.new.tree } }
{
    let key = attribute_key(ino, name.as_bytes());
    drop_value(table, sub, key, name);
}
