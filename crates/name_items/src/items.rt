//! The entries of a name put into the items of its inode and of its directory.
ghost use Rattle.std.specs.Prelude.{◌≡◌, ◌≤◌, ◌<◌, ◌+◌, ◌^◌, ◌++◌, Some, length};
ghost use Rattle.blk_base.specs.Name.{IsName};
ghost use Rattle.blk_base.specs.Entries.{entry_bytes, extref_bytes, ref_bytes};
ghost use Rattle.block_table.specs.Table.{free_blocks};
ghost use Rattle.tree_range.specs.Shape.{IsTree, tree_items, tree_reach};
ghost use Rattle.tree_frame.specs.Frame.{AreCurrent};
ghost use Rattle.item_edit.specs.ItemEdit.{IsItemEdit, bytes_under};
ghost use Rattle.name_items.specs.Names.{hashed_key as key_hashed, indexed_key as key_indexed, name_of, ref_entry, ref_key as key_of_ref};
ghost use Rattle.name_items.specs.Edits.{AddsEntries, IsKindOfEntry, made_entry};

use crate::entry::NameEntry;
use blk_base::format::{DIR_INDEX, DIR_ITEM, INODE_EXTREF, INODE_ITEM, INODE_REF};
use blk_base::{Key, extref_hash, name_hash};
use block_table::{BlockTable, Tree};
use item_dir::{Entry, put_entry};
use item_edit::{append_bytes, write_item};
use item_inode::{put_extref, put_ref};

/// The key of the item of a name's inode that has its entry ("INODE_REF" and "INODE_EXTREF" of the on-disk format).
pub(crate) fn ref_key(name: &NameEntry<'_>) -> Key
    ensures { result ≡ key_of_ref (name_of name.now) }
{
    if name.near {
        Key {
            objectid: name.ino.0,
            kind: INODE_REF,
            offset: name.dir.0,
        }
    } else {
        Key {
            objectid: name.ino.0,
            kind: INODE_EXTREF,
            offset: extref_hash(name.dir, name.bytes) as u64,
        }
    }
}

/// The key of the item of a name's directory that has its entry by its hash ("DIR_ITEM" of the on-disk format).
pub(crate) fn hashed_key(name: &NameEntry<'_>) -> Key
    ensures { result ≡ key_hashed (name_of name.now) }
{
    Key {
        objectid: name.dir.0,
        kind: DIR_ITEM,
        offset: name_hash(name.bytes) as u64,
    }
}

/// The key of the item of a name's directory that has its entry by its index ("DIR_INDEX" of the on-disk format).
pub(crate) fn indexed_key(name: &NameEntry<'_>) -> Key
    ensures { result ≡ key_indexed (name_of name.now) }
{
    Key {
        objectid: name.dir.0,
        kind: DIR_INDEX,
        offset: name.index,
    }
}

/// Puts a near name behind those of its inode in its directory, by way of these bytes, 10 more than it has.
fn add_near(table: &mut BlockTable, tree: &mut Tree, name: &NameEntry<'_>, bytes: &mut [u8])
    requires tree { IsTree table.old tree.old }
    requires current { AreCurrent table.old (tree_reach table.old tree.old) }
    requires is_name { IsName name.now.bytes.now }
    requires room { length bytes.old ≡ 10 + length name.now.bytes.now }
    requires short { length (bytes_under (key_of_ref (name_of name.now)) (tree_items table.old tree.old)) + (10 + length name.now.bytes.now) ≤ 3970 }
    requires spare { 17 ≤ table.old.spare }
    requires free { 17 ≤ free_blocks table.old }
    ensures { IsItemEdit table.old table.new tree.old tree.new (key_of_ref (name_of name.now))
        (Some (bytes_under (key_of_ref (name_of name.now)) (tree_items table.old tree.old) ++ ref_bytes record { index = name.now.index; name = name.now.bytes.now })) }
{
    put_ref(name.index, name.bytes, bytes);
    append_bytes(table, tree, ref_key(name), bytes);
}

/// Puts a far name behind those of its inode with its hash, by way of these bytes, 18 more than it has.
fn add_far(table: &mut BlockTable, tree: &mut Tree, name: &NameEntry<'_>, bytes: &mut [u8])
    requires tree { IsTree table.old tree.old }
    requires current { AreCurrent table.old (tree_reach table.old tree.old) }
    requires is_name { IsName name.now.bytes.now }
    requires room { length bytes.old ≡ 18 + length name.now.bytes.now }
    requires short { length (bytes_under (key_of_ref (name_of name.now)) (tree_items table.old tree.old)) + (18 + length name.now.bytes.now) ≤ 3970 }
    requires spare { 17 ≤ table.old.spare }
    requires free { 17 ≤ free_blocks table.old }
    ensures { IsItemEdit table.old table.new tree.old tree.new (key_of_ref (name_of name.now))
        (Some (bytes_under (key_of_ref (name_of name.now)) (tree_items table.old tree.old) ++ extref_bytes record { parent = name.now.dir.0; index = name.now.index; name = name.now.bytes.now })) }
{
    put_extref(name.dir, name.index, name.bytes, bytes);
    append_bytes(table, tree, ref_key(name), bytes);
}

/// Puts a name behind those in the item of its inode.
pub(crate) fn add_ref(table: &mut BlockTable, tree: &mut Tree, name: &NameEntry<'_>)
    requires tree { IsTree table.old tree.old }
    requires current { AreCurrent table.old (tree_reach table.old tree.old) }
    requires is_name { IsName name.now.bytes.now }
    requires short { length (bytes_under (key_of_ref (name_of name.now)) (tree_items table.old tree.old)) + length (ref_entry (name_of name.now)) ≤ 3970 }
    requires spare { 17 ≤ table.old.spare }
    requires free { 17 ≤ free_blocks table.old }
    ensures { IsItemEdit table.old table.new tree.old tree.new (key_of_ref (name_of name.now))
        (Some (bytes_under (key_of_ref (name_of name.now)) (tree_items table.old tree.old) ++ ref_entry (name_of name.now))) }
{
    let mut bytes = [0; 273];
    if name.near {
        let end = 10 + name.bytes.len();
        add_near(table, tree, name, &mut bytes[..end]);
    } else {
        let end = 18 + name.bytes.len();
        add_far(table, tree, name, &mut bytes[..end]);
    }
}

/// Writes a name's entry, which has 30 bytes more than the name ("DIR_ITEM" of the on-disk format).
fn put_name_entry(name: &NameEntry<'_>, kind: u8, transid: u64, into: &mut [u8])
    requires is_name { IsName name.now.bytes.now }
    requires kind_is { IsKindOfEntry kind }
    requires room { length into.old ≡ 30 + length name.now.bytes.now }
    ensures { into.new ≡ entry_bytes (made_entry (name_of name.now) kind transid) }
{
    let entry = Entry {
        target: Key {
            objectid: name.ino.0,
            kind: INODE_ITEM,
            offset: 0,
        },
        transid,
        kind,
        name: name.bytes,
        value: &[],
    };
    put_entry(&entry, into);
}

/// Puts a name's entry into the items of its directory, by way of these bytes, 30 more than it has.
fn add_entries_by(
    table: &mut BlockTable,
    tree: &mut Tree,
    name: &NameEntry<'_>,
    kind: u8,
    transid: u64,
    bytes: &mut [u8],
)
    requires tree { IsTree table.old tree.old }
    requires current { AreCurrent table.old (tree_reach table.old tree.old) }
    requires is_name { IsName name.now.bytes.now }
    requires kind_is { IsKindOfEntry kind }
    requires room { length bytes.old ≡ 30 + length name.now.bytes.now }
    requires short { length (bytes_under (key_hashed (name_of name.now)) (tree_items table.old tree.old)) + (30 + length name.now.bytes.now) ≤ 3970 }
    requires spare { 34 ≤ table.old.spare }
    requires free { 34 ≤ free_blocks table.old }
    ensures { AddsEntries table.old table.new tree.old tree.new (name_of name.now) (entry_bytes (made_entry (name_of name.now) kind transid)) }
{
    put_name_entry(name, kind, transid, bytes);
    append_bytes(table, tree, hashed_key(name), bytes);
    write_item(table, tree, indexed_key(name), bytes);
}

/// Puts a name's entry, with its inode's kind and this transaction, into the items of its directory.
pub(crate) fn add_entries(
    table: &mut BlockTable,
    tree: &mut Tree,
    name: &NameEntry<'_>,
    kind: u8,
    transid: u64,
)
    requires tree { IsTree table.old tree.old }
    requires current { AreCurrent table.old (tree_reach table.old tree.old) }
    requires is_name { IsName name.now.bytes.now }
    requires kind_is { IsKindOfEntry kind }
    requires short { length (bytes_under (key_hashed (name_of name.now)) (tree_items table.old tree.old)) + (30 + length name.now.bytes.now) ≤ 3970 }
    requires spare { 34 ≤ table.old.spare }
    requires free { 34 ≤ free_blocks table.old }
    ensures edits { AddsEntries table.old table.new tree.old tree.new (name_of name.now) (entry_bytes (made_entry (name_of name.now) kind transid)) }
    ensures fits { transid < 2 ^ 64 }
{
    let mut bytes = [0; 285];
    let end = 30 + name.bytes.len();
    add_entries_by(table, tree, name, kind, transid, &mut bytes[..end]);
}
