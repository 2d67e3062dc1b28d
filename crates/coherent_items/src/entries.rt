//! The entries of one item.
ghost use Rattle.std.specs.Prelude.{◌≡◌, ◌&&◌};
ghost use Rattle.std.specs.List.{list_all};
ghost use Rattle.blk_base.specs.Entries.{entries_of};
ghost use Rattle.blk_base.specs.Keys.{dir_index, dir_item, xattr_item};
ghost use Rattle.image_faults.specs.Said.{read_list};
ghost use Rattle.inode_lines.specs.Kinds.{said_kind};
ghost use Rattle.item_dir.specs.Entry.{entry_view};
ghost use Rattle.tree_range.specs.Shape.{IsTree, tree_items};
ghost use Rattle.volume_image.specs.Subvolume.{Data};
ghost use Rattle.coherent_items.specs.Entries.{is_index_number, is_right_hashed, is_right_indexed, is_right_type, is_right_value};

use blk_base::format::{DIR_ENTRY, DIR_INDEX, DIR_ITEM, FILE_ENTRY, LINK_ENTRY, XATTR_ITEM};
use blk_base::limits::GREATEST_NUMBER;
use blk_base::{Ino, Key};
use block_table::{BlockTable, Tree};
use coherent_slots::Slots;
use flat_model::Kind;
use inode_lines::kind_at;
use item_dir::{Entries, Entry};

/// Whether this is the type of an entry that leads to an inode of a kind; of one that isn't there it may be any.
fn is_type_of(kind: Option<Kind>, entry: u8) -> bool
    ensures { result ≡ is_right_type kind entry }
{
    match kind {
        Some(Kind::File) => entry == FILE_ENTRY,
        Some(Kind::Dir) => entry == DIR_ENTRY,
        Some(Kind::Link) => entry == LINK_ENTRY,
        None => true,
    }
}

/// Whether an entry has the type of the inode that it leads to.
fn has_right_type(table: &BlockTable, tree: &Tree, entry: &Entry<'_>) -> bool
    requires { IsTree table.now tree.now }
    ensures { (blocks : Data) → result ≡ is_right_type (said_kind (tree_items table.now tree.now) blocks entry.now.target.objectid) entry.now.kind }
{
    is_type_of(kind_at(table, tree, Ino(entry.target.objectid)), entry.kind)
}

/// Whether a number is one that an index may be: 2 to 2^62 + 1 (own).
fn is_index_number(index: u64) -> bool
    ensures { result ≡ is_index_number index }
{
    2 <= index && index <= GREATEST_NUMBER
}

/// Whether an entry at an index of a directory has the type of its inode, and its name is right and at this index.
fn is_right_indexed<'t>(
    table: &'t BlockTable,
    tree: &Tree,
    slots: &Slots<'t>,
    key: &Key,
    entry: &Entry<'t>,
) -> bool
    requires { IsTree table.now tree.now }
    ensures { (blocks : Data) → result ≡ is_right_indexed (said_kind (tree_items table.now tree.now) blocks) slots.now key.now.objectid key.now.offset (entry_view entry.now) }
{
    has_right_type(table, tree, entry)
        && slots.index(Ino(key.objectid), entry.name) == Some(key.offset)
}

/// Whether an entry of a directory has the type of its inode, and a right name is in its slot.
fn is_right_hashed<'t>(
    table: &'t BlockTable,
    tree: &Tree,
    slots: &Slots<'t>,
    dir: Ino,
    entry: &Entry<'t>,
) -> bool
    requires { IsTree table.now tree.now }
    ensures { (blocks : Data) → result ≡ is_right_hashed (said_kind (tree_items table.now tree.now) blocks) slots.now dir.0 (entry_view entry.now) }
{
    has_right_type(table, tree, entry) && slots.index(dir, entry.name).is_some()
}

/// Whether each entry at an index of a directory is right.
fn all_indexed<'t>(
    table: &'t BlockTable,
    tree: &Tree,
    slots: &Slots<'t>,
    key: &Key,
    entries: Entries<'t>,
) -> bool
    requires { IsTree table.now tree.now }
    ensures { (blocks : Data) → result ≡ list_all (is_right_indexed (said_kind (tree_items table.now tree.now) blocks) slots.now key.now.objectid key.now.offset) entries.entry }
{
    for entry in entries {
        if !is_right_indexed(table, tree, slots, key, &entry) {
            return false;
        }
    }
    true
}

/// Whether each entry of a directory's item is right.
fn all_hashed<'t>(
    table: &'t BlockTable,
    tree: &Tree,
    slots: &Slots<'t>,
    dir: Ino,
    entries: Entries<'t>,
) -> bool
    requires { IsTree table.now tree.now }
    ensures { (blocks : Data) → result ≡ list_all (is_right_hashed (said_kind (tree_items table.now tree.now) blocks) slots.now dir.0) entries.entry }
{
    for entry in entries {
        if !is_right_hashed(table, tree, slots, dir, &entry) {
            return false;
        }
    }
    true
}

/// Whether the index of a DIR_INDEX item is one that an index may be, and its entry has the type of its inode, and its name
/// is right and at this index ("DIR_INDEX" of the Btrfs on-disk format).
pub fn is_right_index_item<'t>(
    table: &'t BlockTable,
    tree: &Tree,
    slots: &Slots<'t>,
    key: &Key,
    bytes: &'t [u8],
) -> bool
    requires { IsTree table.now tree.now }
    ensures { (blocks : Data) → result ≡ (is_index_number key.now.offset && list_all (is_right_indexed (said_kind (tree_items table.now tree.now) blocks) slots.now key.now.objectid key.now.offset) (read_list (entries_of dir_index bytes.now))) }
{
    if !is_index_number(key.offset) {
        return false;
    }
    match Entries::open(DIR_INDEX, bytes) {
        Ok(entries) => all_indexed(table, tree, slots, key, entries),
        Err(_) => true,
    }
}

/// Whether each entry of a DIR_ITEM item has the type of its inode, and a right name is in its slot ("DIR_ITEM" of the
/// Btrfs on-disk format).
pub fn are_right_entries<'t>(
    table: &'t BlockTable,
    tree: &Tree,
    slots: &Slots<'t>,
    key: &Key,
    bytes: &'t [u8],
) -> bool
    requires { IsTree table.now tree.now }
    ensures { (blocks : Data) → result ≡ list_all (is_right_hashed (said_kind (tree_items table.now tree.now) blocks) slots.now key.now.objectid) (read_list (entries_of dir_item bytes.now)) }
{
    match Entries::open(DIR_ITEM, bytes) {
        Ok(entries) => all_hashed(table, tree, slots, Ino(key.objectid), entries),
        Err(_) => true,
    }
}

/// Whether the values of attributes have 1 to 1024 bytes.
fn all_values(entries: Entries<'_>) -> bool
    ensures { result ≡ list_all is_right_value entries.entry }
{
    for entry in entries {
        if entry.value.is_empty() || entry.value.len() > 1024 {
            return false;
        }
    }
    true
}

/// Whether the values of an item of attributes have 1 to 1024 bytes ("XATTR_ITEM" of the Btrfs on-disk format; own limits).
pub fn are_right_attributes(bytes: &[u8]) -> bool
    ensures { result ≡ list_all is_right_value (read_list (entries_of xattr_item bytes.now)) }
{
    match Entries::open(XATTR_ITEM, bytes) {
        Ok(entries) => all_values(entries),
        Err(_) => true,
    }
}
