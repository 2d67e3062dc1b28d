//! The names of an inode, and the entries of directories that lead to it.
ghost use Rattle.std.specs.Prelude.{◌≡◌, ◌↔◌, Bool, IsTrue};
ghost use Rattle.std.specs.List.{list_any};
ghost use Rattle.blk_base.specs.Entries.{entries_of};
ghost use Rattle.flat_model.specs.Volume.{is_dir_at as is_dir_in};
ghost use Rattle.image_faults.specs.Faulty.{IsRightRef};
ghost use Rattle.image_faults.specs.Said.{read_list, said_sub};
ghost use Rattle.inode_lines.specs.Refs.{HasEntry, is_named, name_of};
ghost use Rattle.item_dir.specs.Entry.{entry_view};
ghost use Rattle.tree_range.specs.Shape.{IsTree, tree_items};
ghost use Rattle.volume_image.specs.Subvolume.{Data};

use crate::kinds::kind_at;
use blk_base::format::{DIR_INDEX, DIR_ITEM};
use blk_base::{Ino, Key, name_hash};
use block_table::{BlockTable, Tree};
use flat_model::Kind;
use item_dir::{Entries, Entry};
use tree_range::get;

/// A name of an inode: the directory that has it, and its index there ("INODE_REF" of the Btrfs on-disk format).
#[derive(Clone, Copy, Debug, PartialEq, Eq)]
pub struct Ref<'a> {
    pub ino: Ino,
    pub dir: Ino,
    pub index: u64,
    pub name: &'a [u8],
}

/// Whether an entry has a name, and leads to an inode.
fn is_named(entry: &Entry<'_>, name: &[u8], ino: Ino) -> bool
    ensures { result ≡ is_named name.now ino.0 (entry_view entry.now) }
{
    entry.name == name && entry.target.objectid == ino.0
}

/// Whether one of the entries has a name, and leads to an inode.
fn any_named(entries: Entries<'_>, name: &[u8], ino: Ino) -> bool
    ensures { result ≡ list_any (is_named name.now ino.0) entries.entry }
{
    for entry in entries {
        if is_named(&entry, name, ino) {
            return true;
        }
    }
    false
}

/// Whether an item of entries of this type has one with a name that leads to an inode.
fn has_named(kind: u8, bytes: &[u8], name: &[u8], ino: Ino) -> bool
    ensures { result ≡ list_any (is_named name.now ino.0) (read_list (entries_of kind bytes.now)) }
{
    match Entries::open(kind, bytes) {
        Ok(entries) => any_named(entries, name, ino),
        Err(_) => false,
    }
}

/// Whether a tree has an entry under a key with a name that leads to an inode: the fellow of an entry, or of a ref
/// ("DIR_ITEM" and "DIR_INDEX" of the Btrfs on-disk format).
pub fn has_entry(table: &BlockTable, tree: &Tree, key: &Key, name: &[u8], ino: Ino) -> bool
    requires { IsTree table.now tree.now }
    ensures { IsTrue result ↔ HasEntry (tree_items table.now tree.now) key.now name.now ino.0 }
{
    match get(table, tree, key) {
        Some(bytes) => has_named(key.kind, bytes, name, ino),
        None => false,
    }
}

/// Whether an inode of a tree is a directory.
fn is_dir_at(table: &BlockTable, tree: &Tree, ino: Ino) -> bool
    requires { IsTree table.now tree.now }
    ensures { (blocks : Data) → result ≡ is_dir_in (said_sub (tree_items table.now tree.now) blocks) ino.0 }
{
    matches!(kind_at(table, tree, ino), Some(Kind::Dir))
}

/// Whether a ref has both of its directory entries, and its directory is one ("INODE_REF" and "INODE_EXTREF" of the Btrfs
/// on-disk format).
pub fn is_right_ref(table: &BlockTable, tree: &Tree, found: Ref<'_>) -> bool
    requires { IsTree table.now tree.now }
    ensures { (near : Bool) (blocks : Data) → (IsTrue result ↔ IsRightRef (tree_items table.now tree.now) (said_sub (tree_items table.now tree.now) blocks) (name_of found.entry near)) }
{
    let hashed = Key {
        objectid: found.dir.0,
        kind: DIR_ITEM,
        offset: u64::from(name_hash(found.name)),
    };
    let indexed = Key {
        objectid: found.dir.0,
        kind: DIR_INDEX,
        offset: found.index,
    };
    has_entry(table, tree, &hashed, found.name, found.ino)
        && has_entry(table, tree, &indexed, found.name, found.ino)
        && is_dir_at(table, tree, found.dir)
}
