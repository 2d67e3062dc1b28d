ghost use Rattle.std.specs.Prelude.{◌≡◌, ◌↔◌, IsTrue};
ghost use Rattle.std.specs.List.{list_any};
ghost use Rattle.std.specs.Str.{bytes_eq};
ghost use Rattle.blk_base.specs.Entries.{dots, refs_of};
ghost use Rattle.blk_base.specs.Keys.{inode_item};
ghost use Rattle.flat_model.specs.Coherent.{IsInoNumber};
ghost use Rattle.image_faults.specs.Faulty.{HasOwnRef, HasRightKey};
ghost use Rattle.image_faults.specs.Said.{read_list, said_sub};
ghost use Rattle.inode_lines.specs.Kinds.{is_dots_ref};
ghost use Rattle.tree_range.specs.Shape.{IsTree, tree_items};
ghost use Rattle.volume_image.specs.Subvolume.{Data, HasKey, make_key};

use crate::kinds::{is_item_for, kind_at};
use blk_base::format::{DOTS, FIRST_FREE, INODE_ITEM, INODE_REF};
use blk_base::limits::GREATEST_NUMBER;
use blk_base::{Ino, Key};
use block_table::{BlockTable, Tree};
use item_inode::Refs;
use item_keys::{has_its_key, is_subvolume_kind};
use tree_range::get;

/// Whether a number is one that an inode may have: 256 to 2^62 + 1 (own).
pub fn is_ino_number(ino: Ino) -> bool
    ensures { IsTrue result ↔ IsInoNumber ino.0 }
{
    FIRST_FREE <= ino.0 && ino.0 <= GREATEST_NUMBER
}

/// Whether a tree has an item under the key of an inode's item ("INODE_ITEM" of the Btrfs on-disk format).
pub fn has_inode_item(table: &BlockTable, tree: &Tree, ino: Ino) -> bool
    requires { IsTree table.now tree.now }
    ensures { IsTrue result ↔ HasKey (tree_items table.now tree.now) (make_key ino.0 inode_item 0) }
{
    let key = Key {
        objectid: ino.0,
        kind: INODE_ITEM,
        offset: 0,
    };
    get(table, tree, &key).is_some()
}

/// Whether a name is `..`.
fn is_dots(name: &[u8]) -> bool
    ensures { result ≡ bytes_eq name.now dots }
{
    name == DOTS
}

/// Whether the root directory's name for itself is among these.
fn any_dots(refs: Refs<'_>) -> bool
    ensures { result ≡ list_any is_dots_ref refs.entry }
{
    for (index, name) in refs {
        if index == 0 && is_dots(name) {
            return true;
        }
    }
    false
}

/// Whether an item of names has the root directory's name for itself.
fn has_dots(key: &Key, bytes: &[u8]) -> bool
    ensures { result ≡ list_any is_dots_ref (read_list (refs_of key.now bytes.now)) }
{
    match Refs::open(key, bytes) {
        Ok(refs) => any_dots(refs),
        Err(_) => false,
    }
}

/// Whether a tree has the root directory's name for itself, `..` at index 0 ("INODE_REF" of the Btrfs on-disk format).
pub fn has_own_ref(table: &BlockTable, tree: &Tree) -> bool
    requires { IsTree table.now tree.now }
    ensures { IsTrue result ↔ HasOwnRef (tree_items table.now tree.now) }
{
    let key = Key {
        objectid: FIRST_FREE,
        kind: INODE_REF,
        offset: FIRST_FREE,
    };
    match get(table, tree, &key) {
        Some(bytes) => has_dots(&key, bytes),
        None => false,
    }
}

/// Whether the key of a tree's item is one that the format gives in a subvolume, for its content and for the kind of its
/// inode ("Item Types" of the Btrfs on-disk format).
pub fn has_right_key(table: &BlockTable, tree: &Tree, key: &Key, bytes: &[u8]) -> bool
    requires { IsTree table.now tree.now }
    ensures { (blocks : Data) → (IsTrue result ↔ HasRightKey (said_sub (tree_items table.now tree.now) blocks) key.now bytes.now) }
{
    is_subvolume_kind(key.kind)
        && has_its_key(key, bytes)
        && is_item_for(kind_at(table, tree, Ino(key.objectid)), key, bytes)
}
