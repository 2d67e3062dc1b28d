//! The kinds of inodes.
ghost use Rattle.std.specs.Prelude.{◌≡◌, Some};
ghost use Rattle.blk_base.specs.Extents.{extent_of};
ghost use Rattle.tree_range.specs.Shape.{IsTree, tree_items};
ghost use Rattle.volume_image.specs.Subvolume.{Data};
ghost use Rattle.inode_lines.specs.Kinds.{is_dir, is_extent_of, is_file, is_item_for, is_link, kind_by, kind_under, said_kind};

use blk_base::format::{DIR_INDEX, DIR_ITEM, DIR_MODE, EXTENT_DATA, FILE_MODE, INODE_ITEM};
use blk_base::{Ino, Key};
use block_table::{BlockTable, Tree};
use flat_model::Kind;
use item_extent::Extent;
use item_inode::InodeItem;
use tree_range::get;

/// The kind that a mode says.
fn kind_by(mode: u32) -> Kind
    ensures { result ≡ kind_by mode }
{
    if mode == FILE_MODE {
        return Kind::File;
    }
    if mode == DIR_MODE {
        return Kind::Dir;
    }
    Kind::Link
}

/// The kind that an inode item says, if it is one.
fn kind_in(bytes: &[u8]) -> Option<Kind>
    ensures { result ≡ kind_under (Some bytes.now) }
{
    match InodeItem::decode(bytes) {
        Ok(item) => Some(kind_by(item.mode)),
        Err(_) => None,
    }
}

/// The kind of an inode of a tree; `None` where the tree has no inode item of it ("INODE_ITEM" of the Btrfs on-disk
/// format).
pub fn kind_at(table: &BlockTable, tree: &Tree, ino: Ino) -> Option<Kind>
    requires { IsTree table.now tree.now }
    ensures { (blocks : Data) → result ≡ said_kind (tree_items table.now tree.now) blocks ino.0 }
{
    let key = Key {
        objectid: ino.0,
        kind: INODE_ITEM,
        offset: 0,
    };
    match get(table, tree, &key) {
        Some(bytes) => kind_in(bytes),
        None => None,
    }
}

/// Whether an inode of this kind is a directory.
fn is_dir(kind: Option<Kind>) -> bool
    ensures { result ≡ is_dir kind }
{
    matches!(kind, Some(Kind::Dir))
}

/// Whether an inode of this kind is a file.
fn is_file(kind: Option<Kind>) -> bool
    ensures { result ≡ is_file kind }
{
    matches!(kind, Some(Kind::File))
}

/// Whether an inode of this kind is a symlink.
fn is_link(kind: Option<Kind>) -> bool
    ensures { result ≡ is_link kind }
{
    matches!(kind, Some(Kind::Link))
}

/// Whether an inode of this kind may have an extent.
fn is_extent_of(kind: Option<Kind>, key: &Key, bytes: &[u8]) -> bool
    ensures { result ≡ is_extent_of kind (extent_of key.now bytes.now) }
{
    match Extent::open(key, bytes) {
        Ok(Extent::Regular { .. }) => is_file(kind),
        Ok(Extent::Inline(_)) => is_link(kind),
        Ok(Extent::Hole { .. }) | Err(_) => false,
    }
}

/// Whether an inode of this kind may have an item.
pub(crate) fn is_item_for(kind: Option<Kind>, key: &Key, bytes: &[u8]) -> bool
    ensures { result ≡ is_item_for kind key.now bytes.now }
{
    match key.kind {
        DIR_ITEM | DIR_INDEX => is_dir(kind),
        EXTENT_DATA => is_extent_of(kind, key, bytes),
        _ => true,
    }
}
