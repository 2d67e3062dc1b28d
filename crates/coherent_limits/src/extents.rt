//! Extents of files.
ghost use Rattle.std.specs.Prelude.{◌≡◌, ◌↔◌, ◌≤◌, ℕ, Some, Ok, IsTrue};
ghost use Rattle.item_extent.specs.View.{extent_view};
ghost use Rattle.blk_base.specs.Extents.{extent_of};
ghost use Rattle.flat_model.specs.Contents.{most_file_bytes};
ghost use Rattle.tree_range.specs.Shape.{IsTree, tree_items};
ghost use Rattle.tree_range.specs.Between.{data_under};
ghost use Rattle.volume_image.specs.Subvolume.{make_key};
ghost use Rattle.blk_base.specs.Keys.{inode_item};
ghost use Rattle.coherent_limits.specs.Limits.{KeepsExtentLimits, size_under};

use crate::runs::run_keeps_limits;
use blk_base::format::{BLOCK_SIZE, INODE_ITEM};
use blk_base::limits::MOST_FILE_BYTES;
use blk_base::{Ino, Key};
use block_table::{BlockTable, Tree};
use item_extent::Extent;
use item_inode::InodeItem;
use tree_range::get;

/// The size that an inode item says, if it is one.
fn size_in(bytes: &[u8]) -> Option<u64>
    ensures { result ≡ size_under (Some bytes.now) }
{
    match InodeItem::decode(bytes) {
        Ok(item) => Some(item.size),
        Err(_) => None,
    }
}

/// The size that the item of an inode of a tree says; `None` where the tree has none ("INODE_ITEM" of the Btrfs on-disk
/// format).
pub fn size_of(table: &BlockTable, tree: &Tree, ino: Ino) -> Option<u64>
    requires { IsTree table.now tree.now }
    ensures { result ≡ size_under (data_under (make_key ino.0 inode_item 0) (tree_items table.now tree.now)) }
{
    let key = Key {
        objectid: ino.0,
        kind: INODE_ITEM,
        offset: 0,
    };
    match get(table, tree, &key) {
        Some(bytes) => size_in(bytes),
        None => None,
    }
}

/// Whether an extent is no run, or the blocks of its run keep the limits of a file of this size.
fn extent_keeps_limits(table: &BlockTable, key: &Key, extent: Extent<'_>, size: u64) -> bool
    requires { size ≤ most_file_bytes }
    ensures { IsTrue result ↔ KeepsExtentLimits table.now key.now (Ok (extent_view extent.entry)) size }
{
    let offset = key.offset;
    match extent {
        Extent::Regular { at, length, .. } => run_keeps_limits(
            table,
            at,
            offset / BLOCK_SIZE,
            length / BLOCK_SIZE,
            size,
        ),
        Extent::Inline(_) | Extent::Hole { .. } => true,
    }
}

/// Whether what is under a key is no run, or the blocks of its run keep the limits of a file of this size.
fn keeps_limits(table: &BlockTable, key: &Key, bytes: &[u8], size: u64) -> bool
    requires { size ≤ most_file_bytes }
    ensures { IsTrue result ↔ KeepsExtentLimits table.now key.now (extent_of key.now bytes.now) size }
{
    match Extent::open(key, bytes) {
        Ok(extent) => extent_keeps_limits(table, key, extent, size),
        Err(_) => true,
    }
}

/// Whether an extent is no run, or the blocks of its run keep the limits of its file ("EXTENT_DATA" of the Btrfs on-disk
/// format; own limits): each begins below the size, and has zeros past it. An inode without an item, or with a size that
/// no file may have, is not looked at.
pub fn is_right_extent(table: &BlockTable, tree: &Tree, key: &Key, bytes: &[u8]) -> bool
    requires { IsTree table.now tree.now }
    ensures { (size : ℕ) → size_under (data_under (make_key key.now.objectid inode_item 0) (tree_items table.now tree.now)) ≡ Some size → size ≤ most_file_bytes
        → (IsTrue result ↔ KeepsExtentLimits table.now key.now (extent_of key.now bytes.now) size) }
{
    match size_of(table, tree, Ino(key.objectid)) {
        Some(size) => size > MOST_FILE_BYTES || keeps_limits(table, key, bytes, size),
        None => true,
    }
}
