ghost use Rattle.std.specs.Prelude.{◌≡◌, ◌↔◌, IsTrue};
ghost use Rattle.blk_base.specs.ItemFaults.{HasItsKey, is_log_kind, is_subvolume_kind};

use crate::entries::{are_attributes_at, are_entries_at, are_extrefs_at, is_entry_at_index};
use blk_base::Key;
use blk_base::format::{
    DIR_INDEX, DIR_ITEM, DIR_LOG_INDEX, EXTENT_DATA, INODE_EXTREF, INODE_ITEM, INODE_REF,
    XATTR_ITEM,
};

/// Whether a type is one of the items of a subvolume ("Item Types" of the Btrfs on-disk format).
pub fn is_subvolume_kind(kind: u8) -> bool
    ensures { result ≡ is_subvolume_kind kind }
{
    matches!(
        kind,
        INODE_ITEM | INODE_REF | INODE_EXTREF | XATTR_ITEM | DIR_ITEM | DIR_INDEX | EXTENT_DATA
    )
}

/// Whether a type is one of the items of a log ("Item Types" of the Btrfs on-disk format).
pub fn is_log_kind(kind: u8) -> bool
    ensures { result ≡ is_log_kind kind }
{
    matches!(
        kind,
        INODE_ITEM | INODE_REF | INODE_EXTREF | XATTR_ITEM | DIR_LOG_INDEX | DIR_INDEX | EXTENT_DATA
    )
}

/// Whether an item's key is the one that the format gives for its content: offset 0 of an inode's item, and the hash of
/// each name of far names, of names in a directory and of attributes; entries of a directory lead to inodes' items, and
/// those of attributes nowhere ("Item Types" of the Btrfs on-disk format). Takes any bytes; of an item with a fault it says
/// nothing of its entries.
pub fn has_its_key(key: &Key, bytes: &[u8]) -> bool
    ensures { IsTrue result ↔ HasItsKey key.now bytes.now }
{
    match key.kind {
        INODE_ITEM => key.offset == 0,
        INODE_EXTREF => are_extrefs_at(key.offset, bytes),
        DIR_ITEM => are_entries_at(key.offset, bytes),
        DIR_INDEX => is_entry_at_index(bytes),
        XATTR_ITEM => are_attributes_at(key.offset, bytes),
        _ => true,
    }
}
