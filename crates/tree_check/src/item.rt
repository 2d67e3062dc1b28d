//! The checks of one item.
ghost use Rattle.std.specs.Prelude.{◌≡◌};
ghost use Rattle.blk_base.specs.Bytes.{IsBytes};
ghost use Rattle.blk_base.specs.Entries.{entries_of, extrefs_of, refs_of};
ghost use Rattle.blk_base.specs.Extents.{extent_of};
ghost use Rattle.blk_base.specs.ItemFaults.{fault_of, item_fault};
ghost use Rattle.blk_base.specs.Items.{inode_of, range_of};
ghost use Rattle.volume_image.specs.Subvolume.{extent_len};
ghost use Rattle.tree_check.specs.Items.{end_of, fault_behind, is_below_end};

use blk_base::format::{
    DIR_INDEX, DIR_ITEM, DIR_LOG_INDEX, EXTENT_DATA, INODE_EXTREF, INODE_ITEM, INODE_REF,
    XATTR_ITEM,
};
use blk_base::{ItemFault, Key};
use item_dir::{DirRange, Entries};
use item_extent::Extent;
use item_inode::{ExtRefs, InodeItem, Refs};

/// Where an extent ends: its file's number, and the place in bytes of the file's first byte behind it (own).
#[derive(Clone, Copy)]
pub(crate) struct FileEnd {
    pub(crate) file: u64,
    pub(crate) end: u128,
}

/// The first fault of an inode's item.
fn inode_fault(bytes: &[u8]) -> Option<ItemFault>
    ensures { result ≡ fault_of (inode_of bytes.now) }
{
    InodeItem::decode(bytes).err()
}

/// The first fault of an item of near names.
fn refs_fault(key: &Key, bytes: &[u8]) -> Option<ItemFault>
    ensures { result ≡ fault_of (refs_of key.now bytes.now) }
{
    Refs::open(key, bytes).err()
}

/// The first fault of an item of far names.
fn extrefs_fault(bytes: &[u8]) -> Option<ItemFault>
    ensures { result ≡ fault_of (extrefs_of bytes.now) }
{
    ExtRefs::open(bytes).err()
}

/// The first fault of an item of entries.
fn entries_fault(kind: u8, bytes: &[u8]) -> Option<ItemFault>
    ensures { result ≡ fault_of (entries_of kind bytes.now) }
{
    Entries::open(kind, bytes).err()
}

/// The first fault of an extent.
fn extent_fault(key: &Key, bytes: &[u8]) -> Option<ItemFault>
    ensures { result ≡ fault_of (extent_of key.now bytes.now) }
{
    Extent::open(key, bytes).err()
}

/// The first fault of a range of indexes.
fn range_fault(bytes: &[u8]) -> Option<ItemFault>
    ensures { result ≡ fault_of (range_of bytes.now) }
{
    DirRange::decode(bytes).err()
}

/// The first fault of an item by the grammar of its key's type.
#[tactic(auto, unfolding(blk_base::specs::ItemFaults::item_fault, blk_base::specs::Extents::extent_of))]
fn item_fault(key: &Key, bytes: &[u8]) -> Option<ItemFault>
    ensures { result ≡ item_fault key.now bytes.now }
{
    match key.kind {
        INODE_ITEM => inode_fault(bytes),
        INODE_REF => refs_fault(key, bytes),
        INODE_EXTREF => extrefs_fault(bytes),
        DIR_ITEM | DIR_INDEX | XATTR_ITEM => entries_fault(key.kind, bytes),
        EXTENT_DATA => extent_fault(key, bytes),
        DIR_LOG_INDEX => range_fault(bytes),
        _ => None,
    }
}

/// How many bytes of its file an extent covers.
fn extent_len(key: &Key, bytes: &[u8]) -> u64
    ensures { result ≡ extent_len key.now bytes.now }
{
    match Extent::open(key, bytes) {
        Ok(Extent::Regular { length, .. }) => length,
        Ok(Extent::Inline(_)) | Ok(Extent::Hole { .. }) | Err(_) => 0,
    }
}

/// Where an item ends, if it is an extent.
pub(crate) fn end_of(key: &Key, bytes: &[u8]) -> Option<FileEnd>
    ensures { result ≡ end_of (key.now, bytes.now) }
{
    if key.kind != EXTENT_DATA {
        return None;
    }
    Some(FileEnd {
        file: key.objectid,
        end: u128::from(key.offset) + u128::from(extent_len(key, bytes)),
    })
}

/// Whether an item is an extent that begins below this end in the same file.
fn is_below_end(before: Option<FileEnd>, key: &Key) -> bool
    ensures { result ≡ is_below_end before key.now }
{
    match before {
        Some(before) => {
            key.kind == EXTENT_DATA
                && key.objectid == before.file
                && u128::from(key.offset) < before.end
        }
        None => false,
    }
}

/// The fault of an item behind one with this end: that of its own grammar first, and then Overlap.
pub(crate) fn fault_behind(before: Option<FileEnd>, key: &Key, bytes: &[u8]) -> Option<ItemFault>
    ensures fault { result ≡ fault_behind before (key.now, bytes.now) }
    ensures bytes { IsBytes bytes.now }
{
    if let Some(fault) = item_fault(key, bytes) {
        return Some(fault);
    }
    if is_below_end(before, key) {
        return Some(ItemFault::Overlap);
    }
    None
}
