ghost use Rattle.std.specs.Prelude.{◌≡◌, ◌⊎◌, ◌≤◌, ◌<◌, ◌^◌, Some};
ghost use Rattle.blk_base.specs.Items.{InodeValue, IsInode, dir_mode, file_mode, inode_bytes, link_mode};
ghost use Rattle.blk_base.specs.Keys.{inode_item};
ghost use Rattle.block_table.specs.Table.{free_blocks};
ghost use Rattle.tree_range.specs.Shape.{IsTree, tree_items, tree_reach};
ghost use Rattle.tree_frame.specs.Frame.{AreCurrent};
ghost use Rattle.volume_image.specs.Subvolume.{make_key};
ghost use Rattle.item_inode.specs.Inode.{inode_view};
ghost use Rattle.item_edit.specs.ItemEdit.{HasInode, IsItemEdit};

use crate::item::write_item;
use blk_base::format::{INODE_ITEM, INODE_ITEM_SIZE};
use blk_base::{Ino, Key};
use block_table::{BlockTable, Tree};
use cow_tree::get;
use item_inode::InodeItem;

/// The key of an inode's item.
fn inode_key(ino: Ino) -> Key
    ensures { result ≡ make_key ino.0 inode_item 0 }
{
    Key {
        objectid: ino.0,
        kind: INODE_ITEM,
        offset: 0,
    }
}

/// What the item of an inode says, which the tree has ("INODE_ITEM" of the on-disk format).
pub fn inode_at(table: &BlockTable, tree: &Tree, ino: Ino) -> InodeItem
    requires tree { IsTree table.now tree.now }
    requires there { (value : InodeValue) × HasInode (tree_items table.now tree.now) ino.0 value }
    ensures { (value : InodeValue) → HasInode (tree_items table.now tree.now) ino.0 value → inode_view result ≡ value }
{
    match get(table, tree, &inode_key(ino)) {
        Some(bytes) => match InodeItem::decode(bytes) {
            Ok(item) => item,
            Err(_) => unreachable!(),
        },
        None => unreachable!(),
    }
}

/// That the numbers of an inode item fit their fields, by their types.
fn numbers_fit(generation: u64, transid: u64, size: u64, nbytes: u64, nlink: u32)
    ensures generation { generation < 2 ^ 64 }
    ensures transid { transid < 2 ^ 64 }
    ensures size { size < 2 ^ 64 }
    ensures nbytes { nbytes < 2 ^ 64 }
    ensures nlink { nlink < 2 ^ 32 }
{
    let _ = (generation, transid, size, nbytes, nlink);
}

/// Writes the item of an inode, which then says this ("INODE_ITEM" of the on-disk format).
pub fn write_inode(table: &mut BlockTable, tree: &mut Tree, ino: Ino, item: &InodeItem)
    requires tree { IsTree table.old tree.old }
    requires current { AreCurrent table.old (tree_reach table.old tree.old) }
    requires spare { 17 ≤ table.old.spare }
    requires free { 17 ≤ free_blocks table.old }
    ensures edit { IsItemEdit table.old table.new tree.old tree.new (make_key ino.0 inode_item 0) (Some (inode_bytes (inode_view item.now))) }
    ensures spelled { ((item.now.mode ≡ file_mode) ⊎ (item.now.mode ≡ dir_mode) ⊎ (item.now.mode ≡ link_mode)) → IsInode (inode_bytes (inode_view item.now)) (inode_view item.now) }
{
    numbers_fit(
        item.generation,
        item.transid,
        item.size,
        item.nbytes,
        item.nlink,
    );
    let mut bytes = [0; INODE_ITEM_SIZE];
    item.encode(&mut bytes);
    write_item(table, tree, inode_key(ino), &bytes);
}
