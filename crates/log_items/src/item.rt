ghost use Rattle.std.specs.Prelude.{◌≡◌, ◌⊎◌, ◌≤◌, ◌<◌, ◌^◌, ◌+◌, ℕ, List, length, nat_eq, not};
ghost use Rattle.blk_base.specs.Items.{InodeValue, IsInode, dir_mode, file_mode, inode_bytes, link_mode};
ghost use Rattle.blk_base.specs.Keys.{KeyFits, inode_item};
ghost use Rattle.block_table.specs.TreeIn.{IsSealedTree};
ghost use Rattle.tree_range.specs.Shape.{IsTree, tree_items, tree_reach};
ghost use Rattle.tree_frame.specs.Frame.{AreCurrent, IsEdit, with_item};
ghost use Rattle.tree_check.specs.Items.{HaveKeys};
ghost use Rattle.log_edit.specs.Room.{HasRoomFor, room_of_tree, spare_of_tree};
ghost use Rattle.volume_image.specs.Subvolume.{Data, make_key};
ghost use Rattle.logged_volume.specs.FlatLog.{FlatLog, is_whole};
ghost use Rattle.log_image.specs.LogItems.{AreItemsOfLog};
ghost use Rattle.item_inode.specs.Inode.{inode_view};

use blk_base::format::{INODE_ITEM, INODE_ITEM_SIZE, MOST_ITEM_BYTES};
use blk_base::{Ino, Key};
use block_table::{BlockTable, Tree};
use item_inode::InodeItem;
use log_edit::{put_item, replace_item};
use tree_range::get;

/// The key of an inode's item ("INODE_ITEM" of the on-disk format).
fn inode_key(ino: Ino) -> Key
    ensures key { result ≡ make_key ino.0 inode_item 0 }
    ensures fits { KeyFits result }
{
    Key {
        objectid: ino.0,
        kind: INODE_ITEM,
        offset: 0,
    }
}

/// Whether bytes are an inode's item with a generation.
fn has_generation(bytes: &[u8]) -> bool
    ensures { (value : InodeValue) → IsInode bytes.now value → result ≡ not (nat_eq value.generation 0) }
{
    match InodeItem::decode(bytes) {
        Ok(item) => item.generation != 0,
        Err(_) => false,
    }
}

/// Whether a log has an inode whole: its item has a generation ("LOG_INODE_ALL" of fs/btrfs/tree-log.c, own).
pub(crate) fn has_whole(table: &BlockTable, log: &Tree, ino: Ino) -> bool
    requires { IsTree table.now log.now }
    ensures { (blocks : Data) (flat : FlatLog) → AreItemsOfLog (tree_items table.now log.now) blocks flat → result ≡ is_whole flat ino.0 }
{
    match get(table, log, &inode_key(ino)) {
        Some(bytes) => has_generation(bytes),
        None => false,
    }
}

/// Puts bytes under a key of a log's tree, in place of those that are there, if any.
fn put_or_replace(table: &mut BlockTable, log: &mut Tree, key: Key, bytes: &[u8])
    requires tree { IsTree table.old log.old }
    requires current { AreCurrent table.old (tree_reach table.old log.old) }
    requires short { length bytes.now ≤ MOST_ITEM_BYTES }
    requires room { HasRoomFor table.old log.old 1 }
    ensures tree { IsTree table.new log.new }
    ensures items { tree_items table.new log.new ≡ with_item key bytes.now (tree_items table.old log.old) }
    ensures owner { log.new.owner ≡ log.old.owner }
    ensures edit { IsEdit table.old table.new (tree_reach table.old log.old) (tree_reach table.new log.new) }
    ensures current { AreCurrent table.new (tree_reach table.new log.new) }
    ensures sealed { (fsid : List ℕ) (was : ℕ) → IsSealedTree table.old log.old fsid was → (now : ℕ) × IsSealedTree table.new log.new fsid now }
    ensures blocks { room_of_tree table.new log.new ≡ room_of_tree table.old log.old }
    ensures buffers { spare_of_tree table.new log.new ≡ spare_of_tree table.old log.old }
{
    if get(table, log, &key).is_some() {
        replace_item(table, log, key, bytes);
    } else {
        put_item(table, log, key, bytes);
    }
}

/// That the numbers of an inode item fit their fields, by their types.
fn numbers_fit(generation: u64, transid: u64, size: u64, nbytes: u64, nlink: u32)
    ensures generation { generation < 2 ^ 64 }
    ensures transid { transid < 2 ^ 64 }
    ensures size { size < 2 ^ 64 }
    ensures nbytes { nbytes < 2 ^ 64 }
    ensures nlink { nlink < 2 ^ 32 }
{
    let _ = (generation, transid, size, nbytes, nlink);
}

/// Writes the item of an inode into a log's tree, which says this then ("log_inode_item" of fs/btrfs/tree-log.c). The tree has
/// room for an item.
pub(crate) fn write_item(table: &mut BlockTable, log: &mut Tree, ino: Ino, item: &InodeItem)
    requires tree { IsTree table.old log.old }
    requires current { AreCurrent table.old (tree_reach table.old log.old) }
    requires room { HasRoomFor table.old log.old 1 }
    ensures tree { IsTree table.new log.new }
    ensures items { tree_items table.new log.new ≡ with_item (make_key ino.0 inode_item 0) (inode_bytes (inode_view item.now)) (tree_items table.old log.old) }
    ensures spelled { ((item.now.mode ≡ file_mode) ⊎ (item.now.mode ≡ dir_mode) ⊎ (item.now.mode ≡ link_mode))
        → IsInode (inode_bytes (inode_view item.now)) (inode_view item.now) }
    ensures keys { HaveKeys (tree_items table.old log.old) → HaveKeys (tree_items table.new log.new) }
    ensures owner { log.new.owner ≡ log.old.owner }
    ensures edit { IsEdit table.old table.new (tree_reach table.old log.old) (tree_reach table.new log.new) }
    ensures current { AreCurrent table.new (tree_reach table.new log.new) }
    ensures sealed { (fsid : List ℕ) (was : ℕ) → IsSealedTree table.old log.old fsid was → (now : ℕ) × IsSealedTree table.new log.new fsid now }
    ensures blocks { room_of_tree table.new log.new ≡ room_of_tree table.old log.old }
    ensures buffers { spare_of_tree table.new log.new ≡ spare_of_tree table.old log.old }
{
    numbers_fit(
        item.generation,
        item.transid,
        item.size,
        item.nbytes,
        item.nlink,
    );
    let mut bytes = [0; INODE_ITEM_SIZE];
    item.encode(&mut bytes);
    put_or_replace(table, log, inode_key(ino), &bytes);
}
