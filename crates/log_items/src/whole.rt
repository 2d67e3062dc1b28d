ghost use Rattle.std.specs.Prelude.{◌≡◌, ◌⊎◌, ◌≤◌, ◌+◌, ℕ, Bool, List, cond, length, max, nat_eq, true, Some};
ghost use Rattle.std.specs.FinMap.{get};
ghost use Rattle.blk_base.specs.Items.{InodeValue, IsInode, dir_mode, file_mode, inode_bytes, link_mode};
ghost use Rattle.blk_base.specs.Keys.{extent_data, xattr_item};
ghost use Rattle.blk_base.specs.Trees.{AreApart};
ghost use Rattle.block_table.specs.TreeIn.{IsSealedTree};
ghost use Rattle.tree_range.specs.Shape.{AreAlike, IsTree, tree_items, tree_reach};
ghost use Rattle.tree_frame.specs.Frame.{AreCurrent, IsEdit};
ghost use Rattle.tree_check.specs.Items.{HaveKeys};
ghost use Rattle.log_edit.specs.Room.{HasRoomFor, count_between, room_of_tree, spare_of_tree};
ghost use Rattle.flat_model.specs.Coherent.{IsCoherent};
ghost use Rattle.flat_model.specs.Records.{InodeRecord};
ghost use Rattle.flat_model.specs.Volume.{Subvolume};
ghost use Rattle.volume_image.specs.Subvolume.{AreItemsOf, Data};
ghost use Rattle.logged_volume.specs.FlatLog.{FlatLog};
ghost use Rattle.log_image.specs.LogItems.{AreItemsOfLog};
ghost use Rattle.item_inode.specs.Inode.{inode_view};
ghost use Rattle.item_edit.specs.ItemEdit.{HasInode};
ghost use Rattle.log_items.specs.Inode.{HasItsKind, inode_count, items_at, own_count, value_to_log};
ghost use Rattle.log_items.specs.Inode.{with_attributes, with_inode, with_items_at, with_own_items, with_target, with_whole};
ghost use Rattle.log_items.specs.Names.{names_to_log, renamed};
ghost use Rattle.log_items.specs.Writing.{IsWriting, MayWrite};

use crate::copy::write_range;
use crate::item::{has_whole, write_item};
use crate::names::write_names;
use blk_base::format::{EXTENT_DATA, LINK_MODE, XATTR_ITEM};
use blk_base::{Ino, Key};
use block_table::{BlockTable, SubState, Tree};
use item_edit::inode_at;
use item_inode::InodeItem;

/// Makes the items of one type of an inode in a log those that its subvolume has, byte for byte.
fn write_items_at(table: &mut BlockTable, log: &mut Tree, from: &Tree, ino: Ino, kind: u8)
    requires may { MayWrite table.old log.old from.now }
    requires room { HasRoomFor table.old log.old (length (items_at ino.0 kind (tree_items table.old from.now))) }
    ensures items { tree_items table.new log.new
        ≡ with_items_at ino.0 kind (tree_items table.old from.now) (tree_items table.old log.old) }
    ensures writing { IsWriting table.old log.old from.now table.new log.new }
{
    let first = Key {
        objectid: ino.0,
        kind,
        offset: 0,
    };
    let last = Key {
        objectid: ino.0,
        kind,
        offset: u64::MAX,
    };
    write_range(table, log, from, &first, &last);
}

/// Makes the attributes of an inode that is whole in a log those that its subvolume has ("XATTR_ITEM" in
/// btrfs_log_all_xattrs of fs/btrfs/tree-log.c).
fn write_attributes(table: &mut BlockTable, log: &mut Tree, from: &Tree, ino: Ino, whole: bool)
    requires may { MayWrite table.old log.old from.now }
    requires room { HasRoomFor table.old log.old (cond whole (length (items_at ino.0 xattr_item (tree_items table.old from.now))) 0) }
    ensures items { tree_items table.new log.new ≡ with_attributes ino.0 whole (tree_items table.old from.now) (tree_items table.old log.old) }
    ensures writing { IsWriting table.old log.old from.now table.new log.new }
{
    if whole {
        write_items_at(table, log, from, ino, XATTR_ITEM);
    }
}

/// Makes the target of an inode of this mode in a log that which its subvolume has, where it is a symlink (inline
/// "EXTENT_DATA" of the on-disk format).
fn write_target(table: &mut BlockTable, log: &mut Tree, from: &Tree, ino: Ino, mode: u32)
    requires may { MayWrite table.old log.old from.now }
    requires room { HasRoomFor table.old log.old (cond (nat_eq mode link_mode) (length (items_at ino.0 extent_data (tree_items table.old from.now))) 0) }
    ensures items { tree_items table.new log.new ≡ with_target ino.0 mode (tree_items table.old from.now) (tree_items table.old log.old) }
    ensures writing { IsWriting table.old log.old from.now table.new log.new }
{
    if mode == LINK_MODE {
        write_items_at(table, log, from, ino, EXTENT_DATA);
    }
}

/// Writes the item of an inode, whole its attributes too, and of a symlink its target.
fn write_own_items(
    table: &mut BlockTable,
    log: &mut Tree,
    from: &Tree,
    ino: Ino,
    whole: bool,
    item: &InodeItem,
)
    requires may { MayWrite table.old log.old from.now }
    requires room { HasRoomFor table.old log.old (own_count ino.0 whole item.now.mode (tree_items table.old from.now)) }
    ensures items { tree_items table.new log.new
        ≡ with_own_items ino.0 whole (inode_view item.now) (tree_items table.old from.now) (tree_items table.old log.old) }
    ensures spelled { ((item.now.mode ≡ file_mode) ⊎ (item.now.mode ≡ dir_mode) ⊎ (item.now.mode ≡ link_mode))
        → IsInode (inode_bytes (inode_view item.now)) (inode_view item.now) }
    ensures writing { IsWriting table.old log.old from.now table.new log.new }
{
    write_item(table, log, ino, item);
    write_attributes(table, log, from, ino, whole);
    write_target(table, log, from, ino, item.mode);
}

/// What the item of an inode says in a log, whole or as existing ("fill_inode_item" of fs/btrfs/tree-log.c, own).
fn item_to_log(item: &InodeItem, whole: bool) -> InodeItem
    ensures { inode_view result ≡ value_to_log whole (inode_view item.now) }
{
    InodeItem {
        generation: if whole { item.generation.max(1) } else { 0 },
        ..*item
    }
}

/// Writes the own items of an inode into a log, whole or as one that only exists, but for one that is whole in the log and
/// should only exist.
fn write_own_items_unless_whole(
    table: &mut BlockTable,
    log: &mut Tree,
    sub: &SubState,
    ino: Ino,
    whole: bool,
)
    requires may { MayWrite table.old log.old sub.now.tree }
    requires given { (value : InodeValue) × HasInode (tree_items table.old sub.now.tree) ino.0 value
        × HasRoomFor table.old log.old (own_count ino.0 whole value.mode (tree_items table.old sub.now.tree)) }
    ensures log { (blocks data_there : Data) (flat : FlatLog) (current : Subvolume) (inode : InodeRecord)
        → AreItemsOfLog (tree_items table.old log.old) blocks flat → AreItemsOf (tree_items table.old sub.now.tree) data_there current
        → get current.inodes ino.0 ≡ Some inode → HasItsKind flat ino.0 inode
        → AreItemsOfLog (tree_items table.new log.new) blocks (with_inode ino.0 whole inode flat) }
    ensures count { (value : InodeValue) → HasInode (tree_items table.old sub.now.tree) ino.0 value
        → length (tree_items table.new log.new) ≤ length (tree_items table.old log.old) + own_count ino.0 whole value.mode (tree_items table.old sub.now.tree) }
    ensures writing { IsWriting table.old log.old sub.now.tree table.new log.new }
{
    if whole || !has_whole(table, log, ino) {
        let item = item_to_log(&inode_at(table, &sub.tree, ino), whole);
        write_own_items(table, log, &sub.tree, ino, whole, &item);
    }
}

/// Makes an inode whole in a log, whose names stay: its item with a generation, its attributes, and of a symlink the target;
/// of a file the blocks and the holes stay that the log has, none where it hasn't the inode whole (LOG_INODE_ALL of btrfs_log_inode
/// in fs/btrfs/tree-log.c, own). The log's tree and the subvolume's share no block, and the subvolume's, which has the inode,
/// stays. The log's has room for so many items as are written at most.
pub fn write_whole(table: &mut BlockTable, log: &mut Tree, sub: &SubState, ino: Ino)
    requires tree { IsTree table.old log.old }
    requires current { AreCurrent table.old (tree_reach table.old log.old) }
    requires keys { HaveKeys (tree_items table.old log.old) }
    requires from { IsTree table.old sub.now.tree }
    requires from_keys { HaveKeys (tree_items table.old sub.now.tree) }
    requires apart { AreApart (tree_reach table.old log.old) (tree_reach table.old sub.now.tree) }
    requires given { (value : InodeValue) × HasInode (tree_items table.old sub.now.tree) ino.0 value
        × HasRoomFor table.old log.old (own_count ino.0 true value.mode (tree_items table.old sub.now.tree)) }
    ensures tree { IsTree table.new log.new }
    ensures log { (blocks data_there : Data) (flat : FlatLog) (current : Subvolume) (inode : InodeRecord)
        → AreItemsOfLog (tree_items table.old log.old) blocks flat → AreItemsOf (tree_items table.old sub.now.tree) data_there current
        → get current.inodes ino.0 ≡ Some inode → HasItsKind flat ino.0 inode
        → AreItemsOfLog (tree_items table.new log.new) blocks (with_whole ino.0 inode flat) }
    ensures keys { HaveKeys (tree_items table.new log.new) }
    ensures owner { log.new.owner ≡ log.old.owner }
    ensures edit { IsEdit table.old table.new (tree_reach table.old log.old) (tree_reach table.new log.new) }
    ensures current { AreCurrent table.new (tree_reach table.new log.new) }
    ensures from { AreAlike table.old table.new (tree_reach table.old sub.now.tree) }
    ensures sealed { (fsid : List ℕ) (was : ℕ) → IsSealedTree table.old log.old fsid was → (now : ℕ) × IsSealedTree table.new log.new fsid now }
    ensures blocks { room_of_tree table.new log.new ≡ room_of_tree table.old log.old }
    ensures buffers { spare_of_tree table.new log.new ≡ spare_of_tree table.old log.old }
    ensures room { (value : InodeValue) (more : ℕ) → HasInode (tree_items table.old sub.now.tree) ino.0 value
        → HasRoomFor table.old log.old (more + own_count ino.0 true value.mode (tree_items table.old sub.now.tree)) → HasRoomFor table.new log.new more }
{
    write_own_items_unless_whole(table, log, sub, ino, true);
}

/// Writes an inode into a log, whole or as one that only exists, with the names that its subvolume has of it (inode and
/// names of btrfs_log_inode in fs/btrfs/tree-log.c). Whole it has its item with a generation, its attributes, and of a symlink the
/// target; of a file the blocks and the holes stay that the log has (none where it hasn't the inode whole). One that only
/// exists has its item with generation 0, and of a symlink the target; an inode that is whole in the log stays so, and only its
/// names are written. The log's tree and the subvolume's share no block, and the subvolume's, which has the inode, stays. The
/// log's has room for so many items as are written at most.
pub fn write_inode(table: &mut BlockTable, log: &mut Tree, sub: &SubState, ino: Ino, whole: bool)
    requires tree { IsTree table.old log.old }
    requires current { AreCurrent table.old (tree_reach table.old log.old) }
    requires keys { HaveKeys (tree_items table.old log.old) }
    requires from { IsTree table.old sub.now.tree }
    requires from_keys { HaveKeys (tree_items table.old sub.now.tree) }
    requires apart { AreApart (tree_reach table.old log.old) (tree_reach table.old sub.now.tree) }
    requires given { (value : InodeValue) × HasInode (tree_items table.old sub.now.tree) ino.0 value
        × HasRoomFor table.old log.old (inode_count ino.0 whole value.mode (tree_items table.old sub.now.tree)) }
    ensures tree { IsTree table.new log.new }
    ensures log { (blocks data_there : Data) (flat : FlatLog) (current : Subvolume) (inode : InodeRecord)
        → AreItemsOfLog (tree_items table.old log.old) blocks flat → AreItemsOf (tree_items table.old sub.now.tree) data_there current → IsCoherent current
        → get current.inodes ino.0 ≡ Some inode → HasItsKind flat ino.0 inode
        → AreItemsOfLog (tree_items table.new log.new) blocks (renamed ino.0 current (with_inode ino.0 whole inode flat)) }
    ensures keys { HaveKeys (tree_items table.new log.new) }
    ensures owner { log.new.owner ≡ log.old.owner }
    ensures edit { IsEdit table.old table.new (tree_reach table.old log.old) (tree_reach table.new log.new) }
    ensures current { AreCurrent table.new (tree_reach table.new log.new) }
    ensures from { AreAlike table.old table.new (tree_reach table.old sub.now.tree) }
    ensures sealed { (fsid : List ℕ) (was : ℕ) → IsSealedTree table.old log.old fsid was → (now : ℕ) × IsSealedTree table.new log.new fsid now }
    ensures blocks { room_of_tree table.new log.new ≡ room_of_tree table.old log.old }
    ensures buffers { spare_of_tree table.new log.new ≡ spare_of_tree table.old log.old }
    ensures room { (value : InodeValue) (more : ℕ) → HasInode (tree_items table.old sub.now.tree) ino.0 value
        → HasRoomFor table.old log.old (more + inode_count ino.0 whole value.mode (tree_items table.old sub.now.tree)) → HasRoomFor table.new log.new more }
{
    write_own_items_unless_whole(table, log, sub, ino, whole);
    write_names(table, log, sub, ino);
}
