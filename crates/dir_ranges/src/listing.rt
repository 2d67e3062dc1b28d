//! The listing of a directory in a log.
ghost use Rattle.std.specs.Prelude.{◌≡◌, ◌+◌, ℕ, List};
ghost use Rattle.block_table.specs.TreeIn.{IsSealedTree};
ghost use Rattle.tree_range.specs.Shape.{IsTree, tree_items, tree_reach};
ghost use Rattle.tree_frame.specs.Frame.{AreCurrent, IsEdit};
ghost use Rattle.tree_check.specs.Items.{HaveKeys};
ghost use Rattle.log_edit.specs.Room.{HasRoomFor, room_of_tree, spare_of_tree};
ghost use Rattle.volume_image.specs.Subvolume.{Data};
ghost use Rattle.logged_volume.specs.FlatLog.{FlatLog};
ghost use Rattle.log_image.specs.LogItems.{AreItemsOfLog};
ghost use Rattle.dir_ranges.specs.Listing.{items_without_listing, listing_count, without_listing};

use blk_base::format::{DIR_INDEX, DIR_LOG_INDEX};
use blk_base::{Ino, Key};
use block_table::{BlockTable, Tree};
use log_edit::delete_items;

/// The key of a directory with a type and an offset.
fn key_of(dir: Ino, kind: u8, offset: u64) -> Key
    ensures { result ≡ record { objectid = dir.0; kind = kind; offset = offset } }
{
    Key {
        objectid: dir.0,
        kind,
        offset,
    }
}

/// Takes the listing of a directory out of a log, its ranges and its entries, as before it is written anew
/// ("drop_inode_items" of fs/btrfs/tree-log.c). The log's tree has keys that fit their fields, as each tree that was loaded or
/// edited has, and stays so. The tree's room is for so many items more then.
pub fn drop_listing(table: &mut BlockTable, log: &mut Tree, dir: Ino)
    requires tree { IsTree table.old log.old }
    requires current { AreCurrent table.old (tree_reach table.old log.old) }
    requires keys { HaveKeys (tree_items table.old log.old) }
    requires room { HasRoomFor table.old log.old 0 }
    ensures tree { IsTree table.new log.new }
    ensures items { tree_items table.new log.new ≡ items_without_listing dir.0 (tree_items table.old log.old) }
    ensures log { (blocks : Data) (flat : FlatLog) → AreItemsOfLog (tree_items table.old log.old) blocks flat
        → AreItemsOfLog (tree_items table.new log.new) blocks (without_listing dir.0 flat) }
    ensures keys { HaveKeys (tree_items table.new log.new) }
    ensures owner { log.new.owner ≡ log.old.owner }
    ensures edit { IsEdit table.old table.new (tree_reach table.old log.old) (tree_reach table.new log.new) }
    ensures current { AreCurrent table.new (tree_reach table.new log.new) }
    ensures sealed { (fsid : List ℕ) (was : ℕ) → IsSealedTree table.old log.old fsid was → (now : ℕ) × IsSealedTree table.new log.new fsid now }
    ensures blocks { room_of_tree table.new log.new ≡ room_of_tree table.old log.old }
    ensures buffers { spare_of_tree table.new log.new ≡ spare_of_tree table.old log.old }
    ensures room { (was : ℕ) → HasRoomFor table.old log.old was
        → HasRoomFor table.new log.new (was + listing_count dir.0 (tree_items table.old log.old)) }
{
    let first_range = key_of(dir, DIR_LOG_INDEX, 0);
    let last_range = key_of(dir, DIR_LOG_INDEX, u64::MAX);
    delete_items(table, log, &first_range, &last_range);
    let first_entry = key_of(dir, DIR_INDEX, 0);
    let last_entry = key_of(dir, DIR_INDEX, u64::MAX);
    delete_items(table, log, &first_entry, &last_entry);
}
