ghost use Rattle.std.specs.Prelude.{◌≡◌, ◌+◌, ℕ, List};
ghost use Rattle.block_table.specs.TreeIn.{IsSealedTree};
ghost use Rattle.tree_range.specs.Shape.{IsTree, tree_items, tree_reach};
ghost use Rattle.tree_frame.specs.Frame.{AreCurrent, IsEdit};
ghost use Rattle.tree_check.specs.Items.{HaveKeys};
ghost use Rattle.log_edit.specs.Room.{HasRoomFor, room_of_tree, spare_of_tree};
ghost use Rattle.volume_image.specs.Subvolume.{Data};
ghost use Rattle.logged_volume.specs.FlatLog.{FlatLog};
ghost use Rattle.log_image.specs.LogItems.{AreItemsOfLog};
ghost use Rattle.log_items.specs.Forgotten.{count_of, forgotten, items_without};

use crate::entries::delete_entries_to;
use blk_base::{Ino, Key};
use block_table::{BlockTable, Tree};
use log_edit::delete_items;

/// Takes an inode out of a log: all items of its own, with the ranges and entries that it has as a directory, and each
/// entry of another directory that leads to it ("drop_inode_items" of fs/btrfs/tree-log.c, own). The log's tree has keys
/// that fit their fields, as each tree that was loaded or edited has, and stays so. The tree's room is for so many items
/// more then.
pub fn forget(table: &mut BlockTable, log: &mut Tree, ino: Ino)
    requires tree { IsTree table.old log.old }
    requires current { AreCurrent table.old (tree_reach table.old log.old) }
    requires keys { HaveKeys (tree_items table.old log.old) }
    requires room { HasRoomFor table.old log.old 0 }
    ensures tree { IsTree table.new log.new }
    ensures items { tree_items table.new log.new ≡ items_without ino.0 (tree_items table.old log.old) }
    ensures log { (blocks : Data) (flat : FlatLog) → AreItemsOfLog (tree_items table.old log.old) blocks flat
        → AreItemsOfLog (tree_items table.new log.new) blocks (forgotten ino.0 flat) }
    ensures keys { HaveKeys (tree_items table.new log.new) }
    ensures owner { log.new.owner ≡ log.old.owner }
    ensures edit { IsEdit table.old table.new (tree_reach table.old log.old) (tree_reach table.new log.new) }
    ensures current { AreCurrent table.new (tree_reach table.new log.new) }
    ensures sealed { (fsid : List ℕ) (was : ℕ) → IsSealedTree table.old log.old fsid was → (now : ℕ) × IsSealedTree table.new log.new fsid now }
    ensures blocks { room_of_tree table.new log.new ≡ room_of_tree table.old log.old }
    ensures buffers { spare_of_tree table.new log.new ≡ spare_of_tree table.old log.old }
    ensures room { (was : ℕ) → HasRoomFor table.old log.old was → HasRoomFor table.new log.new (was + count_of ino.0 (tree_items table.old log.old)) }
{
    let first = Key {
        objectid: ino.0,
        kind: 0,
        offset: 0,
    };
    let last = Key {
        objectid: ino.0,
        kind: u8::MAX,
        offset: u64::MAX,
    };
    delete_items(table, log, &first, &last);
    delete_entries_to(table, log, ino);
}
