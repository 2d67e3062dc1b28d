ghost use Rattle.std.specs.Prelude.{◌≡◌, ◌+◌, ℕ, List, length, IsTrue};
ghost use Rattle.blk_base.specs.Trees.{AreApart};
ghost use Rattle.block_table.specs.TreeIn.{IsSealedTree};
ghost use Rattle.tree_range.specs.Shape.{AreAlike, IsTree, tree_items, tree_reach};
ghost use Rattle.tree_frame.specs.Frame.{AreCurrent, IsEdit};
ghost use Rattle.tree_check.specs.Items.{HaveKeys};
ghost use Rattle.log_edit.specs.Room.{HasRoomFor, count_between, room_of_tree, spare_of_tree};
ghost use Rattle.flat_model.specs.Coherent.{IsCoherent};
ghost use Rattle.flat_model.specs.Volume.{Subvolume};
ghost use Rattle.volume_image.specs.Subvolume.{AreItemsOf, Data};
ghost use Rattle.logged_volume.specs.FlatLog.{FlatLog, is_logged};
ghost use Rattle.log_image.specs.LogItems.{AreItemsOfLog};
ghost use Rattle.log_items.specs.Names.{first_name, items_with_names, last_name, names_to_log, renamed};

use crate::copy::write_range;
use blk_base::format::{FIRST_FREE, INODE_EXTREF, INODE_REF};
use blk_base::{Ino, Key};
use block_table::{BlockTable, SubState, Tree};
use log_edit::delete_items;

/// Makes the names of an inode in a log, near and far, those that its subvolume has, byte for byte; the root directory's
/// `..` isn't logged ("INODE_REF" and "INODE_EXTREF" in copy_items of fs/btrfs/tree-log.c, own). The log's tree and the
/// subvolume's share no block, and the subvolume's stays. The log's has room for so many items less then as are put in, and
/// for so many more as are taken out.
pub fn write_names(table: &mut BlockTable, log: &mut Tree, sub: &SubState, ino: Ino)
    requires tree { IsTree table.old log.old }
    requires current { AreCurrent table.old (tree_reach table.old log.old) }
    requires keys { HaveKeys (tree_items table.old log.old) }
    requires from { IsTree table.old sub.now.tree }
    requires from_keys { HaveKeys (tree_items table.old sub.now.tree) }
    requires apart { AreApart (tree_reach table.old log.old) (tree_reach table.old sub.now.tree) }
    requires room { HasRoomFor table.old log.old (length (names_to_log ino.0 (tree_items table.old sub.now.tree))) }
    ensures tree { IsTree table.new log.new }
    ensures items { tree_items table.new log.new ≡ items_with_names ino.0 (tree_items table.old sub.now.tree) (tree_items table.old log.old) }
    ensures log { (blocks data_there : Data) (flat : FlatLog) (current : Subvolume) → AreItemsOfLog (tree_items table.old log.old) blocks flat
        → AreItemsOf (tree_items table.old sub.now.tree) data_there current → IsCoherent current → IsTrue (is_logged flat ino.0)
        → AreItemsOfLog (tree_items table.new log.new) blocks (renamed ino.0 current flat) }
    ensures keys { HaveKeys (tree_items table.new log.new) }
    ensures owner { log.new.owner ≡ log.old.owner }
    ensures edit { IsEdit table.old table.new (tree_reach table.old log.old) (tree_reach table.new log.new) }
    ensures current { AreCurrent table.new (tree_reach table.new log.new) }
    ensures from { AreAlike table.old table.new (tree_reach table.old sub.now.tree) }
    ensures sealed { (fsid : List ℕ) (was : ℕ) → IsSealedTree table.old log.old fsid was → (now : ℕ) × IsSealedTree table.new log.new fsid now }
    ensures blocks { room_of_tree table.new log.new ≡ room_of_tree table.old log.old }
    ensures buffers { spare_of_tree table.new log.new ≡ spare_of_tree table.old log.old }
    ensures room { (was : ℕ) → HasRoomFor table.old log.old (was + length (names_to_log ino.0 (tree_items table.old sub.now.tree)))
        → HasRoomFor table.new log.new (was + count_between (first_name ino.0) (last_name ino.0) table.old log.old) }
{
    let first = Key {
        objectid: ino.0,
        kind: INODE_REF,
        offset: 0,
    };
    let last = Key {
        objectid: ino.0,
        kind: INODE_EXTREF,
        offset: u64::MAX,
    };
    if ino.0 == FIRST_FREE {
        delete_items(table, log, &first, &last);
    } else {
        write_range(table, log, &sub.tree, &first, &last);
    }
}
