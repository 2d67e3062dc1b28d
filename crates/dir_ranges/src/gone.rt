//! Ranges of a log for the names of an inode that is gone.
ghost use Rattle.std.specs.Prelude.{◌≡◌, ◌≢◌, ◌+◌, ℕ, List};
ghost use Rattle.blk_base.specs.Trees.{AreApart};
ghost use Rattle.block_table.specs.TreeIn.{IsSealedTree};
ghost use Rattle.tree_range.specs.Shape.{IsTree, tree_items, tree_reach};
ghost use Rattle.tree_frame.specs.Frame.{AreCurrent, IsEdit};
ghost use Rattle.tree_check.specs.Items.{HaveKeys};
ghost use Rattle.log_edit.specs.Room.{HasRoomFor, room_of_tree, spare_of_tree};
ghost use Rattle.flat_model.specs.Names.{links_of};
ghost use Rattle.flat_model.specs.Volume.{Subvolume};
ghost use Rattle.volume_image.specs.Subvolume.{Data};
ghost use Rattle.logged_volume.specs.FlatLog.{FlatLog};
ghost use Rattle.log_image.specs.LogItems.{AreItemsOfLog, ranges_in};
ghost use Rattle.name_walk.specs.Given.{GivesCoherent};
ghost use Rattle.dir_ranges.specs.Gone.{IsGoneWritten, places_in, with_places};
ghost use Rattle.dir_ranges.specs.Ranges.{AreForward};

use crate::put::put_range;
use crate::uncovered::first_uncovered;
use blk_base::format::INODE_REF;
use blk_base::{Ino, Key};
use block_table::{BlockTable, Tree};

/// Puts a range of one index into a log for each name that the committed subvolume has of an inode that is gone, unless a
/// range of the log covers the index ("insert_dir_log_key" of fs/btrfs/tree-log.c, own). The committed tree's blocks are
/// whatever their states are, and none is one of the log's; the ranges that the log has go forward, as those of every writer
/// here do, and stay so. The log's tree has room for one item for each of the names.
pub fn write_gone(table: &mut BlockTable, log: &mut Tree, committed: &Tree, ino: Ino)
    requires tree { IsTree table.old log.old }
    requires current { AreCurrent table.old (tree_reach table.old log.old) }
    requires forward { AreForward (ranges_in (tree_items table.old log.old)) }
    requires apart { AreApart (tree_reach table.old committed.now) (tree_reach table.old log.old) }
    requires given { (sub : Subvolume) × GivesCoherent table.old committed.now sub × HasRoomFor table.old log.old (links_of sub.names ino.0) }
    requires not_root { ino.0 ≢ 256 }
    ensures tree { IsTree table.new log.new }
    ensures items { tree_items table.new log.new ≡ with_places (places_in (tree_items table.old committed.now) ino.0) (tree_items table.old log.old) }
    ensures log { (sub : Subvolume) (blocks : Data) (flat : FlatLog) → GivesCoherent table.old committed.now sub
        → AreItemsOfLog (tree_items table.old log.old) blocks flat
        → (after : FlatLog) × AreItemsOfLog (tree_items table.new log.new) blocks after × IsGoneWritten sub ino.0 flat after }
    ensures forward { AreForward (ranges_in (tree_items table.new log.new)) }
    ensures keys { HaveKeys (tree_items table.old log.old) → HaveKeys (tree_items table.new log.new) }
    ensures owner { log.new.owner ≡ log.old.owner }
    ensures edit { IsEdit table.old table.new (tree_reach table.old log.old) (tree_reach table.new log.new) }
    ensures current { AreCurrent table.new (tree_reach table.new log.new) }
    ensures sealed { (fsid : List ℕ) (was : ℕ) → IsSealedTree table.old log.old fsid was → (now : ℕ) × IsSealedTree table.new log.new fsid now }
    ensures blocks { room_of_tree table.new log.new ≡ room_of_tree table.old log.old }
    ensures buffers { spare_of_tree table.new log.new ≡ spare_of_tree table.old log.old }
    ensures room { (sub : Subvolume) (more : ℕ) → GivesCoherent table.old committed.now sub → HasRoomFor table.old log.old (more + links_of sub.names ino.0)
        → HasRoomFor table.new log.new more }
{
    let mut first = Key {
        objectid: ino.0,
        kind: INODE_REF,
        offset: 0,
    };
    while let Some(found) = first_uncovered(table, log, committed, &first, ino) {
        let place = found.place;
        put_range(table, log, place.dir, place.index, place.index);
        first = found.key;
    }
}
