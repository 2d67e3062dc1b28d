//! The entries of a directory in the ranges that a log has of it.
ghost use Rattle.std.specs.Prelude.{◌≡◌, ◌+◌, ◌++◌, ◌↔◌, ℕ, List, None, Contains, length, option_map};
ghost use Rattle.std.specs.List.{find};
ghost use Rattle.blk_base.specs.Keys.{dir_index};
ghost use Rattle.blk_base.specs.Leaf.{Item};
ghost use Rattle.blk_base.specs.Trees.{AreApart};
ghost use Rattle.block_table.specs.TreeIn.{IsSealedTree};
ghost use Rattle.tree_range.specs.Between.{data_under};
ghost use Rattle.tree_range.specs.Shape.{IsTree, tree_items, tree_reach};
ghost use Rattle.tree_frame.specs.Frame.{AreCurrent, IsEdit};
ghost use Rattle.tree_check.specs.Items.{HaveKeys};
ghost use Rattle.log_edit.specs.Room.{HasRoomFor, room_of_tree, spare_of_tree};
ghost use Rattle.volume_image.specs.Subvolume.{Data, make_key};
ghost use Rattle.logged_volume.specs.FlatLog.{FlatLog, LogEntry};
ghost use Rattle.log_image.specs.LogItems.{AreItemsOfLog, IsLogItem, entries_in, ranges_in};
ghost use Rattle.dir_ranges.specs.Entries.{covered_from, is_covered_item, with_items};
ghost use Rattle.dir_ranges.specs.Indexes.{index_of, indexes_between, last_index};
ghost use Rattle.dir_ranges.specs.Listing.{with_listings};

use crate::copy::put_copy;
use crate::covered::is_covered;
use crate::index::index_key;
use crate::place::Place;
use crate::ranges::index_behind;
use blk_base::Ino;
use block_table::{BlockTable, Tree};
use tree_range::range;

/// The first index of a directory, from one on, that a range of the log covers; `None` where there is none.
fn next_covered(table: &BlockTable, log: &Tree, current: &Tree, dir: Ino, first: u64) -> Option<u64>
    requires log { IsTree table.now log.now }
    requires current { IsTree table.now current.now }
    ensures { result ≡ option_map index_of (find (is_covered_item (ranges_in (tree_items table.now log.now)) dir.0)
        (indexes_between dir.0 first last_index (tree_items table.now current.now))) }
{
    let from = index_key(dir, first);
    let last = index_key(dir, u64::MAX);
    for (key, _bytes) in range(table, current, &from, &last) {
        let place = Place {
            dir: dir.0,
            index: key.offset,
        };
        if is_covered(table, log, place) {
            return Some(key.offset);
        }
    }
    None
}

/// Puts into a log each entry that a directory has, by a tree, at an index that a range of the log covers; the log has no
/// entry of the directory yet ("log_dir_items" of fs/btrfs/tree-log.c). The tree's blocks are whatever their states are, and
/// none is one of the log's. The log's tree has room for one item for each entry.
pub fn write_entries(table: &mut BlockTable, log: &mut Tree, current: &Tree, dir: Ino)
    requires tree { IsTree table.old log.old }
    requires standing { AreCurrent table.old (tree_reach table.old log.old) }
    requires bare { (index : ℕ) → data_under (make_key dir.0 dir_index index) (tree_items table.old log.old) ≡ None }
    requires current { IsTree table.old current.now }
    requires apart { AreApart (tree_reach table.old current.now) (tree_reach table.old log.old) }
    requires room { HasRoomFor table.old log.old (length (covered_from (ranges_in (tree_items table.old log.old)) (tree_items table.old current.now) dir.0 0)) }
    ensures tree { IsTree table.new log.new }
    ensures items { tree_items table.new log.new
        ≡ with_items (covered_from (ranges_in (tree_items table.old log.old)) (tree_items table.old current.now) dir.0 0) (tree_items table.old log.old) }
    ensures ranges { ranges_in (tree_items table.new log.new) ≡ ranges_in (tree_items table.old log.old) }
    ensures entries { (entry : LogEntry) → Contains (entries_in (tree_items table.new log.new)) entry
        ↔ Contains (entries_in (tree_items table.old log.old)
        ++ entries_in (covered_from (ranges_in (tree_items table.old log.old)) (tree_items table.old current.now) dir.0 0)) entry }
    ensures log { (blocks : Data) (flat : FlatLog)
        → ((item : Item) → Contains (covered_from (ranges_in (tree_items table.old log.old)) (tree_items table.old current.now) dir.0 0) item
        → IsLogItem item.0 item.1)
        → AreItemsOfLog (tree_items table.old log.old) blocks flat
        → AreItemsOfLog (tree_items table.new log.new) blocks (with_listings (tree_items table.new log.new) flat) }
    ensures keys { HaveKeys (tree_items table.old log.old) → HaveKeys (tree_items table.new log.new) }
    ensures owner { log.new.owner ≡ log.old.owner }
    ensures edit { IsEdit table.old table.new (tree_reach table.old log.old) (tree_reach table.new log.new) }
    ensures standing { AreCurrent table.new (tree_reach table.new log.new) }
    ensures sealed { (fsid : List ℕ) (was : ℕ) → IsSealedTree table.old log.old fsid was → (now : ℕ) × IsSealedTree table.new log.new fsid now }
    ensures blocks { room_of_tree table.new log.new ≡ room_of_tree table.old log.old }
    ensures buffers { spare_of_tree table.new log.new ≡ spare_of_tree table.old log.old }
    ensures room { (more : ℕ)
        → HasRoomFor table.old log.old (more + length (covered_from (ranges_in (tree_items table.old log.old)) (tree_items table.old current.now) dir.0 0))
        → HasRoomFor table.new log.new more }
{
    let mut low = Some(0);
    while let Some(first) = low {
        let found = next_covered(table, log, current, dir, first);
        low = index_behind(found);
        if let Some(index) = found {
            let key = index_key(dir, index);
            put_copy(table, log, current, key);
        }
    }
}
