//! The ranges of a directory that differs between two trees.
ghost use Rattle.std.specs.Prelude.{◌≡◌, ◌≢◌, ◌+◌, ◌-◌, ◌≤◌, ◌↔◌, ◌++◌, ℕ, List, length, nat_lt, Contains};
ghost use Rattle.blk_base.specs.Trees.{AreApart};
ghost use Rattle.block_table.specs.TreeIn.{IsSealedTree};
ghost use Rattle.tree_range.specs.Shape.{IsTree, tree_items, tree_reach};
ghost use Rattle.tree_frame.specs.Frame.{AreCurrent, IsEdit};
ghost use Rattle.tree_check.specs.Items.{HaveKeys};
ghost use Rattle.log_edit.specs.Room.{HasRoomFor, room_of_tree, spare_of_tree};
ghost use Rattle.volume_image.specs.Subvolume.{Data};
ghost use Rattle.logged_volume.specs.FlatLog.{FlatLog, LogRange};
ghost use Rattle.logged_volume.specs.Numbers.{is_met};
ghost use Rattle.log_image.specs.LogItems.{AreItemsOfLog, ranges_in};
ghost use Rattle.dir_ranges.specs.Indexes.{all_in, end_of, low_behind, ranges_between, with_ranges};
ghost use Rattle.dir_ranges.specs.Ranges.{AreForward, log_with};

use crate::index::{has_index, next_unchanged};
use crate::put::put_range;
use blk_base::Ino;
use block_table::{BlockTable, Tree};

/// The last index before an interval's end; the greatest of all where it has none.
fn last_before(end: Option<u64>) -> u64
    ensures { result ≡ end_of end - 1 }
{
    match end {
        Some(index) => index.saturating_sub(1),
        None => u64::MAX,
    }
}

/// The first index behind an interval's end; `None` where there is none.
pub(crate) fn index_behind(end: Option<u64>) -> Option<u64>
    ensures { result ≡ low_behind end }
{
    match end {
        Some(index) if index < u64::MAX => Some(index + 1),
        _ => None,
    }
}

/// Whether an interval from this index on has one before its end.
fn is_before(first: u64, end: Option<u64>) -> bool
    ensures { result ≡ nat_lt first (end_of end) }
{
    match end {
        Some(index) => first < index,
        None => true,
    }
}

/// Whether a directory has in one of the trees an index from the first to before the end.
fn is_met(
    table: &BlockTable,
    committed: &Tree,
    current: &Tree,
    dir: Ino,
    first: u64,
    end: Option<u64>,
) -> bool
    requires committed { IsTree table.now committed.now }
    requires current { IsTree table.now current.now }
    ensures { result ≡ is_met (all_in (tree_items table.now committed.now) (tree_items table.now current.now) dir.0) (first, end_of end) }
{
    if !is_before(first, end) {
        return false;
    }
    let last = last_before(end);
    has_index(table, committed, dir, first, last) || has_index(table, current, dir, first, last)
}

/// Puts the ranges of a directory into a log that has none of it: each maximal interval of indexes without one at which the
/// two trees say the same, where one of them has an index ("log_dir_items" of fs/btrfs/tree-log.c). The two trees' blocks are
/// whatever their states are, and none is one of the log's. The log's tree has room for one item for each index.
pub fn write_ranges(
    table: &mut BlockTable,
    log: &mut Tree,
    committed: &Tree,
    current: &Tree,
    dir: Ino,
)
    requires tree { IsTree table.old log.old }
    requires standing { AreCurrent table.old (tree_reach table.old log.old) }
    requires bare { (range : LogRange) → Contains (ranges_in (tree_items table.old log.old)) range → range.dir ≢ dir.0 }
    requires committed { IsTree table.old committed.now }
    requires current { IsTree table.old current.now }
    requires committed_apart { AreApart (tree_reach table.old committed.now) (tree_reach table.old log.old) }
    requires current_apart { AreApart (tree_reach table.old current.now) (tree_reach table.old log.old) }
    requires room { HasRoomFor table.old log.old (length (all_in (tree_items table.old committed.now) (tree_items table.old current.now) dir.0)) }
    ensures tree { IsTree table.new log.new }
    ensures items { tree_items table.new log.new
        ≡ with_ranges (ranges_between (tree_items table.old committed.now) (tree_items table.old current.now) dir.0) (tree_items table.old log.old) }
    ensures ranges { (range : LogRange) → Contains (ranges_in (tree_items table.new log.new)) range
        ↔ Contains (ranges_in (tree_items table.old log.old)
        ++ ranges_between (tree_items table.old committed.now) (tree_items table.old current.now) dir.0) range }
    ensures log { (blocks : Data) (flat : FlatLog) → AreItemsOfLog (tree_items table.old log.old) blocks flat
        → AreItemsOfLog (tree_items table.new log.new) blocks (log_with (ranges_in (tree_items table.new log.new)) flat) }
    ensures forward { AreForward (ranges_in (tree_items table.old log.old)) → AreForward (ranges_in (tree_items table.new log.new)) }
    ensures keys { HaveKeys (tree_items table.old log.old) → HaveKeys (tree_items table.new log.new) }
    ensures owner { log.new.owner ≡ log.old.owner }
    ensures edit { IsEdit table.old table.new (tree_reach table.old log.old) (tree_reach table.new log.new) }
    ensures standing { AreCurrent table.new (tree_reach table.new log.new) }
    ensures sealed { (fsid : List ℕ) (was : ℕ) → IsSealedTree table.old log.old fsid was → (now : ℕ) × IsSealedTree table.new log.new fsid now }
    ensures blocks { room_of_tree table.new log.new ≡ room_of_tree table.old log.old }
    ensures buffers { spare_of_tree table.new log.new ≡ spare_of_tree table.old log.old }
    ensures room { (more : ℕ)
        → HasRoomFor table.old log.old (more + length (all_in (tree_items table.old committed.now) (tree_items table.old current.now) dir.0))
        → HasRoomFor table.new log.new more }
{
    let mut low = Some(0);
    while let Some(first) = low {
        let end = next_unchanged(table, committed, current, dir, first);
        low = index_behind(end);
        if is_met(table, committed, current, dir, first, end) {
            put_range(table, log, dir.0, first, last_before(end));
        }
    }
}
