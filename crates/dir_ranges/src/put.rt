//! A range put into a log.
ghost use Rattle.std.specs.Prelude.{◌≡◌, ◌+◌, ℕ, List, None};
ghost use Rattle.blk_base.specs.Bytes.{number_bytes};
ghost use Rattle.block_table.specs.TreeIn.{IsSealedTree};
ghost use Rattle.tree_range.specs.Between.{data_under};
ghost use Rattle.tree_range.specs.Shape.{IsTree, tree_items, tree_reach};
ghost use Rattle.tree_frame.specs.Frame.{AreCurrent, IsEdit};
ghost use Rattle.log_edit.specs.Room.{HasRoomFor, room_of_tree, spare_of_tree};
ghost use Rattle.dir_ranges.specs.Ranges.{range_key, with_range};

use blk_base::Key;
use blk_base::format::{DIR_LOG_INDEX, RANGE_SIZE};
use block_table::{BlockTable, Tree};
use log_edit::put_item;

/// The eight bytes of a range's last index ("DIR_LOG_INDEX" of the on-disk format).
fn range_bytes(last: u64) -> [u8; RANGE_SIZE]
    ensures { result ≡ number_bytes 8 last }
{
    let mut bytes = [0; RANGE_SIZE];
    item_dir::put_range(last, &mut bytes);
    bytes
}

/// Puts the range of a directory's indexes from the first to the last, both included, into a log that has none from that
/// first index on ("insert_dir_log_key" of fs/btrfs/tree-log.c).
pub(crate) fn put_range(table: &mut BlockTable, log: &mut Tree, dir: u64, first: u64, last: u64)
    requires tree { IsTree table.old log.old }
    requires current { AreCurrent table.old (tree_reach table.old log.old) }
    requires absent { data_under (range_key record { dir = dir; first = first; last = last }) (tree_items table.old log.old) ≡ None }
    requires room { HasRoomFor table.old log.old 1 }
    ensures tree { IsTree table.new log.new }
    ensures items { tree_items table.new log.new ≡ with_range record { dir = dir; first = first; last = last } (tree_items table.old log.old) }
    ensures owner { log.new.owner ≡ log.old.owner }
    ensures edit { IsEdit table.old table.new (tree_reach table.old log.old) (tree_reach table.new log.new) }
    ensures current { AreCurrent table.new (tree_reach table.new log.new) }
    ensures sealed { (fsid : List ℕ) (was : ℕ) → IsSealedTree table.old log.old fsid was → (now : ℕ) × IsSealedTree table.new log.new fsid now }
    ensures blocks { room_of_tree table.new log.new ≡ room_of_tree table.old log.old }
    ensures buffers { spare_of_tree table.new log.new ≡ spare_of_tree table.old log.old }
    ensures room { (more : ℕ) → HasRoomFor table.old log.old (more + 1) → HasRoomFor table.new log.new more }
{
    let key = Key {
        objectid: dir,
        kind: DIR_LOG_INDEX,
        offset: first,
    };
    put_item(table, log, key, &range_bytes(last));
}
