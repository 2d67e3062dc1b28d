//! An item of another tree put into a log.
ghost use Rattle.std.specs.Prelude.{◌≡◌, ◌≤◌, ◌+◌, ℕ, List, Some, None, IsSome, take};
ghost use Rattle.block_table.specs.TreeIn.{IsSealedTree};
ghost use Rattle.tree_range.specs.Between.{data_under};
ghost use Rattle.tree_range.specs.Shape.{IsTree, tree_items, tree_reach};
ghost use Rattle.tree_frame.specs.Frame.{AreCurrent, IsEdit, with_item};
ghost use Rattle.log_edit.specs.Room.{HasRoomFor, room_of_tree, spare_of_tree};

use blk_base::Key;
use blk_base::format::MOST_ITEM_BYTES;
use block_table::{BlockTable, Tree};
use log_edit::put_item;
use tree_range::get;

/// Copies the data of an item to the front of a buffer, and says how long it is.
fn copy_data(table: &BlockTable, tree: &Tree, key: &Key, into: &mut [u8; MOST_ITEM_BYTES]) -> usize
    requires tree { IsTree table.now tree.now }
    requires present { IsSome (data_under key.now (tree_items table.now tree.now)) }
    ensures short { result ≤ MOST_ITEM_BYTES }
    ensures data { data_under key.now (tree_items table.now tree.now) ≡ Some (take result into.new) }
{
    match get(table, tree, key) {
        Some(bytes) => {
            into[..bytes.len()].copy_from_slice(bytes);
            bytes.len()
        }
        None => 0,
    }
}

/// Puts the item that another tree has under a key into a log that has none under it, byte for byte ("copy_items" of
/// fs/btrfs/tree-log.c).
pub(crate) fn put_copy(table: &mut BlockTable, log: &mut Tree, other: &Tree, key: Key)
    requires tree { IsTree table.old log.old }
    requires current { AreCurrent table.old (tree_reach table.old log.old) }
    requires other { IsTree table.old other.now }
    requires present { IsSome (data_under key (tree_items table.old other.now)) }
    requires absent { data_under key (tree_items table.old log.old) ≡ None }
    requires room { HasRoomFor table.old log.old 1 }
    ensures tree { IsTree table.new log.new }
    ensures items { (bytes : List ℕ) → data_under key (tree_items table.old other.now) ≡ Some bytes
        → tree_items table.new log.new ≡ with_item key bytes (tree_items table.old log.old) }
    ensures owner { log.new.owner ≡ log.old.owner }
    ensures edit { IsEdit table.old table.new (tree_reach table.old log.old) (tree_reach table.new log.new) }
    ensures current { AreCurrent table.new (tree_reach table.new log.new) }
    ensures sealed { (fsid : List ℕ) (was : ℕ) → IsSealedTree table.old log.old fsid was → (now : ℕ) × IsSealedTree table.new log.new fsid now }
    ensures blocks { room_of_tree table.new log.new ≡ room_of_tree table.old log.old }
    ensures buffers { spare_of_tree table.new log.new ≡ spare_of_tree table.old log.old }
    ensures room { (more : ℕ) → HasRoomFor table.old log.old (more + 1) → HasRoomFor table.new log.new more }
{
    let mut buffer = [0; MOST_ITEM_BYTES];
    let len = copy_data(table, other, &key, &mut buffer);
    put_item(table, log, key, &buffer[..len]);
}
