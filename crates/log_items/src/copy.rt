ghost use Rattle.std.specs.Prelude.{◌≡◌, ◌≤◌, ◌+◌, ℕ, List, [], None, IsSome, length, take, false};
ghost use Rattle.blk_base.specs.Keys.{key_below};
ghost use Rattle.blk_base.specs.Trees.{AreApart, first_key};
ghost use Rattle.block_table.specs.TreeIn.{IsSealedTree};
ghost use Rattle.tree_range.specs.Between.{data_under, items_between};
ghost use Rattle.tree_range.specs.Shape.{AreAlike, IsTree, tree_items, tree_reach};
ghost use Rattle.tree_frame.specs.Frame.{AreCurrent, IsEdit, with_item};
ghost use Rattle.log_edit.specs.Room.{HasRoomFor, count_between, room_of_tree, spare_of_tree};
ghost use Rattle.log_items.specs.Copied.{bytes_under, items_behind, with_range};

use blk_base::format::MOST_ITEM_BYTES;
use blk_base::{Key, put_bytes};
use block_table::{BlockTable, Tree};
use log_edit::{delete_items, put_item};
use tree_range::{get, range};

/// Copies the bytes under a key to the front, and tells how many they are.
fn read_item(table: &BlockTable, tree: &Tree, key: &Key, into: &mut [u8; MOST_ITEM_BYTES]) -> usize
    requires tree { IsTree table.now tree.now }
    ensures short { result ≤ MOST_ITEM_BYTES }
    ensures front { take result into.new ≡ bytes_under key.now (tree_items table.now tree.now) }
{
    match get(table, tree, key) {
        Some(bytes) => {
            put_bytes(into, 0, bytes);
            bytes.len()
        }
        None => 0,
    }
}

/// Puts an item of another tree, with the bytes that it has there, into a log's tree, which hasn't it.
fn copy_item(table: &mut BlockTable, log: &mut Tree, from: &Tree, key: Key)
    requires tree { IsTree table.old log.old }
    requires current { AreCurrent table.old (tree_reach table.old log.old) }
    requires from { IsTree table.old from.now }
    requires absent { data_under key (tree_items table.old log.old) ≡ None }
    requires room { HasRoomFor table.old log.old 1 }
    ensures tree { IsTree table.new log.new }
    ensures items { tree_items table.new log.new ≡ with_item key (bytes_under key (tree_items table.old from.now)) (tree_items table.old log.old) }
    ensures owner { log.new.owner ≡ log.old.owner }
    ensures edit { IsEdit table.old table.new (tree_reach table.old log.old) (tree_reach table.new log.new) }
    ensures current { AreCurrent table.new (tree_reach table.new log.new) }
    ensures sealed { (fsid : List ℕ) (was : ℕ) → IsSealedTree table.old log.old fsid was → (now : ℕ) × IsSealedTree table.new log.new fsid now }
    ensures blocks { room_of_tree table.new log.new ≡ room_of_tree table.old log.old }
    ensures buffers { spare_of_tree table.new log.new ≡ spare_of_tree table.old log.old }
{
    let mut bytes = [0; MOST_ITEM_BYTES];
    let count = read_item(table, from, &key, &mut bytes);
    put_item(table, log, key, &bytes[..count]);
}

/// The key of the first item from `first` to `last`, both included; `None` where the tree has none (own).
fn first_between(table: &BlockTable, tree: &Tree, first: &Key, last: &Key) -> Option<Key>
    requires { IsTree table.now tree.now }
    ensures { result ≡ first_key (items_between first.now last.now (tree_items table.now tree.now)) }
{
    match range(table, tree, first, last).next() {
        Some((key, _)) => Some(key),
        None => None,
    }
}

/// The key of the first item behind a key up to `last`, which is included; `None` where the tree has none (own).
fn first_behind(table: &BlockTable, tree: &Tree, before: &Key, last: &Key) -> Option<Key>
    requires { IsTree table.now tree.now }
    ensures { result ≡ first_key (items_behind before.now last.now (tree_items table.now tree.now)) }
{
    for (key, _) in range(table, tree, before, last) {
        if *before < key {
            return Some(key);
        }
    }
    None
}

/// Copies the items of another tree whose keys are from `first` to `last`, both included, byte for byte into a log's tree
/// that has none there, one by one by rising keys ("copy_items" of fs/btrfs/tree-log.c). The two trees share no block.
fn copy_items(table: &mut BlockTable, log: &mut Tree, from: &Tree, first: &Key, last: &Key)
    requires tree { IsTree table.old log.old }
    requires current { AreCurrent table.old (tree_reach table.old log.old) }
    requires from { IsTree table.old from.now }
    requires apart { AreApart (tree_reach table.old log.old) (tree_reach table.old from.now) }
    requires order { key_below last.now first.now ≡ false }
    requires none { items_between first.now last.now (tree_items table.old log.old) ≡ [] }
    requires room { HasRoomFor table.old log.old (count_between first.now last.now table.old from.now) }
    ensures tree { IsTree table.new log.new }
    ensures items { tree_items table.new log.new
        ≡ with_range first.now last.now (items_between first.now last.now (tree_items table.old from.now)) (tree_items table.old log.old) }
    ensures owner { log.new.owner ≡ log.old.owner }
    ensures edit { IsEdit table.old table.new (tree_reach table.old log.old) (tree_reach table.new log.new) }
    ensures current { AreCurrent table.new (tree_reach table.new log.new) }
    ensures from { AreAlike table.old table.new (tree_reach table.old from.now) }
    ensures sealed { (fsid : List ℕ) (was : ℕ) → IsSealedTree table.old log.old fsid was → (now : ℕ) × IsSealedTree table.new log.new fsid now }
    ensures blocks { room_of_tree table.new log.new ≡ room_of_tree table.old log.old }
    ensures buffers { spare_of_tree table.new log.new ≡ spare_of_tree table.old log.old }
{
    let mut next = first_between(table, from, first, last);
    while let Some(key) = next {
        copy_item(table, log, from, key);
        next = first_behind(table, from, &key, last);
    }
}

/// Makes the items of a log's tree whose keys are from `first` to `last`, both included, those that another tree has there,
/// byte for byte. The two trees share no block.
pub(crate) fn write_range(
    table: &mut BlockTable,
    log: &mut Tree,
    from: &Tree,
    first: &Key,
    last: &Key,
)
    requires tree { IsTree table.old log.old }
    requires current { AreCurrent table.old (tree_reach table.old log.old) }
    requires from { IsTree table.old from.now }
    requires apart { AreApart (tree_reach table.old log.old) (tree_reach table.old from.now) }
    requires order { key_below last.now first.now ≡ false }
    requires room { HasRoomFor table.old log.old (count_between first.now last.now table.old from.now) }
    ensures tree { IsTree table.new log.new }
    ensures items { tree_items table.new log.new
        ≡ with_range first.now last.now (items_between first.now last.now (tree_items table.old from.now)) (tree_items table.old log.old) }
    ensures owner { log.new.owner ≡ log.old.owner }
    ensures edit { IsEdit table.old table.new (tree_reach table.old log.old) (tree_reach table.new log.new) }
    ensures current { AreCurrent table.new (tree_reach table.new log.new) }
    ensures from { AreAlike table.old table.new (tree_reach table.old from.now) }
    ensures sealed { (fsid : List ℕ) (was : ℕ) → IsSealedTree table.old log.old fsid was → (now : ℕ) × IsSealedTree table.new log.new fsid now }
    ensures blocks { room_of_tree table.new log.new ≡ room_of_tree table.old log.old }
    ensures buffers { spare_of_tree table.new log.new ≡ spare_of_tree table.old log.old }
{
    delete_items(table, log, first, last);
    copy_items(table, log, from, first, last);
}
