ghost use Rattle.std.specs.Prelude.{◌≡◌, ◌+◌, ℕ, List, filter, length, not, nat_eq};
ghost use Rattle.std.specs.List.{list_any};
ghost use Rattle.blk_base.specs.Trees.{first_key};
ghost use Rattle.block_table.specs.TreeIn.{IsSealedTree};
ghost use Rattle.tree_range.specs.Between.{items_from};
ghost use Rattle.tree_range.specs.Shape.{IsTree, tree_items, tree_reach};
ghost use Rattle.tree_frame.specs.Frame.{AreCurrent, IsEdit};
ghost use Rattle.tree_check.specs.Items.{HaveKeys};
ghost use Rattle.log_edit.specs.Room.{HasRoomFor, room_of_tree, spare_of_tree};
ghost use Rattle.log_items.specs.Forgotten.{is_entry_to};

use blk_base::format::DIR_INDEX;
use blk_base::{Ino, Key};
use block_table::{BlockTable, Tree};
use item_dir::Entries;
use log_edit::delete_item;
use tree_range::range;

/// The lowest key of all.
const LOWEST: Key = Key {
    objectid: 0,
    kind: 0,
    offset: 0,
};

/// The highest key of all.
const HIGHEST: Key = Key {
    objectid: u64::MAX,
    kind: u8::MAX,
    offset: u64::MAX,
};

/// Whether one of these entries leads to the inode.
fn has_target(entries: Entries<'_>, ino: Ino) -> bool
    ensures { result ≡ list_any (λ entry. nat_eq entry.target.objectid ino.0) entries.entry }
{
    for entry in entries {
        if entry.target.objectid == ino.0 {
            return true;
        }
    }
    false
}

/// Whether an item is an entry of a directory that leads to the inode ("DIR_INDEX" of the on-disk format).
fn leads_to(key: &Key, bytes: &[u8], ino: Ino) -> bool
    ensures { result ≡ is_entry_to ino.0 (key.now, bytes.now) }
{
    if key.kind != DIR_INDEX {
        return false;
    }
    match Entries::open(DIR_INDEX, bytes) {
        Ok(entries) => has_target(entries, ino),
        Err(_) => false,
    }
}

/// The key of the first item from `first` on that is an entry to the inode; `None` where the tree has none there (own).
fn first_entry_to(table: &BlockTable, tree: &Tree, first: &Key, ino: Ino) -> Option<Key>
    requires tree { IsTree table.now tree.now }
    requires keys { HaveKeys (tree_items table.now tree.now) }
    ensures { result ≡ first_key (filter (is_entry_to ino.0) (items_from first.now (tree_items table.now tree.now))) }
{
    for (key, bytes) in range(table, tree, first, &HIGHEST) {
        if leads_to(&key, bytes, ino) {
            return Some(key);
        }
    }
    None
}

/// Takes the entries of directories that lead to an inode out of a log tree, one by one by rising keys.
pub(crate) fn delete_entries_to(table: &mut BlockTable, log: &mut Tree, ino: Ino)
    requires tree { IsTree table.old log.old }
    requires current { AreCurrent table.old (tree_reach table.old log.old) }
    requires keys { HaveKeys (tree_items table.old log.old) }
    requires room { HasRoomFor table.old log.old 0 }
    ensures tree { IsTree table.new log.new }
    ensures items { tree_items table.new log.new ≡ filter (λ item. not (is_entry_to ino.0 item)) (tree_items table.old log.old) }
    ensures owner { log.new.owner ≡ log.old.owner }
    ensures edit { IsEdit table.old table.new (tree_reach table.old log.old) (tree_reach table.new log.new) }
    ensures current { AreCurrent table.new (tree_reach table.new log.new) }
    ensures sealed { (fsid : List ℕ) (was : ℕ) → IsSealedTree table.old log.old fsid was → (now : ℕ) × IsSealedTree table.new log.new fsid now }
    ensures blocks { room_of_tree table.new log.new ≡ room_of_tree table.old log.old }
    ensures buffers { spare_of_tree table.new log.new ≡ spare_of_tree table.old log.old }
    ensures room { (was : ℕ) → HasRoomFor table.old log.old was
        → HasRoomFor table.new log.new (was + length (filter (is_entry_to ino.0) (tree_items table.old log.old))) }
{
    let mut first = LOWEST;
    while let Some(key) = first_entry_to(table, log, &first, ino) {
        delete_item(table, log, &key);
        first = key;
    }
}
