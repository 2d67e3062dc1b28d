//! Which names the ranges of a log drop, and which of the committed names replay keeps.
ghost use Rattle.std.specs.Prelude.{◌≡◌, [], nat_le};
ghost use Rattle.std.specs.List.{list_any};
ghost use Rattle.blk_base.specs.Entries.{entries_of};
ghost use Rattle.blk_base.specs.Keys.{dir_index};
ghost use Rattle.log_image.specs.LogItems.{entries_in, ranges_in, read_or};
ghost use Rattle.logged_volume.specs.FlatLog.{has_entry, is_covered};
ghost use Rattle.tree_range.specs.Shape.{IsTree, tree_items};
ghost use Rattle.recovered_view.specs.Kept.{does_reach, is_entry_to, is_kept, name_of_parts};
ghost use Rattle.recovered_view.specs.Log.{IsLogAt, log_said};

use crate::logged::is_logged;
use blk_base::Key;
use blk_base::format::{DIR_INDEX, DIR_LOG_INDEX};
use block_table::{BlockTable, Tree};
use item_dir::{DirRange, Entries};
use tree_range::range;

/// Whether the range of an item reaches an index.
fn does_reach(bytes: &[u8], index: u64) -> bool
    ensures { result ≡ does_reach index bytes.now }
{
    match DirRange::decode(bytes) {
        Ok(last) => index <= last,
        Err(_) => index == 0,
    }
}

/// Whether a range of the log covers an index of a directory: the items of its ranges that begin there or before
/// ("DIR_LOG_INDEX").
fn is_covered(table: &BlockTable, log: &Tree, dir: u64, index: u64) -> bool
    requires { IsTree table.now log.now }
    ensures { result ≡ is_covered (ranges_in (tree_items table.now log.now)) dir index }
{
    let first = Key {
        objectid: dir,
        kind: DIR_LOG_INDEX,
        offset: 0,
    };
    let last = Key {
        offset: index,
        ..first
    };
    for (_key, bytes) in range(table, log, &first, &last) {
        if does_reach(bytes, index) {
            return true;
        }
    }
    false
}

/// Whether one of these entries has a name and leads to an inode.
fn has_entry_to(entries: Entries<'_>, name: &[u8], ino: u64) -> bool
    ensures { result ≡ list_any (is_entry_to name.now ino) entries.entry }
{
    for entry in entries {
        if entry.name == name && entry.target.objectid == ino {
            return true;
        }
    }
    false
}

/// Whether an item of an index says that a name leads to an inode.
fn does_say(bytes: &[u8], name: &[u8], ino: u64) -> bool
    ensures { result ≡ list_any (is_entry_to name.now ino) (read_or [] (entries_of dir_index bytes.now)) }
{
    match Entries::open(DIR_INDEX, bytes) {
        Ok(entries) => has_entry_to(entries, name, ino),
        Err(_) => false,
    }
}

/// Whether the log has the entry of a name: a search for its index ("DIR_INDEX").
fn has_entry(table: &BlockTable, log: &Tree, dir: u64, index: u64, name: &[u8], ino: u64) -> bool
    requires { IsTree table.now log.now }
    ensures { result ≡ has_entry (entries_in (tree_items table.now log.now)) (name_of_parts dir index name.now ino) }
{
    let key = Key {
        objectid: dir,
        kind: DIR_INDEX,
        offset: index,
    };
    for (_key, bytes) in range(table, log, &key, &key) {
        if does_say(bytes, name, ino) {
            return true;
        }
    }
    false
}

/// Whether replay keeps a name of the committed subvolume: its inode isn't in the log, and no range drops it (after
/// replay_dir_deletes of fs/btrfs/tree-log.c).
pub(crate) fn is_kept(
    table: &BlockTable,
    log: Option<Tree>,
    dir: u64,
    index: u64,
    name: &[u8],
    ino: u64,
) -> bool
    requires { IsLogAt table.now log (log_said table.now log) }
    ensures { result ≡ is_kept (log_said table.now log) (name_of_parts dir index name.now ino) }
{
    match log {
        Some(tree) => {
            !(is_covered(table, &tree, dir, index)
                && !has_entry(table, &tree, dir, index, name, ino))
                && !is_logged(table, &tree, ino)
        }
        None => true,
    }
}
