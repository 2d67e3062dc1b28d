//! The indexes of a directory in two trees, read in place.
ghost use Rattle.std.specs.Prelude.{◌≡◌, ◌≤◌, [], is_some, option_map};
ghost use Rattle.std.specs.List.{find};
ghost use Rattle.blk_base.specs.Entries.{entries_of};
ghost use Rattle.blk_base.specs.Keys.{dir_index};
ghost use Rattle.blk_base.specs.Trees.{first_key};
ghost use Rattle.item_dir.specs.Entry.{entry_view};
ghost use Rattle.log_image.specs.LogItems.{read_or};
ghost use Rattle.tree_range.specs.Shape.{IsTree, tree_items};
ghost use Rattle.volume_image.specs.Subvolume.{make_key};
ghost use Rattle.dir_ranges.specs.Indexes.{are_alike, entry_at, first_of, index_of, indexes_between, is_unchanged, last_index};

use blk_base::format::DIR_INDEX;
use blk_base::{Ino, Key};
use block_table::{BlockTable, Tree};
use item_dir::{Entries, Entry};
use tree_range::{get, range};

/// The key of a directory's index ("DIR_INDEX" of the on-disk format).
pub(crate) fn index_key(dir: Ino, index: u64) -> Key
    ensures { result ≡ make_key dir.0 dir_index index }
{
    Key {
        objectid: dir.0,
        kind: DIR_INDEX,
        offset: index,
    }
}

/// Whether a tree has an index of a directory from the first to the last, both included.
pub(crate) fn has_index(table: &BlockTable, tree: &Tree, dir: Ino, first: u64, last: u64) -> bool
    requires { IsTree table.now tree.now }
    ensures { result ≡ is_some (first_key (indexes_between dir.0 first last (tree_items table.now tree.now))) }
{
    let first = index_key(dir, first);
    let last = index_key(dir, last);
    range(table, tree, &first, &last).next().is_some()
}

/// The entry of an item at an index; `None` where it can't be read.
fn entry_at(bytes: &[u8]) -> Option<Entry<'_>>
    ensures { option_map entry_view result ≡ entry_at bytes.now }
{
    match Entries::open(DIR_INDEX, bytes) {
        Ok(mut entries) => entries.next(),
        Err(_) => None,
    }
}

/// Whether two items at an index have one name that leads to one inode.
fn are_alike(one: &[u8], other: &[u8]) -> bool
    ensures { result ≡ are_alike (entry_at one.now) (entry_at other.now) }
{
    match entry_at(one) {
        Some(first) => match entry_at(other) {
            Some(second) => {
                first.name == second.name && first.target.objectid == second.target.objectid
            }
            None => false,
        },
        None => false,
    }
}

/// Whether a tree says the same under the key of an index.
fn is_unchanged(table: &BlockTable, current: &Tree, key: &Key, bytes: &[u8]) -> bool
    requires { IsTree table.now current.now }
    ensures { result ≡ is_unchanged (tree_items table.now current.now) (key.now, bytes.now) }
{
    match get(table, current, key) {
        Some(other) => are_alike(bytes, other),
        None => false,
    }
}

/// The first index of a directory, from one on, at which both trees say the same; `None` where there is none.
pub(crate) fn next_unchanged(
    table: &BlockTable,
    committed: &Tree,
    current: &Tree,
    dir: Ino,
    first: u64,
) -> Option<u64>
    requires committed { IsTree table.now committed.now }
    requires current { IsTree table.now current.now }
    ensures { result ≡ option_map index_of (find (is_unchanged (tree_items table.now current.now))
        (indexes_between dir.0 first last_index (tree_items table.now committed.now))) }
{
    let from = index_key(dir, first);
    let last = index_key(dir, u64::MAX);
    for (key, bytes) in range(table, committed, &from, &last) {
        if is_unchanged(table, current, &key, bytes) {
            return Some(key.offset);
        }
    }
    None
}
