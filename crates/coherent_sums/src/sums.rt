//! Sums over the items of one type of an inode.
ghost use Rattle.std.specs.Prelude.{◌≡◌, ◌↔◌, IsTrue, filter, sum_by};
ghost use Rattle.blk_base.specs.Keys.{dir_index, extent_data};
ghost use Rattle.tree_check.specs.Items.{HaveKeys};
ghost use Rattle.tree_range.specs.Shape.{IsTree, tree_items};
ghost use Rattle.coherent_sums.specs.Sums.{index_bytes, is_of, run_bytes, target_bytes};

use crate::amounts::{run_len, target_len, without_names};
use blk_base::format::{DIR_INDEX, EXTENT_DATA};
use blk_base::{Ino, Key};
use block_table::{BlockTable, Tree};
use tree_range::{Range, range};

/// The items of one type of an inode, by rising offsets.
pub fn items_of<'t>(table: &'t BlockTable, tree: &Tree, kind: u8, ino: Ino) -> Range<'t>
    requires tree { IsTree table.now tree.now }
    requires keys { HaveKeys (tree_items table.now tree.now) }
    ensures { result ≡ filter (is_of kind ino.0) (tree_items table.now tree.now) }
{
    let first = Key {
        objectid: ino.0,
        kind,
        offset: 0,
    };
    let last = Key {
        objectid: ino.0,
        kind,
        offset: u64::MAX,
    };
    range(table, tree, &first, &last)
}

/// Whether the extents of a file cover this many bytes ("INODE_ITEM" of the Btrfs on-disk format: nbytes).
pub fn runs_add_up(table: &BlockTable, tree: &Tree, ino: Ino, nbytes: u64) -> bool
    requires tree { IsTree table.now tree.now }
    requires keys { HaveKeys (tree_items table.now tree.now) }
    ensures { IsTrue result ↔ (sum_by run_bytes (filter (is_of extent_data ino.0) (tree_items table.now tree.now)) ≡ nbytes) }
{
    let mut left = nbytes;
    for (key, bytes) in items_of(table, tree, EXTENT_DATA, ino) {
        match left.checked_sub(run_len(&key, bytes)) {
            Some(rest) => left = rest,
            None => return false,
        }
    }
    left == 0
}

/// Whether the target of a symlink has this many bytes ("INODE_ITEM" of the Btrfs on-disk format: size).
pub fn target_adds_up(table: &BlockTable, tree: &Tree, ino: Ino, size: u64) -> bool
    requires tree { IsTree table.now tree.now }
    requires keys { HaveKeys (tree_items table.now tree.now) }
    ensures { IsTrue result ↔ (sum_by target_bytes (filter (is_of extent_data ino.0) (tree_items table.now tree.now)) ≡ size) }
{
    let mut left = size;
    for (key, bytes) in items_of(table, tree, EXTENT_DATA, ino) {
        match left.checked_sub(target_len(&key, bytes)) {
            Some(rest) => left = rest,
            None => return false,
        }
    }
    left == 0
}

/// Whether the names in the index of a directory have this many bytes ("DIR_INDEX" of the Btrfs on-disk format).
pub fn index_names_add_up(table: &BlockTable, tree: &Tree, dir: Ino, length: u64) -> bool
    requires tree { IsTree table.now tree.now }
    requires keys { HaveKeys (tree_items table.now tree.now) }
    ensures { IsTrue result ↔ (sum_by index_bytes (filter (is_of dir_index dir.0) (tree_items table.now tree.now)) ≡ length) }
{
    let mut left = length;
    for (_, bytes) in items_of(table, tree, DIR_INDEX, dir) {
        match without_names(bytes, left) {
            Some(rest) => left = rest,
            None => return false,
        }
    }
    left == 0
}
