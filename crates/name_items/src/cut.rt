//! The entries of a name cut out of the items of its inode and of its directory.
ghost use Rattle.std.specs.Prelude.{◌≡◌, ◌≤◌, ◌≢◌, List, Contains, length};
ghost use Rattle.blk_base.specs.Entries.{EntryValue, ExtRefValue, IsEntries, IsExtRefs, IsRefs, RefValue, entry_bytes, extref_bytes, ref_bytes};
ghost use Rattle.blk_base.specs.Keys.{dir_item};
ghost use Rattle.block_table.specs.Table.{free_blocks};
ghost use Rattle.tree_range.specs.Between.{data_under};
ghost use Rattle.tree_range.specs.Shape.{IsTree, tree_items, tree_reach};
ghost use Rattle.tree_frame.specs.Frame.{AreCurrent, TakesAtMost};
ghost use Rattle.item_edit.specs.ItemEdit.{bytes_under};
ghost use Rattle.name_items.specs.Places.{CutsEntry, HasPlace, IsEntryNamed, IsFarNamed, IsRefNamed};

use crate::entry::NameEntry;
use crate::place::{entry_place, far_place, near_place};
use blk_base::Key;
use blk_base::format::DIR_ITEM;
use block_table::{BlockTable, Tree};
use cow_tree::get;
use item_dir::Entries;
use item_edit::cut_bytes;
use item_inode::{ExtRefs, Refs};

/// Where a near name lies in the item of its inode.
fn near_place_in(table: &BlockTable, tree: &Tree, key: &Key, name: &NameEntry<'_>) -> (usize, usize)
    requires tree { IsTree table.now tree.now }
    requires there { (found : List RefValue) × IsRefs key.now (bytes_under key.now (tree_items table.now tree.now)) found × (entry : RefValue) × Contains found entry × IsRefNamed name.now.bytes.now entry }
    requires short { length (bytes_under key.now (tree_items table.now tree.now)) ≤ 3970 }
    ensures { (found : List RefValue) → IsRefs key.now (bytes_under key.now (tree_items table.now tree.now)) found → HasPlace ref_bytes (IsRefNamed name.now.bytes.now) found result.0 result.1 }
{
    match get(table, tree, key) {
        Some(bytes) => match Refs::open(key, bytes) {
            Ok(refs) => near_place(refs, name.bytes),
            Err(_) => unreachable!(),
        },
        None => unreachable!(),
    }
}

/// Where a far name lies in the item of its inode.
fn far_place_in(table: &BlockTable, tree: &Tree, key: &Key, name: &NameEntry<'_>) -> (usize, usize)
    requires tree { IsTree table.now tree.now }
    requires there { (found : List ExtRefValue) × IsExtRefs (bytes_under key.now (tree_items table.now tree.now)) found × (entry : ExtRefValue) × Contains found entry × IsFarNamed name.now.dir.0 name.now.bytes.now entry }
    requires short { length (bytes_under key.now (tree_items table.now tree.now)) ≤ 3970 }
    ensures { (found : List ExtRefValue) → IsExtRefs (bytes_under key.now (tree_items table.now tree.now)) found → HasPlace extref_bytes (IsFarNamed name.now.dir.0 name.now.bytes.now) found result.0 result.1 }
{
    match get(table, tree, key) {
        Some(bytes) => match ExtRefs::open(bytes) {
            Ok(refs) => far_place(refs, name.dir, name.bytes),
            Err(_) => unreachable!(),
        },
        None => unreachable!(),
    }
}

/// Where a name's entry lies in the item of its directory.
fn entry_place_in(
    table: &BlockTable,
    tree: &Tree,
    key: &Key,
    name: &NameEntry<'_>,
) -> (usize, usize)
    requires tree { IsTree table.now tree.now }
    requires there { (found : List EntryValue) × IsEntries dir_item (bytes_under key.now (tree_items table.now tree.now)) found × (entry : EntryValue) × Contains found entry × IsEntryNamed name.now.bytes.now entry }
    requires short { length (bytes_under key.now (tree_items table.now tree.now)) ≤ 3970 }
    ensures { (found : List EntryValue) → IsEntries dir_item (bytes_under key.now (tree_items table.now tree.now)) found → HasPlace entry_bytes (IsEntryNamed name.now.bytes.now) found result.0 result.1 }
{
    match get(table, tree, key) {
        Some(bytes) => match Entries::open(DIR_ITEM, bytes) {
            Ok(entries) => entry_place(entries, name.bytes),
            Err(_) => unreachable!(),
        },
        None => unreachable!(),
    }
}

/// Cuts a near name out of the item of its inode.
pub(crate) fn cut_near(table: &mut BlockTable, tree: &mut Tree, key: Key, name: &NameEntry<'_>)
    requires tree { IsTree table.old tree.old }
    requires current { AreCurrent table.old (tree_reach table.old tree.old) }
    requires there { (found : List RefValue) × IsRefs key (bytes_under key (tree_items table.old tree.old)) found × (entry : RefValue) × Contains found entry × IsRefNamed name.now.bytes.now entry }
    requires short { length (bytes_under key (tree_items table.old tree.old)) ≤ 3970 }
    requires spare { 17 ≤ table.old.spare }
    requires free { 17 ≤ free_blocks table.old }
    ensures cut { (found : List RefValue) → IsRefs key (bytes_under key (tree_items table.old tree.old)) found → CutsEntry ref_bytes (IsRefNamed name.now.bytes.now) found table.old table.new tree.old tree.new key }
    ensures tree { IsTree table.new tree.new }
    ensures current { AreCurrent table.new (tree_reach table.new tree.new) }
    ensures taken { TakesAtMost table.old table.new 17 }
    ensures others { (other : Key) → other ≢ key → data_under other (tree_items table.new tree.new) ≡ data_under other (tree_items table.old tree.old) }
{
    let (from, to) = near_place_in(table, tree, &key, name);
    cut_bytes(table, tree, key, from, to);
}

/// Cuts a far name out of the item of its inode.
pub(crate) fn cut_far(table: &mut BlockTable, tree: &mut Tree, key: Key, name: &NameEntry<'_>)
    requires tree { IsTree table.old tree.old }
    requires current { AreCurrent table.old (tree_reach table.old tree.old) }
    requires there { (found : List ExtRefValue) × IsExtRefs (bytes_under key (tree_items table.old tree.old)) found × (entry : ExtRefValue) × Contains found entry × IsFarNamed name.now.dir.0 name.now.bytes.now entry }
    requires short { length (bytes_under key (tree_items table.old tree.old)) ≤ 3970 }
    requires spare { 17 ≤ table.old.spare }
    requires free { 17 ≤ free_blocks table.old }
    ensures cut { (found : List ExtRefValue) → IsExtRefs (bytes_under key (tree_items table.old tree.old)) found → CutsEntry extref_bytes (IsFarNamed name.now.dir.0 name.now.bytes.now) found table.old table.new tree.old tree.new key }
    ensures tree { IsTree table.new tree.new }
    ensures current { AreCurrent table.new (tree_reach table.new tree.new) }
    ensures taken { TakesAtMost table.old table.new 17 }
    ensures others { (other : Key) → other ≢ key → data_under other (tree_items table.new tree.new) ≡ data_under other (tree_items table.old tree.old) }
{
    let (from, to) = far_place_in(table, tree, &key, name);
    cut_bytes(table, tree, key, from, to);
}

/// Cuts a name's entry out of the item of its directory.
pub(crate) fn cut_hashed(table: &mut BlockTable, tree: &mut Tree, key: Key, name: &NameEntry<'_>)
    requires tree { IsTree table.old tree.old }
    requires current { AreCurrent table.old (tree_reach table.old tree.old) }
    requires there { (found : List EntryValue) × IsEntries dir_item (bytes_under key (tree_items table.old tree.old)) found × (entry : EntryValue) × Contains found entry × IsEntryNamed name.now.bytes.now entry }
    requires short { length (bytes_under key (tree_items table.old tree.old)) ≤ 3970 }
    requires spare { 17 ≤ table.old.spare }
    requires free { 17 ≤ free_blocks table.old }
    ensures cut { (found : List EntryValue) → IsEntries dir_item (bytes_under key (tree_items table.old tree.old)) found → CutsEntry entry_bytes (IsEntryNamed name.now.bytes.now) found table.old table.new tree.old tree.new key }
    ensures tree { IsTree table.new tree.new }
    ensures current { AreCurrent table.new (tree_reach table.new tree.new) }
    ensures taken { TakesAtMost table.old table.new 17 }
    ensures others { (other : Key) → other ≢ key → data_under other (tree_items table.new tree.new) ≡ data_under other (tree_items table.old tree.old) }
{
    let (from, to) = entry_place_in(table, tree, &key, name);
    cut_bytes(table, tree, key, from, to);
}
