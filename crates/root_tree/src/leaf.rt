//! A leaf of root items.
ghost use Rattle.std.specs.Prelude.{◌≡◌, ◌≤◌, ◌<◌, ◌+◌, ◌++◌, ◌∷◌, [], length, slice_index_or, take};
ghost use Rattle.blk_base.specs.Trees.{ItemsRise};
ghost use Rattle.block_table.specs.Table.{free_blocks};
ghost use Rattle.tree_blocks.specs.Steps.{HasNewBytes, IsDirtyLeaf, IsSameBut, IsTakenAt, leaf_at};
ghost use Rattle.root_tree.specs.Roots.{root_entries, root_entry};

use blk_base::format::ROOT_ITEM_SIZE;
use blk_base::{Addr, Key};
use block_table::BlockTable;
use tree_blocks::{leaf_insert, new_leaf};
use volume_format::RootItem;

/// So many root items of 439 bytes, with headers of 25, stand in a leaf's 3995 bytes ("Leaf Node" of the on-disk format).
pub(crate) const ROOTS_IN_LEAF: usize = 8;

/// Puts a root item behind the others of a leaf, of which there are fewer than eight.
fn put_root(table: &mut BlockTable, at: Addr, place: usize, roots: &[(Key, RootItem)])
    requires within { place < length roots.now }
    requires few { place < ROOTS_IN_LEAF }
    requires rise { ItemsRise (root_entries roots.now) }
    requires leaf { IsDirtyLeaf table.old at.0 }
    requires before { leaf_at table.old at.0 ≡ root_entries (take place roots.now) }
    ensures items { leaf_at table.new at.0 ≡ root_entries (take (place + 1) roots.now) }
    ensures leaf { IsDirtyLeaf table.new at.0 }
    ensures kept { HasNewBytes table.old table.new at.0 }
    ensures others { IsSameBut table.old table.new (at.0 ∷ []) }
    ensures spare { table.new.spare ≡ table.old.spare }
    ensures free { free_blocks table.new ≡ free_blocks table.old }
{
    let (key, root) = &roots[place];
    let mut bytes = [0; ROOT_ITEM_SIZE];
    root.encode(&mut bytes);
    leaf_insert(table, at, place, *key, &bytes);
}

/// Makes a leaf of at most eight root items, and answers its byte address.
pub(crate) fn root_leaf(table: &mut BlockTable, roots: &[(Key, RootItem)]) -> Addr
    requires few { length roots.now ≤ ROOTS_IN_LEAF }
    requires rise { ItemsRise (root_entries roots.now) }
    requires spare { 1 ≤ table.old.spare }
    requires free { 1 ≤ free_blocks table.old }
    ensures items { leaf_at table.new result.0 ≡ root_entries roots.now }
    ensures leaf { IsDirtyLeaf table.new result.0 }
    ensures taken { IsTakenAt table.old table.new result.0 }
    ensures others { IsSameBut table.old table.new (result.0 ∷ []) }
    ensures spare { table.new.spare + 1 ≡ table.old.spare }
    ensures free { free_blocks table.new + 1 ≡ free_blocks table.old }
{
    let at = new_leaf(table);
    for place in 0..roots.len() {
        put_root(table, at, place, roots);
    }
    at
}
