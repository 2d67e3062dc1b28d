ghost use Rattle.std.specs.Prelude.{◌≡◌, ◌≢◌, ◌≤◌, ◌<◌, ◌+◌, ◌*◌, ◌++◌, ◌∷◌, [], length, take, drop, insert, remove, true};
ghost use Rattle.blk_base.specs.Address.{IsAllowed};
ghost use Rattle.blk_base.specs.Bytes.{with_bytes};
ghost use Rattle.blk_base.specs.Keys.{keys_rise};
ghost use Rattle.blk_base.specs.Leaf.{data_of, room_of};
ghost use Rattle.leaf_view.specs.Search.{keys_of, IsPlace};
ghost use Rattle.leaf_edit.specs.Written.{data_at, with_data};
ghost use Rattle.block_table.specs.Slot.{free_slot};
ghost use Rattle.block_table.specs.Table.{free_blocks};
ghost use Rattle.block_table.specs.TreeIn.{block_at};
ghost use Rattle.tree_blocks.specs.Steps.{HasNewBytes, IsDirtyLeaf, IsSameBut, IsTakenAt, leaf_at};

use crate::fresh::fresh;
use crate::within_leaf::{insert_item, join_items, put_data, remove_item, split_items};
use blk_base::{Addr, Key};
use block_table::BlockTable;

/// Puts an item in at the place of a leaf where its key belongs, which `leaf_find` answers.
pub fn leaf_insert(table: &mut BlockTable, at: Addr, place: usize, key: Key, bytes: &[u8])
    requires leaf { IsDirtyLeaf table.old at.0 }
    requires order { IsPlace (keys_of (leaf_at table.old at.0)) key place }
    requires room { 25 + length bytes.now ≤ room_of (leaf_at table.old at.0) }
    ensures items { leaf_at table.new at.0 ≡ insert (leaf_at table.old at.0) place (key, bytes.now) }
    ensures leaf { IsDirtyLeaf table.new at.0 }
    ensures kept { HasNewBytes table.old table.new at.0 }
    ensures others { IsSameBut table.old table.new (at.0 ∷ []) }
    ensures spare { table.new.spare ≡ table.old.spare }
    ensures free { free_blocks table.new ≡ free_blocks table.old }
{
    insert_item(table.block_mut(at), place, key, bytes);
}

/// Takes the item at a place of a leaf out.
pub fn leaf_remove(table: &mut BlockTable, at: Addr, place: usize)
    requires leaf { IsDirtyLeaf table.old at.0 }
    requires within { place < length (leaf_at table.old at.0) }
    ensures items { leaf_at table.new at.0 ≡ remove (leaf_at table.old at.0) place }
    ensures leaf { IsDirtyLeaf table.new at.0 }
    ensures kept { HasNewBytes table.old table.new at.0 }
    ensures others { IsSameBut table.old table.new (at.0 ∷ []) }
    ensures spare { table.new.spare ≡ table.old.spare }
    ensures free { free_blocks table.new ≡ free_blocks table.old }
{
    remove_item(table.block_mut(at), place);
}

/// Writes bytes over a part of the data of the item at a place of a leaf, from a byte of the data on.
pub fn leaf_put_data(table: &mut BlockTable, at: Addr, place: usize, from: usize, bytes: &[u8])
    requires leaf { IsDirtyLeaf table.old at.0 }
    requires within { place < length (leaf_at table.old at.0) }
    requires inside { from + length bytes.now ≤ length (data_at (leaf_at table.old at.0) place) }
    ensures items { leaf_at table.new at.0 ≡ with_data (leaf_at table.old at.0) place (with_bytes (data_at (leaf_at table.old at.0) place) from bytes.now) }
    ensures leaf { IsDirtyLeaf table.new at.0 }
    ensures kept { HasNewBytes table.old table.new at.0 }
    ensures others { IsSameBut table.old table.new (at.0 ∷ []) }
    ensures spare { table.new.spare ≡ table.old.spare }
    ensures free { free_blocks table.new ≡ free_blocks table.old }
{
    put_data(table.block_mut(at), place, from, bytes);
}

/// Moves the items of a leaf from a place on to a new leaf, and answers its byte address.
pub fn leaf_split(table: &mut BlockTable, at: Addr, place: usize) -> Addr
    requires leaf { IsDirtyLeaf table.old at.0 }
    requires within { place ≤ length (leaf_at table.old at.0) }
    requires spare { 1 ≤ table.old.spare }
    requires free { 1 ≤ free_blocks table.old }
    ensures front { leaf_at table.new at.0 ≡ take place (leaf_at table.old at.0) }
    ensures back { leaf_at table.new result.0 ≡ drop place (leaf_at table.old at.0) }
    ensures leaf { IsDirtyLeaf table.new at.0 }
    ensures other_leaf { IsDirtyLeaf table.new result.0 }
    ensures taken { IsTakenAt table.old table.new result.0 }
    ensures kept { HasNewBytes table.old table.new at.0 }
    ensures others { IsSameBut table.old table.new (at.0 ∷ result.0 ∷ []) }
    ensures spare { table.new.spare + 1 ≡ table.old.spare }
    ensures free { free_blocks table.new + 1 ≡ free_blocks table.old }
{
    let mut back = [0; 4096];
    split_items(table.block_mut(at), &mut back, place);
    fresh(table, &back)
}

/// Moves the items of a leaf behind the last one of another leaf, and lets the emptied block go, which is Free then.
pub fn leaf_join(table: &mut BlockTable, left: Addr, right: Addr)
    requires leaf { IsDirtyLeaf table.old left.0 }
    requires other_leaf { IsDirtyLeaf table.old right.0 }
    requires apart { left ≢ right }
    requires allowed { IsAllowed (length table.old.slots) right.0 }
    requires room { 25 * length (leaf_at table.old right.0) + data_of (leaf_at table.old right.0) ≤ room_of (leaf_at table.old left.0) }
    requires order { keys_rise (keys_of (leaf_at table.old left.0 ++ leaf_at table.old right.0)) ≡ true }
    ensures items { leaf_at table.new left.0 ≡ leaf_at table.old left.0 ++ leaf_at table.old right.0 }
    ensures leaf { IsDirtyLeaf table.new left.0 }
    ensures kept { HasNewBytes table.old table.new left.0 }
    ensures let_go { block_at table.new right.0 ≡ free_slot }
    ensures others { IsSameBut table.old table.new (left.0 ∷ right.0 ∷ []) }
    ensures spare { table.new.spare ≡ table.old.spare + 1 }
    ensures free { free_blocks table.new ≡ free_blocks table.old + 1 }
{
    let mut back = *table.block(right);
    join_items(table.block_mut(left), &mut back);
    table.let_go(right);
}
