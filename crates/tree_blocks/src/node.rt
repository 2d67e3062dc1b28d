ghost use Rattle.std.specs.Prelude.{◌≡◌, ◌≢◌, ◌≤◌, ◌<◌, ◌+◌, ◌++◌, ◌∷◌, [], length, take, drop, insert, remove, true};
ghost use Rattle.blk_base.specs.Address.{IsAllowed};
ghost use Rattle.blk_base.specs.Keys.{keys_rise};
ghost use Rattle.leaf_view.specs.Search.{pointer_keys, IsPlace};
ghost use Rattle.node_edit.specs.Pointers.{with_child};
ghost use Rattle.block_table.specs.Slot.{free_slot};
ghost use Rattle.block_table.specs.Table.{free_blocks};
ghost use Rattle.block_table.specs.TreeIn.{block_at};
ghost use Rattle.tree_blocks.specs.Steps.{HasNewBytes, IsDirtyNode, IsSameBut, IsTakenAt, node_at};

use crate::fresh::fresh;
use crate::within_node::{
    insert_pointer, join_pointers, remove_pointer, set_pointer, split_pointers,
};
use blk_base::format::MOST_POINTERS;
use blk_base::{Addr, Key};
use block_table::BlockTable;

/// Puts a pointer in at the place of a node where its key belongs, which `node_find` answers: a child's first key, its
/// byte address and its generation.
pub fn node_insert(
    table: &mut BlockTable,
    at: Addr,
    place: usize,
    key: Key,
    child: Addr,
    generation: u64,
)
    requires node { IsDirtyNode table.old at.0 }
    requires order { IsPlace (pointer_keys (node_at table.old at.0)) key place }
    requires room { length (node_at table.old at.0) < MOST_POINTERS }
    ensures pointers { node_at table.new at.0 ≡ insert (node_at table.old at.0) place (record { key = key; at = child.0; generation = generation }) }
    ensures node { IsDirtyNode table.new at.0 }
    ensures kept { HasNewBytes table.old table.new at.0 }
    ensures others { IsSameBut table.old table.new (at.0 ∷ []) }
    ensures spare { table.new.spare ≡ table.old.spare }
    ensures free { free_blocks table.new ≡ free_blocks table.old }
{
    insert_pointer(table.block_mut(at), place, key, child, generation);
}

/// Takes the pointer at a place of a node out, where it isn't the only one.
pub fn node_remove(table: &mut BlockTable, at: Addr, place: usize)
    requires node { IsDirtyNode table.old at.0 }
    requires within { place < length (node_at table.old at.0) }
    requires least { 2 ≤ length (node_at table.old at.0) }
    ensures pointers { node_at table.new at.0 ≡ remove (node_at table.old at.0) place }
    ensures node { IsDirtyNode table.new at.0 }
    ensures kept { HasNewBytes table.old table.new at.0 }
    ensures others { IsSameBut table.old table.new (at.0 ∷ []) }
    ensures spare { table.new.spare ≡ table.old.spare }
    ensures free { free_blocks table.new ≡ free_blocks table.old }
{
    remove_pointer(table.block_mut(at), place);
}

/// Changes the byte address and the generation of the pointer at a place of a node, and leaves its key.
pub fn node_set_child(table: &mut BlockTable, at: Addr, place: usize, child: Addr, generation: u64)
    requires node { IsDirtyNode table.old at.0 }
    requires within { place < length (node_at table.old at.0) }
    ensures pointers { node_at table.new at.0 ≡ with_child (node_at table.old at.0) place child.0 generation }
    ensures node { IsDirtyNode table.new at.0 }
    ensures kept { HasNewBytes table.old table.new at.0 }
    ensures others { IsSameBut table.old table.new (at.0 ∷ []) }
    ensures spare { table.new.spare ≡ table.old.spare }
    ensures free { free_blocks table.new ≡ free_blocks table.old }
{
    set_pointer(table.block_mut(at), place, child, generation);
}

/// Moves the pointers of a node from a place on to a new node, and answers its byte address. Each has one at least.
pub fn node_split(table: &mut BlockTable, at: Addr, place: usize) -> Addr
    requires node { IsDirtyNode table.old at.0 }
    requires least { 1 ≤ place }
    requires within { place < length (node_at table.old at.0) }
    requires spare { 1 ≤ table.old.spare }
    requires free { 1 ≤ free_blocks table.old }
    ensures front { node_at table.new at.0 ≡ take place (node_at table.old at.0) }
    ensures back { node_at table.new result.0 ≡ drop place (node_at table.old at.0) }
    ensures node { IsDirtyNode table.new at.0 }
    ensures other_node { IsDirtyNode table.new result.0 }
    ensures taken { IsTakenAt table.old table.new result.0 }
    ensures kept { HasNewBytes table.old table.new at.0 }
    ensures others { IsSameBut table.old table.new (at.0 ∷ result.0 ∷ []) }
    ensures spare { table.new.spare + 1 ≡ table.old.spare }
    ensures free { free_blocks table.new + 1 ≡ free_blocks table.old }
{
    let mut back = [0; 4096];
    split_pointers(table.block_mut(at), &mut back, place);
    fresh(table, &back)
}

/// Moves the pointers of a node behind the last one of another node, and lets the emptied block go, which is Free then.
pub fn node_join(table: &mut BlockTable, left: Addr, right: Addr)
    requires node { IsDirtyNode table.old left.0 }
    requires other_node { IsDirtyNode table.old right.0 }
    requires apart { left ≢ right }
    requires allowed { IsAllowed (length table.old.slots) right.0 }
    requires room { length (node_at table.old left.0) + length (node_at table.old right.0) ≤ MOST_POINTERS }
    requires order { keys_rise (pointer_keys (node_at table.old left.0 ++ node_at table.old right.0)) ≡ true }
    ensures pointers { node_at table.new left.0 ≡ node_at table.old left.0 ++ node_at table.old right.0 }
    ensures node { IsDirtyNode table.new left.0 }
    ensures kept { HasNewBytes table.old table.new left.0 }
    ensures let_go { block_at table.new right.0 ≡ free_slot }
    ensures others { IsSameBut table.old table.new (left.0 ∷ right.0 ∷ []) }
    ensures spare { table.new.spare ≡ table.old.spare + 1 }
    ensures free { free_blocks table.new ≡ free_blocks table.old + 1 }
{
    let mut back = *table.block(right);
    join_pointers(table.block_mut(left), &mut back);
    table.let_go(right);
}
