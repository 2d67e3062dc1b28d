ghost use Rattle.std.specs.Prelude.{◌≡◌, ◌≤◌, ◌<◌, ◌∷◌, [], length, insert, remove};
ghost use Rattle.blk_base.specs.Address.{IsAllowed};
ghost use Rattle.leaf_view.specs.Search.{pointer_keys, IsPlace};
ghost use Rattle.block_table.specs.Table.{free_blocks, state_at};
ghost use Rattle.tree_range.specs.Path.{IsChildPlace};
ghost use Rattle.tree_blocks.specs.Steps.{IsDirtyNode, node_at};
ghost use Rattle.tree_frame.specs.Frame.{IsEdit, TakesAtMost};
ghost use Rattle.tree_delete.specs.Ahead.{copies_of};
ghost use Rattle.tree_delete.specs.Balance.{AreBalanced};
ghost use Rattle.tree_delete.specs.Steps.{IsCurrentNode};

use blk_base::{Addr, Key};
use block_table::BlockTable;
use tree_blocks::{node_find, node_insert, node_remove, own};

/// The place of the child of a node under which a key belongs.
pub(crate) fn child_place(table: &BlockTable, at: Addr, key: &Key) -> usize
    requires { IsCurrentNode table.now at.0 }
    ensures { IsChildPlace (node_at table.now at.0) key.now result }
{
    match node_find(table, at, key) {
        Ok(place) => place,
        Err(place) => place.saturating_sub(1),
    }
}

/// Takes the pointer at a place out of a node, and answers where the node stands then.
pub(crate) fn drop_child(table: &mut BlockTable, at: Addr, place: usize) -> Addr
    requires node { IsCurrentNode table.old at.0 }
    requires within { place < length (node_at table.old at.0) }
    requires least { 2 ≤ length (node_at table.old at.0) }
    requires spare { 1 ≤ table.old.spare }
    requires free { 1 ≤ free_blocks table.old }
    ensures pointers { node_at table.new result.0 ≡ remove (node_at table.old at.0) place }
    ensures node { IsDirtyNode table.new result.0 }
    ensures allowed { IsAllowed (length table.new.slots) result.0 }
    ensures edit { IsEdit table.old table.new (at.0 ∷ []) (result.0 ∷ []) }
    ensures blocks { TakesAtMost table.old table.new (copies_of (state_at table.old at)) }
    ensures balance { AreBalanced table.old table.new }
{
    let copy = own(table, at);
    node_remove(table, copy, place);
    copy
}

/// Makes the pointer at a place of a node one to another child with its first key, and answers where the node stands then.
pub(crate) fn change_child(
    table: &mut BlockTable,
    at: Addr,
    place: usize,
    first: Key,
    child: Addr,
) -> Addr
    requires node { IsCurrentNode table.old at.0 }
    requires within { place < length (node_at table.old at.0) }
    requires least { 2 ≤ length (node_at table.old at.0) }
    requires order { IsPlace (pointer_keys (remove (node_at table.old at.0) place)) first place }
    requires spare { 1 ≤ table.old.spare }
    requires free { 1 ≤ free_blocks table.old }
    ensures pointers { node_at table.new result.0 ≡ insert (remove (node_at table.old at.0) place) place (record { key = first; at = child.0; generation = 0 }) }
    ensures node { IsDirtyNode table.new result.0 }
    ensures allowed { IsAllowed (length table.new.slots) result.0 }
    ensures edit { IsEdit table.old table.new (at.0 ∷ []) (result.0 ∷ []) }
    ensures blocks { TakesAtMost table.old table.new (copies_of (state_at table.old at)) }
    ensures balance { AreBalanced table.old table.new }
{
    let copy = drop_child(table, at, place);
    node_insert(table, copy, place, first, child, 0);
    copy
}
