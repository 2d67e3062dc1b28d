ghost use Rattle.std.specs.Prelude.{◌≡◌, ◌≢◌, ◌≤◌, ◌<◌, ◌+◌, ◌++◌, ◌∷◌, ◌⊎◌, ℕ, [], length, insert, remove, slice_get, true, Some, None};
ghost use Rattle.blk_base.specs.declared.key.Key.{Key};
ghost use Rattle.tree_range.specs.Path.{key_behind};
ghost use Rattle.node_edit.specs.Pointers.{with_child};
ghost use Rattle.blk_base.specs.Keys.{keys_rise};
ghost use Rattle.blk_base.specs.Leaf.{Pointer};
ghost use Rattle.leaf_view.specs.Search.{pointer_keys, IsPlace};
ghost use Rattle.block_table.specs.Table.{free_blocks};
ghost use Rattle.tree_blocks.specs.Steps.{IsDirtyNode, node_at};
ghost use Rattle.tree_frame.specs.Frame.{IsEdit, TakesAtMost};
ghost use Rattle.tree_delete.specs.Rows.{kept_of};
ghost use Rattle.tree_delete.specs.Steps.{HasPair, IsDirtyPair, IsEven, IsOwnedPair, IsPair, IsRepaired, IsShared};

use blk_base::Addr;
use blk_base::format::MOST_POINTERS;
use block_table::{BlockTable, SlotState};
use tree_blocks::{
    node_child, node_insert, node_join, node_key, node_len, node_remove, node_set_child, own,
};

/// Makes two nodes side by side ones that may be edited, and answers where they stand then.
fn own_both(table: &mut BlockTable, left: Addr, right: Addr) -> (Addr, Addr)
    requires pair { IsPair table.old left.0 right.0 }
    requires spare { 1 ≤ table.old.spare }
    requires free { 1 ≤ free_blocks table.old }
    ensures { IsOwnedPair table.old table.new left.0 right.0 result.0.0 result.1.0 }
{
    if table.state(left) == SlotState::Dirty {
        return (left, own(table, right));
    }
    (own(table, left), right)
}

/// Moves the pointer at a place of a node to a place of another one, where its key belongs.
fn move_pointer(table: &mut BlockTable, from: Addr, place: usize, to: Addr, into: usize)
    requires pair { IsDirtyPair table.old from.0 to.0 }
    requires within { place < length (node_at table.old from.0) }
    requires least { 2 ≤ length (node_at table.old from.0) }
    requires room { length (node_at table.old to.0) < MOST_POINTERS }
    requires order { (pointer : Pointer) → slice_get (node_at table.old from.0) place ≡ Some pointer → IsPlace (pointer_keys (node_at table.old to.0)) pointer.key into }
    ensures pair { IsDirtyPair table.new from.0 to.0 }
    ensures from { node_at table.new from.0 ≡ remove (node_at table.old from.0) place }
    ensures to { (pointer : Pointer) → slice_get (node_at table.old from.0) place ≡ Some pointer → node_at table.new to.0 ≡ insert (node_at table.old to.0) into pointer }
    ensures edit { IsEdit table.old table.new (from.0 ∷ to.0 ∷ []) (from.0 ∷ to.0 ∷ []) }
    ensures spare { table.new.spare ≡ table.old.spare }
    ensures free { free_blocks table.new ≡ free_blocks table.old }
{
    let key = node_key(table, from, place);
    let (child, generation) = node_child(table, from, place);
    node_remove(table, from, place);
    node_insert(table, to, into, key, child, generation);
}

/// Joins two nodes side by side where one has room for the pointers of both; else moves a pointer from the longer one to the
/// other. Answers where they stand then.
fn share(table: &mut BlockTable, left: Addr, right: Addr) -> (Addr, Option<Addr>)
    requires pair { IsPair table.old left.0 right.0 }
    requires spare { 1 ≤ table.old.spare }
    requires free { 1 ≤ free_blocks table.old }
    ensures { IsShared table.old table.new left.0 right.0 (result.0.0 ∷ kept_of result.1) }
{
    let (left, right) = own_both(table, left, right);
    let left_len = node_len(table, left);
    let right_len = node_len(table, right);
    if left_len + right_len <= MOST_POINTERS {
        node_join(table, left, right);
        return (left, None);
    }
    if left_len < right_len {
        move_pointer(table, right, 0, left, left_len);
    } else {
        move_pointer(table, left, left_len - 1, right, 0);
    }
    (left, Some(right))
}

/// Puts a pointer to a node in at a place of another node.
fn put_right(table: &mut BlockTable, at: Addr, place: usize, right: Addr)
    requires pair { IsDirtyPair table.old at.0 right.0 }
    requires room { length (node_at table.old at.0) < MOST_POINTERS }
    requires order { (first : Key) → key_behind (node_at table.old right.0) None ≡ Some first → IsPlace (pointer_keys (node_at table.old at.0)) first place }
    ensures node { IsDirtyNode table.new at.0 }
    ensures pointers { (first : Key) → key_behind (node_at table.old right.0) None ≡ Some first → node_at table.new at.0 ≡ insert (node_at table.old at.0) place (record { key = first; at = right.0; generation = 0 }) }
    ensures edit { IsEdit table.old table.new (at.0 ∷ []) (at.0 ∷ []) }
    ensures spare { table.new.spare ≡ table.old.spare }
    ensures free { free_blocks table.new ≡ free_blocks table.old }
{
    let first = node_key(table, right, 0);
    node_insert(table, at, place, first, right, 0);
}

/// Takes the second of two pointers side by side out, and makes the first one a pointer to this child.
fn point_left(table: &mut BlockTable, at: Addr, place: usize, left: Addr)
    requires node { IsDirtyNode table.old at.0 }
    requires within { place + 1 < length (node_at table.old at.0) }
    ensures node { IsDirtyNode table.new at.0 }
    ensures pointers { node_at table.new at.0 ≡ remove (with_child (node_at table.old at.0) place left.0 0) (place + 1) }
    ensures edit { IsEdit table.old table.new (at.0 ∷ []) (at.0 ∷ []) }
    ensures spare { table.new.spare ≡ table.old.spare }
    ensures free { free_blocks table.new ≡ free_blocks table.old }
{
    node_set_child(table, at, place, left, 0);
    node_remove(table, at, place + 1);
}

/// Lets two children of a node, side by side from a place on, share their pointers.
fn even_out(table: &mut BlockTable, at: Addr, place: usize)
    requires pair { HasPair table.old at.0 place }
    requires spare { 1 ≤ table.old.spare }
    requires free { 1 ≤ free_blocks table.old }
    ensures { (pair : HasPair table.old at.0 place) → IsEven table.old table.new at.0 place pair }
{
    let left = node_child(table, at, place).0;
    let right = node_child(table, at, place + 1).0;
    let (left, right) = share(table, left, right);
    point_left(table, at, place, left);
    match right {
        None => {}
        Some(right) => put_right(table, at, place + 1, right),
    }
}

/// Lets the child of a node at a place share its pointers with the one behind it, else with the one in front of it.
pub(crate) fn repair(table: &mut BlockTable, at: Addr, place: usize)
    requires node { IsDirtyNode table.old at.0 }
    requires within { place < length (node_at table.old at.0) }
    requires least { 2 ≤ length (node_at table.old at.0) }
    requires pairs { (left : ℕ) → (left ≡ place) ⊎ (left + 1 ≡ place) → left + 1 < length (node_at table.old at.0) → HasPair table.old at.0 left }
    requires spare { 1 ≤ table.old.spare }
    requires free { 1 ≤ free_blocks table.old }
    ensures { IsRepaired table.old table.new at.0 place }
{
    let left = if place + 1 < node_len(table, at) {
        place
    } else {
        place - 1
    };
    even_out(table, at, left);
}
