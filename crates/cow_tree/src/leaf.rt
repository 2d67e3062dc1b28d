ghost use Rattle.std.specs.Prelude.{◌≡◌, ◌≢◌, ◌≤◌, ◌<◌, ◌+◌, ◌++◌, ◌∷◌, [], ℕ, List, length, take, drop, filter, insert, Some};
ghost use Rattle.blk_base.specs.Keys.{key_below};
ghost use Rattle.blk_base.specs.Leaf.{room_of};
ghost use Rattle.leaf_view.specs.Search.{keys_of, IsPlace};
ghost use Rattle.block_table.specs.declared.state.SlotState.{SlotState};
ghost use Rattle.block_table.specs.Table.{free_blocks, state_at};
ghost use Rattle.tree_range.specs.Between.{data_under};
ghost use Rattle.tree_blocks.specs.Lists.{pointer_to};
ghost use Rattle.tree_blocks.specs.Steps.{IsDirtyLeaf, IsLeafAt, leaf_at};
ghost use Rattle.tree_frame.specs.Frame.{with_item};
ghost use Rattle.cow_tree.specs.Change.{IsChange};
ghost use Rattle.cow_tree.specs.Pieces.{pointers_of};
ghost use Rattle.cow_tree.specs.Spread.{IsLeafPiece, IsLeafSpread};

use crate::own::own_block;
use crate::pieces::Pieces;
use blk_base::format::{ITEM_HEADER_SIZE, LEAF_BYTES};
use blk_base::{Addr, Key};
use block_table::BlockTable;
use tree_blocks::{
    Child, leaf_data, leaf_find, leaf_insert, leaf_key, leaf_len, leaf_remove, leaf_room,
    leaf_split, new_leaf,
};

/// A leaf that has an item, under its first key.
fn leaf_piece(table: &BlockTable, at: Addr) -> Child
    requires leaf { IsDirtyLeaf table.now at.0 }
    requires some { 1 ≤ length (leaf_at table.now at.0) }
    ensures at { result.at ≡ at }
    ensures piece { IsLeafPiece table.now (pointer_to result) }
{
    Child {
        key: leaf_key(table, at, 0),
        at,
        generation: 0,
    }
}

/// A new leaf with one item.
fn lone_leaf(table: &mut BlockTable, key: Key, bytes: &[u8]) -> Addr
    requires short { ITEM_HEADER_SIZE + length bytes.now ≤ LEAF_BYTES }
    requires spare { 1 ≤ table.old.spare }
    requires free { 1 ≤ free_blocks table.old }
    ensures items { leaf_at table.new result.0 ≡ (key, bytes.now) ∷ [] }
    ensures leaf { IsDirtyLeaf table.new result.0 }
    ensures changes { IsChange table.old table.new [] (result.0 ∷ []) 1 }
{
    let at = new_leaf(table);
    leaf_insert(table, at, 0, key, bytes);
    at
}

/// Puts an item into a leaf of its own, in front of a leaf.
fn put_in_front(table: &mut BlockTable, at: Addr, key: Key, bytes: &[u8]) -> Pieces
    requires leaf { IsDirtyLeaf table.old at.0 }
    requires some { 1 ≤ length (leaf_at table.old at.0) }
    requires short { ITEM_HEADER_SIZE + length bytes.now ≤ LEAF_BYTES }
    requires spare { 1 ≤ table.old.spare }
    requires free { 1 ≤ free_blocks table.old }
    ensures { IsLeafSpread table.old table.new at.0 ((key, bytes.now) ∷ leaf_at table.old at.0) (pointers_of result) 1 }
{
    let lone = lone_leaf(table, key, bytes);
    Pieces::Two(leaf_piece(table, lone), leaf_piece(table, at))
}

/// Puts an item into a leaf of its own, behind a leaf.
fn put_behind(table: &mut BlockTable, at: Addr, key: Key, bytes: &[u8]) -> Pieces
    requires leaf { IsDirtyLeaf table.old at.0 }
    requires some { 1 ≤ length (leaf_at table.old at.0) }
    requires short { ITEM_HEADER_SIZE + length bytes.now ≤ LEAF_BYTES }
    requires spare { 1 ≤ table.old.spare }
    requires free { 1 ≤ free_blocks table.old }
    ensures { IsLeafSpread table.old table.new at.0 (leaf_at table.old at.0 ++ (key, bytes.now) ∷ []) (pointers_of result) 1 }
{
    let lone = lone_leaf(table, key, bytes);
    Pieces::Two(leaf_piece(table, at), leaf_piece(table, lone))
}

/// Splits a leaf at a place, and puts an item there: at the end of the left half, at the front of the right half, or into
/// a leaf of its own between them, where it fits first.
fn put_between(table: &mut BlockTable, at: Addr, place: usize, key: Key, bytes: &[u8]) -> Pieces
    requires leaf { IsDirtyLeaf table.old at.0 }
    requires order { IsPlace (keys_of (leaf_at table.old at.0)) key place }
    requires behind { 1 ≤ place }
    requires before { place < length (leaf_at table.old at.0) }
    requires short { ITEM_HEADER_SIZE + length bytes.now ≤ LEAF_BYTES }
    requires spare { 2 ≤ table.old.spare }
    requires free { 2 ≤ free_blocks table.old }
    ensures { IsLeafSpread table.old table.new at.0 (insert (leaf_at table.old at.0) place (key, bytes.now)) (pointers_of result) 2 }
{
    let right = leaf_split(table, at, place);
    if 25 + bytes.len() <= leaf_room(table, at) {
        leaf_insert(table, at, place, key, bytes);
        return Pieces::Two(leaf_piece(table, at), leaf_piece(table, right));
    }
    if 25 + bytes.len() <= leaf_room(table, right) {
        leaf_insert(table, right, 0, key, bytes);
        return Pieces::Two(leaf_piece(table, at), leaf_piece(table, right));
    }
    let lone = lone_leaf(table, key, bytes);
    Pieces::Three(
        leaf_piece(table, at),
        leaf_piece(table, lone),
        leaf_piece(table, right),
    )
}

/// Where an item belongs in a leaf, and how many bytes the leaf has left for its header and its data.
#[derive(Clone, Copy)]
struct Gap {
    place: usize,
    room: usize,
}

/// Puts an item in at the place of a leaf where its key belongs, and splits the leaf where it hasn't the room
/// ("split_leaf" of fs/btrfs/ctree.c).
fn fill(table: &mut BlockTable, at: Addr, gap: Gap, key: Key, bytes: &[u8]) -> Pieces
    requires leaf { IsDirtyLeaf table.old at.0 }
    requires order { IsPlace (keys_of (leaf_at table.old at.0)) key gap.place }
    requires room { gap.room ≡ room_of (leaf_at table.old at.0) }
    requires short { ITEM_HEADER_SIZE + length bytes.now ≤ LEAF_BYTES }
    requires spare { 2 ≤ table.old.spare }
    requires free { 2 ≤ free_blocks table.old }
    ensures spread { IsLeafSpread table.old table.new at.0 (insert (leaf_at table.old at.0) gap.place (key, bytes.now)) (pointers_of result) 2 }
    ensures fits { 25 + length bytes.now ≤ gap.room → length (pointers_of result) ≡ 1 }
{
    if 25 + bytes.len() <= gap.room {
        leaf_insert(table, at, gap.place, key, bytes);
        return Pieces::One(leaf_piece(table, at));
    }
    if gap.place == 0 {
        return put_in_front(table, at, key, bytes);
    }
    if gap.place == leaf_len(table, at) {
        return put_behind(table, at, key, bytes);
    }
    put_between(table, at, gap.place, key, bytes)
}

/// Takes the item of a key out of a leaf, where there is one, and answers where the key belongs.
fn clear(table: &mut BlockTable, at: Addr, key: &Key) -> Gap
    requires leaf { IsDirtyLeaf table.old at.0 }
    ensures leaf { IsDirtyLeaf table.new at.0 }
    ensures order { IsPlace (keys_of (leaf_at table.new at.0)) key.now result.place }
    ensures room { result.room ≡ room_of (leaf_at table.new at.0) }
    ensures front { take result.place (leaf_at table.new at.0) ≡ filter (λ item. key_below item.0 key.now) (leaf_at table.old at.0) }
    ensures back { drop result.place (leaf_at table.new at.0) ≡ filter (λ item. key_below key.now item.0) (leaf_at table.old at.0) }
    ensures frees { (was : List ℕ) → data_under key.now (leaf_at table.old at.0) ≡ Some was → 25 + length was ≤ result.room }
    ensures changes { IsChange table.old table.new (at.0 ∷ []) (at.0 ∷ []) 0 }
{
    let room = leaf_room(table, at);
    match leaf_find(table, at, key) {
        Ok(place) => {
            let freed = 25 + leaf_data(table, at, place).len();
            leaf_remove(table, at, place);
            Gap {
                place,
                room: room + freed,
            }
        }
        Err(place) => Gap { place, room },
    }
}

/// Puts an item into a leaf in place of the one of its key, where there is one, and answers the leaves that then stand in
/// the leaf's place, one to three.
pub(crate) fn write_in_leaf(table: &mut BlockTable, at: Addr, key: Key, bytes: &[u8]) -> Pieces
    requires taken { state_at table.old at ≢ SlotState.Free }
    requires current { state_at table.old at ≢ SlotState.LetGo }
    requires leaf { IsLeafAt table.old at.0 }
    requires short { ITEM_HEADER_SIZE + length bytes.now ≤ LEAF_BYTES }
    requires spare { 3 ≤ table.old.spare }
    requires free { 3 ≤ free_blocks table.old }
    ensures spread { IsLeafSpread table.old table.new at.0 (with_item key bytes.now (leaf_at table.old at.0)) (pointers_of result) 3 }
    ensures fits { (was : List ℕ) → data_under key (leaf_at table.old at.0) ≡ Some was → length bytes.now ≤ length was → length (pointers_of result) ≡ 1 }
{
    let own_at = own_block(table, at);
    let gap = clear(table, own_at, &key);
    fill(table, own_at, gap, key, bytes)
}
