ghost use Rattle.std.specs.Prelude.{◌≡◌, ◌≢◌, ◌≤◌, ◌<◌, ◌+◌, ◌++◌, ◌∷◌, [], length, insert, true};
ghost use Rattle.blk_base.specs.Keys.{keys_rise};
ghost use Rattle.leaf_view.specs.Search.{pointer_keys};
ghost use Rattle.block_table.specs.declared.state.SlotState.{SlotState};
ghost use Rattle.block_table.specs.Table.{free_blocks, state_at};
ghost use Rattle.tree_range.specs.Path.{IsChildPlace};
ghost use Rattle.tree_blocks.specs.Lists.{pointer_to};
ghost use Rattle.tree_blocks.specs.Steps.{IsDirtyNode, IsNodeAt, node_at};
ghost use Rattle.cow_tree.specs.Change.{IsChange};
ghost use Rattle.cow_tree.specs.Pieces.{pointers_of, spliced};
ghost use Rattle.cow_tree.specs.Spread.{IsNodePiece, IsNodeSpread};

use crate::own::own_block;
use crate::pieces::Pieces;
use blk_base::format::MOST_POINTERS;
use blk_base::limits::{HALF_NODE, LEAST_POINTERS};
use blk_base::{Addr, Key};
use block_table::BlockTable;
use tree_blocks::{
    Child, new_node, node_find, node_insert, node_key, node_len, node_remove, node_split,
};

/// The number of the child under which a key belongs: the last whose first key isn't above it, else the first.
pub(crate) fn child_place(table: &BlockTable, at: Addr, key: &Key) -> usize
    requires taken { state_at table.now at ≢ SlotState.Free }
    requires node { IsNodeAt table.now at.0 }
    ensures { IsChildPlace (node_at table.now at.0) key.now result }
{
    match node_find(table, at, key) {
        Ok(place) => place,
        Err(place) => place.saturating_sub(1),
    }
}

/// A node under its first key.
fn node_piece(table: &BlockTable, at: Addr) -> Child
    requires node { IsDirtyNode table.now at.0 }
    ensures at { result.at ≡ at }
    ensures piece { IsNodePiece table.now (pointer_to result) }
{
    Child {
        key: node_key(table, at, 0),
        at,
        generation: 0,
    }
}

/// Puts a pointer in at a place where the keys then rise.
fn put_child(table: &mut BlockTable, at: Addr, place: usize, child: Child)
    requires node { IsDirtyNode table.old at.0 }
    requires within { place ≤ length (node_at table.old at.0) }
    requires room { length (node_at table.old at.0) < MOST_POINTERS }
    requires order { keys_rise (pointer_keys (insert (node_at table.old at.0) place (pointer_to child))) ≡ true }
    ensures pointers { node_at table.new at.0 ≡ insert (node_at table.old at.0) place (pointer_to child) }
    ensures node { IsDirtyNode table.new at.0 }
    ensures changes { IsChange table.old table.new (at.0 ∷ []) (at.0 ∷ []) 0 }
{
    node_insert(table, at, place, child.key, child.at, child.generation);
}

/// Puts the pieces in place of the pointer at a place of a node that has the room.
fn replace_child(table: &mut BlockTable, at: Addr, place: usize, pieces: &Pieces)
    requires node { IsDirtyNode table.old at.0 }
    requires within { place < length (node_at table.old at.0) }
    requires least { 2 ≤ length (node_at table.old at.0) }
    requires room { length (node_at table.old at.0) + length (pointers_of pieces.now) ≤ 122 }
    requires order { keys_rise (pointer_keys (spliced (node_at table.old at.0) place (pointers_of pieces.now))) ≡ true }
    ensures pointers { node_at table.new at.0 ≡ spliced (node_at table.old at.0) place (pointers_of pieces.now) }
    ensures node { IsDirtyNode table.new at.0 }
    ensures changes { IsChange table.old table.new (at.0 ∷ []) (at.0 ∷ []) 0 }
{
    node_remove(table, at, place);
    match *pieces {
        Pieces::One(first) => put_child(table, at, place, first),
        Pieces::Two(first, second) => {
            put_child(table, at, place, second);
            put_child(table, at, place, first);
        }
        Pieces::Three(first, second, third) => {
            put_child(table, at, place, third);
            put_child(table, at, place, second);
            put_child(table, at, place, first);
        }
    }
}

/// How many pieces there are.
fn count(pieces: &Pieces) -> usize
    ensures { result ≡ length (pointers_of pieces.now) }
{
    match pieces {
        Pieces::One(_) => 1,
        Pieces::Two(_, _) => 2,
        Pieces::Three(_, _, _) => 3,
    }
}

/// Puts the pieces in place of the pointer at a place of two halves of a full node, into the half where they belong.
fn replace_in_half(table: &mut BlockTable, left: Addr, right: Addr, place: usize, pieces: &Pieces)
    requires node { IsDirtyNode table.old left.0 }
    requires other_node { IsDirtyNode table.old right.0 }
    requires apart { left.0 ≢ right.0 }
    requires front { length (node_at table.old left.0) ≡ HALF_NODE }
    requires least { HALF_NODE ≤ length (node_at table.old right.0) }
    requires most { length (node_at table.old right.0) ≤ 61 }
    requires within { place < HALF_NODE + length (node_at table.old right.0) }
    requires order { keys_rise (pointer_keys (spliced (node_at table.old left.0 ++ node_at table.old right.0) place (pointers_of pieces.now))) ≡ true }
    ensures pointers { node_at table.new left.0 ++ node_at table.new right.0 ≡ spliced (node_at table.old left.0 ++ node_at table.old right.0) place (pointers_of pieces.now) }
    ensures node { IsDirtyNode table.new left.0 }
    ensures other_node { IsDirtyNode table.new right.0 }
    ensures large { LEAST_POINTERS ≤ length (node_at table.new left.0) }
    ensures other_large { LEAST_POINTERS ≤ length (node_at table.new right.0) }
    ensures changes { IsChange table.old table.new (left.0 ∷ right.0 ∷ []) (left.0 ∷ right.0 ∷ []) 0 }
{
    if place < HALF_NODE {
        replace_child(table, left, place, pieces);
    } else {
        replace_child(table, right, place - HALF_NODE, pieces);
    }
}

/// Splits a node that hasn't the room for the pieces, and puts them into the half where they belong.
fn split_node(table: &mut BlockTable, at: Addr, place: usize, pieces: &Pieces) -> Pieces
    requires node { IsDirtyNode table.old at.0 }
    requires within { place < length (node_at table.old at.0) }
    requires most { length (node_at table.old at.0) ≤ MOST_POINTERS }
    requires full { 122 < length (node_at table.old at.0) + length (pointers_of pieces.now) }
    requires order { keys_rise (pointer_keys (spliced (node_at table.old at.0) place (pointers_of pieces.now))) ≡ true }
    requires spare { 1 ≤ table.old.spare }
    requires free { 1 ≤ free_blocks table.old }
    ensures { IsNodeSpread table.old table.new at.0 (spliced (node_at table.old at.0) place (pointers_of pieces.now)) (pointers_of result) 1 }
{
    let right = node_split(table, at, HALF_NODE);
    replace_in_half(table, at, right, place, pieces);
    Pieces::Two(node_piece(table, at), node_piece(table, right))
}

/// Puts the pieces in place of the pointer at a place of a node, and answers the nodes that then stand in its place, one or
/// two ("split_node" of fs/btrfs/ctree.c).
pub(crate) fn write_in_node(
    table: &mut BlockTable,
    at: Addr,
    place: usize,
    pieces: &Pieces,
) -> Pieces
    requires taken { state_at table.old at ≢ SlotState.Free }
    requires current { state_at table.old at ≢ SlotState.LetGo }
    requires node { IsNodeAt table.old at.0 }
    requires within { place < length (node_at table.old at.0) }
    requires least { 2 ≤ length (node_at table.old at.0) }
    requires order { keys_rise (pointer_keys (spliced (node_at table.old at.0) place (pointers_of pieces.now))) ≡ true }
    requires spare { 2 ≤ table.old.spare }
    requires free { 2 ≤ free_blocks table.old }
    ensures { IsNodeSpread table.old table.new at.0 (spliced (node_at table.old at.0) place (pointers_of pieces.now)) (pointers_of result) 2 }
{
    let own_at = own_block(table, at);
    if node_len(table, own_at) + count(pieces) > MOST_POINTERS + 1 {
        return split_node(table, own_at, place, pieces);
    }
    replace_child(table, own_at, place, pieces);
    Pieces::One(node_piece(table, own_at))
}

/// Makes a node over two or three pieces.
pub(crate) fn node_over(table: &mut BlockTable, pieces: &Pieces) -> Addr
    requires some { 2 ≤ length (pointers_of pieces.now) }
    requires order { keys_rise (pointer_keys (pointers_of pieces.now)) ≡ true }
    requires spare { 1 ≤ table.old.spare }
    requires free { 1 ≤ free_blocks table.old }
    ensures pointers { node_at table.new result.0 ≡ pointers_of pieces.now }
    ensures node { IsDirtyNode table.new result.0 }
    ensures changes { IsChange table.old table.new [] (result.0 ∷ []) 1 }
{
    match *pieces {
        Pieces::One(_) => unreachable!(),
        Pieces::Two(first, second) => new_node(table, first, second),
        Pieces::Three(first, second, third) => {
            let at = new_node(table, first, second);
            put_child(table, at, 2, third);
            at
        }
    }
}
