ghost use Rattle.std.specs.Prelude.{◌≡◌, ◌≤◌, [], length, IsTrue, All};
ghost use Rattle.block_table.specs.declared.state.SlotState.{SlotState};
ghost use Rattle.block_table.specs.Table.{state_at};
ghost use Rattle.block_table.specs.TreeIn.{IsSealedTree, block_at};
ghost use Rattle.tree_range.specs.Shape.{IsTree, tree_reach};
ghost use Rattle.tree_blocks.specs.Steps.{IsDirtyLeaf, IsDirtyNode, node_at};
ghost use Rattle.tree_seal.specs.Above.{IsDirtyAbove};

use super::*;
use blk_base::{Addr, Key, Want};
use block_table::{BlockTable, Blocks, SlotState, Tree};
use leaf_view::{LeafView, NodeView};
use std::process::Abort;
use std::test::Fail;
use tree_blocks::{
    Child, is_leaf, is_node, leaf_find, leaf_insert, leaf_room, new_leaf, new_node, node_child,
    node_len,
};
use tree_range::is_tree;

const FSID: [u8; 16] = [7; 16];

fn key_of(offset: u64) -> Key {
    Key {
        objectid: 256,
        kind: 96,
        offset,
    }
}

fn is_dirty_leaf(table: &BlockTable, at: Addr) -> bool
    ensures { IsTrue result → IsDirtyLeaf table.now at.0 }
{
    table.state(at) == SlotState::Dirty && is_leaf(table, at)
}

fn is_dirty_node(table: &BlockTable, at: Addr) -> bool
    ensures { IsTrue result → IsDirtyNode table.now at.0 }
{
    table.state(at) == SlotState::Dirty && is_node(table, at)
}

fn is_dirty(table: &BlockTable, at: Addr) -> bool
    ensures { IsTrue result → state_at table.now at ≡ SlotState.Dirty }
{
    table.state(at) == SlotState::Dirty
}

/// Whether each child of a node is Dirty.
fn are_dirty(table: &BlockTable, at: Addr) -> bool
    requires { IsDirtyNode table.now at.0 }
    ensures { IsTrue result → All (λ pointer. (block_at table.now pointer.at).state ≡ SlotState.Dirty) (node_at table.now at.0) }
{
    for place in 0..node_len(table, at) {
        if !is_dirty(table, node_child(table, at, place).0) {
            return false;
        }
    }
    true
}

/// Whether a tree of a node and leaves is Dirty.
fn is_ready_node(table: &BlockTable, tree: &Tree) -> bool
    ensures tree { IsTrue result → IsTree table.now tree.now }
    ensures above { IsTrue result → IsDirtyAbove table.now tree.now }
    ensures written { IsTrue result → IsSealedTree table.now tree.now FSID 0 }
    ensures fits { IsTrue result → length (tree_reach table.now tree.now) ≤ length table.now.slots }
{
    if tree.level != 1 {
        return false;
    }
    if !is_dirty_node(table, tree.root) {
        return false;
    }
    if !are_dirty(table, tree.root) {
        return false;
    }
    is_tree(table, tree)
}

fn list_of(rt: &impl Abort, table: &mut BlockTable) -> Blocks
    ensures { result ≡ record { pairs = []; room = length table.new.slots } }
{
    assert!(rt; table.lists() >= 1);
    table.list()
}

fn make_leaf(rt: &impl Abort, table: &mut BlockTable) -> Addr {
    assert!(rt; table.spare() >= 1);
    assert!(rt; table.free_count() >= 1);
    new_leaf(table)
}

/// A leaf with one item.
fn leaf_with(rt: &impl Abort, table: &mut BlockTable, offset: u64) -> Addr {
    let at = make_leaf(rt, table);
    assert!(rt; is_dirty_leaf(table, at));
    assert!(rt; leaf_room(table, at) >= 26);
    let key = key_of(offset);
    match leaf_find(table, at, &key) {
        Ok(_) => assert!(rt; false),
        Err(place) => leaf_insert(table, at, place, key, &[3]),
    }
    at
}

fn child_of(offset: u64, at: Addr) -> Child {
    Child {
        key: key_of(offset),
        at,
        generation: 0,
    }
}

fn want_of(at: Addr, level: u8) -> Want {
    Want {
        fsid: FSID,
        at,
        generation: 9,
        owner: 5,
        level,
    }
}

/// A node above two leaves with one item each.
fn node_with(rt: &impl Abort, table: &mut BlockTable) -> Addr {
    let first = leaf_with(rt, table, 1);
    let second = leaf_with(rt, table, 2);
    assert!(rt; table.spare() >= 1);
    assert!(rt; table.free_count() >= 1);
    let (one, two) = (child_of(1, first), child_of(2, second));
    assert!(rt; one.key < two.key);
    new_node(table, one, two)
}

/// A tree of a node with two leaves is sealed, the node last.
#[test]
fn node_is_sealed(rt: HostRuntime) -> Result<(), Fail> {
    let mut table = BlockTable::new(rt.alloc(), 64)?;
    table.reserve(rt.alloc(), 3)?;
    let root = node_with(&rt, &mut table);
    let tree = Tree {
        root,
        level: 1,
        owner: 5,
    };
    let mut out = list_of(&rt, &mut table);
    assert!(&rt; is_ready_node(&table, &tree));
    seal_tree(&mut table, &tree, &FSID, 9, &mut out);
    assert!(&rt; out.len() == 3);
    assert!(&rt; NodeView::open(out.get(2).1, &want_of(root, 1)).is_ok());
    Ok(())
}
