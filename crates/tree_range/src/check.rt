ghost use Rattle.std.specs.Prelude.{◌≡◌, ◌↔◌, ◌≤◌, Bool, Some, None, IsOk, IsTrue, min, ◌∷◌, [], true};
ghost use Rattle.blk_base.specs.declared.key.Key.{Key};
ghost use Rattle.blk_base.specs.Keys.{KeyBelow};
ghost use Rattle.blk_base.specs.Trees.{NoneTwice};
ghost use Rattle.block_table.specs.TreeIn.{IsTaken};
ghost use Rattle.tree_range.specs.Shape.{IsSubtree, IsTree, reach_below, tree_reach};
ghost use Rattle.tree_range.specs.Part.{IsFirst, IsLeafPart, IsNodePart, IsPart, times_in};

use crate::descent::key_after;
use blk_base::format::MAX_LEVEL;
use blk_base::limits::{LEAST_POINTERS, LEAST_ROOT_POINTERS};
use blk_base::{Addr, Block, Key};
use block_table::{BlockTable, SlotState, Tree};
use leaf_view::{LeafView, NodeView, is_leaf_body, is_node_body};

/// Whether a tree stands in the table: its blocks are taken, with the bodies of their levels and enough in them, its keys
/// rise, each pointer has its child's first key, and no block is reached twice. It takes no memory, and goes down the
/// tree once for each block of the table.
pub fn is_tree(table: &BlockTable, tree: &Tree) -> bool
    ensures { IsTrue result ↔ IsTree table.now tree.now }
{
    tree.level <= MAX_LEVEL
        && is_part(table, tree.level, tree.root, None, None)
        && is_reached_once(table, tree)
}

/// Whether the block at a byte address isn't Free, and stands where a volume may use it.
fn is_taken(table: &BlockTable, at: Addr) -> bool
    ensures { IsTrue result ↔ IsTaken table.now at.0 }
{
    table.is_allowed(at) && table.state(at) != SlotState::Free
}

/// Whether a key is the first one, where there has to be one.
fn is_first(first: Option<Key>, key: &Key) -> bool
    ensures { IsTrue result ↔ IsFirst first (Some key.now) }
{
    match first {
        Some(wanted) => wanted == *key,
        None => true,
    }
}

/// Whether a key is below the next one, where there is one.
fn is_before(key: &Key, next: Option<Key>) -> bool
    ensures { IsTrue result ↔ ((bound : Key) → next ≡ Some bound → KeyBelow key.now bound) }
{
    match next {
        Some(bound) => *key < bound,
        None => true,
    }
}

/// Whether a block has the body of a leaf from the first key on, with all keys below the next; a tree's only leaf, which
/// has no first key, may be empty.
fn is_leaf_part(block: &Block, first: Option<Key>, next: Option<Key>) -> bool
    ensures { IsTrue result ↔ IsLeafPart block.now first next }
{
    if !is_leaf_body(block) {
        return false;
    }
    let leaf = LeafView::of_body(block);
    let count = leaf.len();
    if count == 0 {
        return first.is_none();
    }
    is_first(first, &leaf.key(0)) && is_before(&leaf.key(count - 1), next)
}

/// Whether a block has the body of a node from the first key on, with enough pointers; a root has no first key.
fn is_node_part(block: &Block, first: Option<Key>) -> bool
    ensures { IsTrue result ↔ IsNodePart block.now first }
{
    if !is_node_body(block) {
        return false;
    }
    let node = NodeView::of_body(block);
    let least = if first.is_none() {
        LEAST_ROOT_POINTERS
    } else {
        LEAST_POINTERS
    };
    node.len() >= least && is_first(first, &node.key(0))
}

/// Whether a part of a tree stands below a block, from the first key on, with all keys below the next.
fn is_part(table: &BlockTable, level: u8, at: Addr, first: Option<Key>, next: Option<Key>) -> bool
    ensures { IsTrue result ↔ IsPart level table.now at.0 first next }
{
    if !is_taken(table, at) {
        return false;
    }
    let block = table.block(at);
    if level == 0 {
        return is_leaf_part(block, first, next);
    }
    if !is_node_part(block, first) {
        return false;
    }
    let node = NodeView::of_body(block);
    for place in 0..node.len() {
        let key = Some(node.key(place));
        let behind = key_after(&node, place, next);
        if !is_part(table, level - 1, node.child(place).0, key, behind) {
            return false;
        }
    }
    true
}

/// How often a part of a tree reaches a block: 0, 1, or 2 for more.
fn times_below(table: &BlockTable, level: u8, at: Addr, wanted: Addr) -> u8
    requires { (is_root : Bool) × IsSubtree level table.now is_root at.0 }
    ensures { result ≡ min 2 (times_in wanted.0 (reach_below level table.now at.0)) }
{
    let mut times = times_here(at, wanted);
    if level == 0 {
        return times;
    }
    let node = NodeView::of_body(table.block(at));
    for place in 0..node.len() {
        let more = times_below(table, level - 1, node.child(place).0, wanted);
        times = (times + more).min(2);
    }
    times
}

/// 1 where a block is the wanted one, else 0.
fn times_here(at: Addr, wanted: Addr) -> u8
    ensures { result ≡ times_in wanted.0 (at.0 ∷ []) }
{
    if at.0 == wanted.0 { 1 } else { 0 }
}

/// Whether a tree reaches no block twice.
fn is_reached_once(table: &BlockTable, tree: &Tree) -> bool
    requires { IsSubtree tree.now.level table.now true tree.now.root.0 }
    ensures { IsTrue result ↔ NoneTwice (tree_reach table.now tree.now) }
{
    for number in 0..table.blocks() {
        let wanted = Addr(number as u64 * 4096);
        if times_below(table, tree.level, tree.root, wanted) > 1 {
            return false;
        }
    }
    true
}
