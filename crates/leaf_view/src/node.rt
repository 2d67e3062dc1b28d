ghost use Rattle.std.specs.Prelude.{◌≡◌, ◌≤◌, ◌<◌, Ok, IsOk, IsTrue, IsFalse, ◌↔◌, length, slice_get, Some, IfOk, IfErr, MatchResult};
ghost use Rattle.blk_base.specs.Leaf.{node_of, node_body_of};
ghost use Rattle.leaf_view.specs.Listed.{pointers_in};
ghost use Rattle.leaf_view.specs.Search.{pointer_keys, children_of, IsPlace};

use crate::checks::{check_header, keys_rise};
use crate::read::{child_at, count_of, key_at};
use crate::search::find_key;
use blk_base::format::{HEADER_SIZE, MOST_POINTERS, POINTER_SIZE};
use blk_base::{Addr, Block, BlockFault, Key, Want};
use std::marker::Model;

/// A node in a block that is lent: its pointers, by rising keys. It copies nothing.
#[derive(Drop)]
pub struct NodeView<'a> {
    block: &'a Block,
}

impl<'a> Model for NodeView<'a> {
    ghost use Rattle.std.specs.Prelude.{◌≡◌, List, Ok};
    ghost use Rattle.blk_base.specs.Leaf.{Pointer, node_body_of};
    ghost use Rattle.leaf_view.specs.Listed.{pointers_in};

    ghost Value = { List Pointer };

    ghost view = { λ v. pointers_in v.block.now };

    ghost invariant = { λ v. node_body_of v.block.now ≡ Ok (pointers_in v.block.now) };
}

/// The checks of a node's body, in order: the number of pointers and their keys.
#[tactic(auto, unfolding(blk_base::specs::Leaf::node_body_of))]
fn check_body(block: &Block) -> Result<(), BlockFault>
    ensures { MatchResult result (λ _. node_body_of block.now ≡ Ok (pointers_in block.now)) (λ fault. node_body_of block.now ≡ Err fault) }
{
    let count = count_of(block);
    if count == 0 || count > MOST_POINTERS {
        return Err(BlockFault::Count);
    }
    if !keys_rise(block, count, POINTER_SIZE) {
        return Err(BlockFault::Order);
    }
    Ok(())
}

/// Whether the block's body is a node's, whatever its header says.
pub fn is_node_body(block: &Block) -> bool
    ensures { IsTrue result ↔ IsOk (node_body_of block.now) }
{
    check_body(block).is_ok()
}

impl<'a> NodeView<'a> {
    /// The node in a block: each check of a tree block in its order, against what the reader wants ("Header" and
    /// "Internal Node" of the on-disk format). Takes any 4096 bytes, and answers the first check that fails.
    pub fn open(block: &'a Block, want: &Want) -> Result<NodeView<'a>, BlockFault>
        ensures { result ≡ node_of want.now block.now }
    {
        check_header(block, want)?;
        check_body(block)?;
        Ok(NodeView { block })
    }

    /// The node in a block's body, whatever the header says: a block that is being edited has none yet. Own.
    pub fn of_body(block: &'a Block) -> NodeView<'a>
        requires { IsOk (node_body_of block.now) }
        ensures { node_body_of block.now ≡ Ok result }
    {
        NodeView { block }
    }

    /// The number of pointers, 1 to 121.
    pub fn len(&self) -> usize
        ensures value { result ≡ length self.now }
        ensures least { 1 ≤ result }
        ensures most { result ≤ MOST_POINTERS }
    {
        count_of(self.block)
    }

    /// Whether the node has no pointer, which no node is.
    pub fn is_empty(&self) -> bool
        ensures { IsFalse result }
    {
        self.len() == 0
    }

    /// The first key of child i.
    pub fn key(&self, i: usize) -> Key
        requires { i < length self.now }
        ensures { slice_get (pointer_keys self.now) i ≡ Some result }
    {
        key_at(self.block, HEADER_SIZE + POINTER_SIZE * i)
    }

    /// The byte address of child i, and the generation that its block has.
    pub fn child(&self, i: usize) -> (Addr, u64)
        requires { i < length self.now }
        ensures { slice_get (children_of self.now) i ≡ Some (result.0.0, result.1) }
    {
        child_at(self.block, HEADER_SIZE + POINTER_SIZE * i)
    }

    /// Looks for a key: `Ok` with its place, or `Err` with the place where it belongs, which is the number of keys
    /// below it. A binary search.
    pub fn find(&self, key: &Key) -> Result<usize, usize>
        ensures found { IfOk result (λ i. slice_get (pointer_keys self.now) i ≡ Some key.now) }
        ensures absent { IfErr result (IsPlace (pointer_keys self.now) key.now) }
    {
        find_key(self.block, self.len(), POINTER_SIZE, key)
    }
}
