ghost use Rattle.std.specs.Prelude.{◌≡◌, ◌≤◌, ◌<◌, [], Ok, IsOk, IsTrue, ◌↔◌, length, slice_get, Some, IfOk, IfErr, MatchResult};
ghost use Rattle.blk_base.specs.Leaf.{leaf_of, leaf_body_of};
ghost use Rattle.leaf_view.specs.Listed.{items_in};
ghost use Rattle.leaf_view.specs.Search.{keys_of, contents_of, IsPlace};

use crate::checks::{all_apart, all_in_bounds, check_header, keys_rise};
use crate::read::{count_of, item_data, key_at};
use crate::search::find_key;
use blk_base::format::{HEADER_SIZE, ITEM_HEADER_SIZE, MOST_ITEMS};
use blk_base::{Block, BlockFault, Key, Want};
use std::marker::Model;

/// A leaf in a block that is lent: its items, by rising keys, each with its data. It copies nothing.
#[derive(Drop)]
pub struct LeafView<'a> {
    block: &'a Block,
}

impl<'a> Model for LeafView<'a> {
    ghost use Rattle.std.specs.Prelude.{◌≡◌, List, Ok};
    ghost use Rattle.blk_base.specs.Leaf.{Item, leaf_body_of};
    ghost use Rattle.leaf_view.specs.Listed.{items_in};

    ghost Value = { List Item };

    ghost view = { λ v. items_in v.block.now };

    ghost invariant = { λ v. leaf_body_of v.block.now ≡ Ok (items_in v.block.now) };
}

/// The checks of a leaf's body, in order: the number of items, their keys, the bounds of their data, and that no two
/// items share a byte.
#[tactic(auto, unfolding(blk_base::specs::Leaf::leaf_body_of))]
fn check_body(block: &Block) -> Result<(), BlockFault>
    ensures { MatchResult result (λ _. leaf_body_of block.now ≡ Ok (items_in block.now)) (λ fault. leaf_body_of block.now ≡ Err fault) }
{
    let count = count_of(block);
    if count > MOST_ITEMS {
        return Err(BlockFault::Count);
    }
    if !keys_rise(block, count, ITEM_HEADER_SIZE) {
        return Err(BlockFault::Order);
    }
    if !all_in_bounds(block, count) {
        return Err(BlockFault::Bounds);
    }
    if !all_apart(block, count) {
        return Err(BlockFault::Overlap);
    }
    Ok(())
}

/// Whether the block's body is a leaf's, whatever its header says.
pub fn is_leaf_body(block: &Block) -> bool
    ensures { IsTrue result ↔ IsOk (leaf_body_of block.now) }
{
    check_body(block).is_ok()
}

impl<'a> LeafView<'a> {
    /// The leaf in a block: each check of a tree block in its order, against what the reader wants ("Header" and
    /// "Leaf Node" of the on-disk format). Takes any 4096 bytes, and answers the first check that fails.
    pub fn open(block: &'a Block, want: &Want) -> Result<LeafView<'a>, BlockFault>
        ensures { result ≡ leaf_of want.now block.now }
    {
        check_header(block, want)?;
        check_body(block)?;
        Ok(LeafView { block })
    }

    /// The leaf in a block's body, whatever the header says: a block that is being edited has none yet. Own.
    pub fn of_body(block: &'a Block) -> LeafView<'a>
        requires { IsOk (leaf_body_of block.now) }
        ensures { leaf_body_of block.now ≡ Ok result }
    {
        LeafView { block }
    }

    /// The number of items, at most 159.
    pub fn len(&self) -> usize
        ensures value { result ≡ length self.now }
        ensures most { result ≤ MOST_ITEMS }
    {
        count_of(self.block)
    }

    /// Whether the leaf has no item.
    pub fn is_empty(&self) -> bool
        ensures { IsTrue result ↔ (self.now ≡ []) }
    {
        self.len() == 0
    }

    /// The key of item i.
    pub fn key(&self, i: usize) -> Key
        requires { i < length self.now }
        ensures { slice_get (keys_of self.now) i ≡ Some result }
    {
        key_at(self.block, HEADER_SIZE + ITEM_HEADER_SIZE * i)
    }

    /// The data of item i: 0 to 3970 bytes of the block.
    pub fn data(&self, i: usize) -> &'a [u8]
        requires { i < length self.now }
        ensures { slice_get (contents_of self.now) i ≡ Some result.now }
    {
        item_data(self.block, i)
    }

    /// Looks for a key: `Ok` with its place, or `Err` with the place where it belongs, which is the number of keys
    /// below it. A binary search.
    pub fn find(&self, key: &Key) -> Result<usize, usize>
        ensures found { IfOk result (λ i. slice_get (keys_of self.now) i ≡ Some key.now) }
        ensures absent { IfErr result (IsPlace (keys_of self.now) key.now) }
    {
        find_key(self.block, self.len(), ITEM_HEADER_SIZE, key)
    }
}
