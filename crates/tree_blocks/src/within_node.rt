ghost use Rattle.std.specs.Prelude.{◌≡◌, ◌≤◌, ◌<◌, ◌+◌, ◌++◌, ◌∷◌, [], length, take, drop, insert, remove, true, Ok};
ghost use Rattle.blk_base.specs.Keys.{KeyBelow, keys_rise};
ghost use Rattle.blk_base.specs.Leaf.{node_body_of};
ghost use Rattle.leaf_view.specs.Search.{pointer_keys, IsPlace};
ghost use Rattle.node_edit.specs.Pointers.{with_child};
ghost use Rattle.tree_blocks.specs.Lists.{IsNodeBlock, node_list, pointer_to};

use crate::child::Child;
use blk_base::format::MOST_POINTERS;
use blk_base::{Addr, Block, Key};
use node_edit::NodeMut;

/// Makes the body that of a node with two pointers.
pub(crate) fn put_two(block: &mut Block, first: Child, second: Child)
    requires { KeyBelow first.key second.key }
    ensures { node_body_of block.new ≡ Ok (pointer_to first ∷ pointer_to second ∷ []) }
{
    let mut node = NodeMut::empty(block);
    node.insert(0, first.key, first.at, first.generation);
    node.insert(1, second.key, second.at, second.generation);
}

/// Puts a pointer in at the place where its key belongs.
pub(crate) fn insert_pointer(
    block: &mut Block,
    place: usize,
    key: Key,
    child: Addr,
    generation: u64,
)
    requires node { IsNodeBlock block.old }
    requires order { IsPlace (pointer_keys (node_list block.old)) key place }
    requires room { length (node_list block.old) < MOST_POINTERS }
    ensures { node_body_of block.new ≡ Ok (insert (node_list block.old) place (record { key = key; at = child.0; generation = generation })) }
{
    let mut node = NodeMut::edit(block);
    node.insert(place, key, child, generation);
}

/// Takes the pointer at a place out, where it isn't the only one.
pub(crate) fn remove_pointer(block: &mut Block, place: usize)
    requires node { IsNodeBlock block.old }
    requires within { place < length (node_list block.old) }
    requires least { 2 ≤ length (node_list block.old) }
    ensures { node_body_of block.new ≡ Ok (remove (node_list block.old) place) }
{
    let mut node = NodeMut::edit(block);
    node.remove(place);
}

/// Writes another address and generation into the pointer at a place.
pub(crate) fn set_pointer(block: &mut Block, place: usize, child: Addr, generation: u64)
    requires node { IsNodeBlock block.old }
    requires within { place < length (node_list block.old) }
    ensures { node_body_of block.new ≡ Ok (with_child (node_list block.old) place child.0 generation) }
{
    let mut node = NodeMut::edit(block);
    node.set_child(place, child, generation);
}

/// Moves the pointers from a place on to a block of any bytes, and leaves one at least in each.
pub(crate) fn split_pointers(block: &mut Block, back: &mut Block, place: usize)
    requires node { IsNodeBlock block.old }
    requires least { 1 ≤ place }
    requires within { place < length (node_list block.old) }
    ensures front { node_body_of block.new ≡ Ok (take place (node_list block.old)) }
    ensures back { node_body_of back.new ≡ Ok (drop place (node_list block.old)) }
{
    let mut node = NodeMut::edit(block);
    let mut other = NodeMut::empty(back);
    node.split(&mut other, place);
}

/// Moves the pointers of another node behind the last one.
#[tactic(auto, using(crate::proofs::Listing::some_pointers))]
pub(crate) fn join_pointers(block: &mut Block, back: &mut Block)
    requires node { IsNodeBlock block.old }
    requires back { IsNodeBlock back.old }
    requires room { length (node_list block.old) + length (node_list back.old) ≤ MOST_POINTERS }
    requires order { keys_rise (pointer_keys (node_list block.old ++ node_list back.old)) ≡ true }
    ensures { node_body_of block.new ≡ Ok (node_list block.old ++ node_list back.old) }
{
    let mut node = NodeMut::edit(block);
    let mut other = NodeMut::edit(back);
    node.join(&mut other);
}
