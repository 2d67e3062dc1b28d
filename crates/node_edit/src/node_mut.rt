ghost use Rattle.std.specs.Prelude.{◌≡◌, ◌≤◌, ◌<◌, ◌+◌, ◌++◌, [], length, take, drop, insert, remove, true, Ok, IsOk, IsTrue, ◌↔◌};
ghost use Rattle.blk_base.specs.Keys.{keys_rise};
ghost use Rattle.blk_base.specs.Leaf.{Pointer, node_body_of, node_of, sealed};
ghost use Rattle.leaf_view.specs.Listed.{pointers_in};
ghost use Rattle.leaf_view.specs.Search.{pointer_keys};
ghost use Rattle.node_edit.specs.Pointers.{HasPointers, with_child};

use crate::body::{
    append_pointers, clear, count_of, insert_pointer, put_child, remove_pointer, truncate,
};
use blk_base::format::MOST_POINTERS;
use blk_base::{Addr, Block, Key, Want};
use leaf_edit::seal_block;

/// A node that is edited in place, in a block that it borrows ("Internal Node" of the on-disk format).
///
/// Its list may be empty for a while, as no node's is. When the editor is let go with a pointer in it, the block's body
/// is a node with its pointers.
#[derive(Drop)]
pub struct NodeMut<'a> {
    block: &'a mut Block,
    ghost known: { HasPointers block.now (pointers_in block.now) },
}

impl<'a> NodeMut<'a> {
    ghost use Rattle.node_edit.specs.Editor.{pointers_of, bytes_of, lender_of};

    /// An editor of the node in a block's body, whatever the block's header says.
    pub fn edit(block: &'a mut Block) -> NodeMut<'a>
        requires { IsOk (node_body_of block.old) }
        ensures pointers { node_body_of block.old ≡ Ok (pointers_of result) }
        ensures body { node_body_of (bytes_of result) ≡ Ok (pointers_of result) }
        ensures lender { lender_of result ≡ block.entry.ghost_name }
    {
        NodeMut { block }
    }

    /// An editor of an empty list in a block of any bytes.
    pub fn empty(block: &'a mut Block) -> NodeMut<'a>
        ensures pointers { pointers_of result ≡ [] }
        ensures lender { lender_of result ≡ block.entry.ghost_name }
    {
        clear(block);
        NodeMut { block }
    }

    /// The number of pointers, at most 121.
    pub fn len(&self) -> usize
        ensures value { result ≡ length (pointers_of self.now) }
        ensures most { result ≤ MOST_POINTERS }
    {
        count_of(self.block)
    }

    /// Whether there is no pointer.
    pub fn is_empty(&self) -> bool
        ensures { IsTrue result ↔ (pointers_of self.now ≡ []) }
    {
        self.len() == 0
    }

    /// Puts a pointer in at a place: a child's first key, its byte address and its generation.
    pub fn insert(&mut self, at: usize, key: Key, child: Addr, generation: u64)
        requires within { at ≤ length (pointers_of self.old) }
        requires room { length (pointers_of self.old) < MOST_POINTERS }
        requires order { keys_rise (pointer_keys (insert (pointers_of self.old) at (record { key = key; at = child.0; generation = generation }))) ≡ true }
        ensures pointers { pointers_of self.new ≡ insert (pointers_of self.old) at (record { key = key; at = child.0; generation = generation }) }
        ensures body { 1 ≤ length (pointers_of self.new) → node_body_of (bytes_of self.new) ≡ Ok (pointers_of self.new) }
        ensures lender { lender_of self.new ≡ lender_of self.old }
    {
        insert_pointer(self.block, at, &key, child, generation);
    }

    /// Takes the pointer at a place out.
    pub fn remove(&mut self, at: usize)
        requires { at < length (pointers_of self.old) }
        ensures pointers { pointers_of self.new ≡ remove (pointers_of self.old) at }
        ensures body { 1 ≤ length (pointers_of self.new) → node_body_of (bytes_of self.new) ≡ Ok (pointers_of self.new) }
        ensures lender { lender_of self.new ≡ lender_of self.old }
    {
        remove_pointer(self.block, at);
    }

    /// Changes the byte address and the generation of the pointer at a place, and leaves its key.
    pub fn set_child(&mut self, at: usize, child: Addr, generation: u64)
        requires { at < length (pointers_of self.old) }
        ensures pointers { pointers_of self.new ≡ with_child (pointers_of self.old) at child.0 generation }
        ensures body { 1 ≤ length (pointers_of self.new) → node_body_of (bytes_of self.new) ≡ Ok (pointers_of self.new) }
        ensures lender { lender_of self.new ≡ lender_of self.old }
    {
        put_child(self.block, at, child.0, generation);
    }

    /// Moves the pointers from a place on to an empty list.
    pub fn split(&mut self, other: &mut NodeMut<'_>, at: usize)
        requires within { at ≤ length (pointers_of self.old) }
        requires empty { pointers_of other.old ≡ [] }
        ensures front { pointers_of self.new ≡ take at (pointers_of self.old) }
        ensures back { pointers_of other.new ≡ drop at (pointers_of self.old) }
        ensures body { 1 ≤ length (pointers_of self.new) → node_body_of (bytes_of self.new) ≡ Ok (pointers_of self.new) }
        ensures other_body { 1 ≤ length (pointers_of other.new) → node_body_of (bytes_of other.new) ≡ Ok (pointers_of other.new) }
        ensures lender { lender_of self.new ≡ lender_of self.old }
        ensures other_lender { lender_of other.new ≡ lender_of other.old }
    {
        append_pointers(other.block, self.block, at);
        truncate(self.block, at);
    }

    /// Moves all pointers of another list behind the last one, and leaves the other list empty.
    pub fn join(&mut self, other: &mut NodeMut<'_>)
        requires room { length (pointers_of self.old) + length (pointers_of other.old) ≤ MOST_POINTERS }
        requires order { keys_rise (pointer_keys (pointers_of self.old ++ pointers_of other.old)) ≡ true }
        ensures pointers { pointers_of self.new ≡ pointers_of self.old ++ pointers_of other.old }
        ensures empty { pointers_of other.new ≡ [] }
        ensures body { 1 ≤ length (pointers_of self.new) → node_body_of (bytes_of self.new) ≡ Ok (pointers_of self.new) }
        ensures lender { lender_of self.new ≡ lender_of self.old }
        ensures other_lender { lender_of other.new ≡ lender_of other.old }
    {
        append_pointers(self.block, other.block, 0);
        clear(other.block);
    }

    /// Writes the block's header and its sum, so that a reader that wants this finds a node with the pointers. Bytes of
    /// the header that no reader looks at are zero, but for the flags.
    pub fn seal(&mut self, want: &Want)
        requires { 1 ≤ length (pointers_of self.old) }
        ensures pointers { pointers_of self.new ≡ pointers_of self.old }
        ensures read_back { node_of want.now (bytes_of self.new) ≡ Ok (pointers_of self.new) }
        ensures written { bytes_of self.new ≡ sealed want.now (bytes_of self.old) }
        ensures lender { lender_of self.new ≡ lender_of self.old }
    {
        seal_node(self.block, want);
    }
}

/// Seals a node.
fn seal_node(block: &mut Block, want: &Want)
    requires known { HasPointers block.old (pointers_in block.old) }
    requires least { 1 ≤ length (pointers_in block.old) }
    ensures known { HasPointers block.new (pointers_in block.old) }
    ensures read_back { node_of want.now block.new ≡ Ok (pointers_in block.old) }
    ensures written { block.new ≡ sealed want.now block.old }
{
    seal_block(block, want);
}
