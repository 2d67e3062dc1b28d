ghost use Rattle.std.specs.Prelude.{◌≡◌, ◌≤◌, ◌<◌, ◌+◌, ◌*◌, ◌++◌, [], length, take, drop, insert, remove, true, Ok, IsOk, IsTrue, ◌↔◌};
ghost use Rattle.blk_base.specs.Bytes.{with_bytes};
ghost use Rattle.blk_base.specs.Keys.{keys_rise};
ghost use Rattle.blk_base.specs.Leaf.{leaf_body_of, leaf_of, data_of, room_of, sealed};
ghost use Rattle.leaf_view.specs.Listed.{items_in};
ghost use Rattle.leaf_view.specs.Search.{keys_of};
ghost use Rattle.leaf_edit.specs.Packed.{IsPacked};
ghost use Rattle.leaf_edit.specs.Written.{data_at, with_data};

use crate::body::{bound_of, count_of, insert_item, put_data, remove_item};
use crate::lend::part_mut;
use crate::seal::seal_block;
use crate::whole::{append_items, clear, pack, room, truncate};
use blk_base::format::{HEADER_SIZE, ITEM_HEADER_SIZE, MOST_ITEMS};
use blk_base::{Block, Key, Want};
use leaf_view::LeafView;

/// A leaf that is edited in place, in a block that it borrows ("Leaf Node" of the on-disk format).
///
/// Item headers stand from the front and data from the block's end downwards, without a gap, so each edit moves what
/// stands behind its place once. When the editor is let go, the block's body is a leaf with its items.
#[derive(Drop)]
pub struct LeafMut<'a> {
    block: &'a mut Block,
    ghost packed: { IsPacked block.now (items_in block.now) },
}

impl<'a> LeafMut<'a> {
    ghost use Rattle.std.specs.Borrow.{sem};
    ghost use Rattle.leaf_edit.specs.Editor.{items_of, bytes_of, lender_of};
    ghost use Rattle.leaf_edit.specs.Lending.{LendsData};

    /// An editor of the leaf in a block's body, whatever the block's header says. Data that have gaps or another order
    /// are packed once.
    pub fn edit(block: &'a mut Block) -> LeafMut<'a>
        requires { IsOk (leaf_body_of block.old) }
        ensures items { leaf_body_of block.old ≡ Ok (items_of result) }
        ensures body { leaf_body_of (bytes_of result) ≡ Ok (items_of result) }
        ensures lender { lender_of result ≡ block.entry.ghost_name }
    {
        pack(block);
        LeafMut { block }
    }

    /// An editor of an empty leaf in a block of any bytes.
    pub fn empty(block: &'a mut Block) -> LeafMut<'a>
        ensures items { items_of result ≡ [] }
        ensures body { leaf_body_of (bytes_of result) ≡ Ok (items_of result) }
        ensures lender { lender_of result ≡ block.entry.ghost_name }
    {
        clear(block);
        LeafMut { block }
    }

    /// The number of items, at most 159.
    pub fn len(&self) -> usize
        ensures value { result ≡ length (items_of self.now) }
        ensures most { result ≤ MOST_ITEMS }
    {
        count_of(self.block)
    }

    /// Whether the leaf has no item.
    pub fn is_empty(&self) -> bool
        ensures { IsTrue result ↔ (items_of self.now ≡ []) }
    {
        self.len() == 0
    }

    /// How many bytes are left, of 3995, for item headers of 25 bytes and data.
    pub fn room(&self) -> usize
        ensures { result ≡ room_of (items_of self.now) }
    {
        room(self.block)
    }

    /// Puts an item in at a place.
    pub fn insert(&mut self, at: usize, key: Key, bytes: &[u8])
        requires within { at ≤ length (items_of self.old) }
        requires room { ITEM_HEADER_SIZE + length bytes.now ≤ room_of (items_of self.old) }
        requires order { keys_rise (keys_of (insert (items_of self.old) at (key, bytes.now))) ≡ true }
        ensures items { items_of self.new ≡ insert (items_of self.old) at (key, bytes.now) }
        ensures body { leaf_body_of (bytes_of self.new) ≡ Ok (items_of self.new) }
        ensures lender { lender_of self.new ≡ lender_of self.old }
    {
        insert_item(self.block, at, key, bytes);
    }

    /// Takes the item at a place out.
    pub fn remove(&mut self, at: usize)
        requires { at < length (items_of self.old) }
        ensures items { items_of self.new ≡ remove (items_of self.old) at }
        ensures body { leaf_body_of (bytes_of self.new) ≡ Ok (items_of self.new) }
        ensures lender { lender_of self.new ≡ lender_of self.old }
    {
        remove_item(self.block, at);
    }

    /// Writes bytes over a part of the data of the item at a place, from a byte of the data on.
    pub fn put_data(&mut self, at: usize, from: usize, bytes: &[u8])
        requires within { at < length (items_of self.old) }
        requires inside { from + length bytes.now ≤ length (data_at (items_of self.old) at) }
        ensures items { items_of self.new ≡ with_data (items_of self.old) at (with_bytes (data_at (items_of self.old) at) from bytes.now) }
        ensures body { leaf_body_of (bytes_of self.new) ≡ Ok (items_of self.new) }
        ensures lender { lender_of self.new ≡ lender_of self.old }
    {
        put_data(self.block, at, from, bytes);
    }

    /// The data of the item at a place, to be written in place.
    pub fn data_mut(&mut self, at: usize) -> &mut [u8]
        requires { at < length (items_of self.old) }
        ensures* writes_back { sem 𝓛 (LendsData self.entry at result) }
        ensures value { result.now ≡ data_at (items_of self.old) at }
    {
        let start = bound_of(self.block, at + 1);
        let size = bound_of(self.block, at) - start;
        part_mut(self.block, HEADER_SIZE + start, size)
    }

    /// Moves the items from a place on to an empty leaf.
    pub fn split(&mut self, other: &mut LeafMut<'_>, at: usize)
        requires within { at ≤ length (items_of self.old) }
        requires empty { items_of other.old ≡ [] }
        ensures front { items_of self.new ≡ take at (items_of self.old) }
        ensures back { items_of other.new ≡ drop at (items_of self.old) }
        ensures body { leaf_body_of (bytes_of self.new) ≡ Ok (items_of self.new) }
        ensures other_body { leaf_body_of (bytes_of other.new) ≡ Ok (items_of other.new) }
        ensures lender { lender_of self.new ≡ lender_of self.old }
        ensures other_lender { lender_of other.new ≡ lender_of other.old }
    {
        append_items(other.block, &LeafView::of_body(self.block), at);
        truncate(self.block, at);
    }

    /// Moves all items of another leaf behind the last one, and leaves the other leaf empty.
    pub fn join(&mut self, other: &mut LeafMut<'_>)
        requires room { ITEM_HEADER_SIZE * length (items_of other.old) + data_of (items_of other.old) ≤ room_of (items_of self.old) }
        requires order { keys_rise (keys_of (items_of self.old ++ items_of other.old)) ≡ true }
        ensures items { items_of self.new ≡ items_of self.old ++ items_of other.old }
        ensures empty { items_of other.new ≡ [] }
        ensures body { leaf_body_of (bytes_of self.new) ≡ Ok (items_of self.new) }
        ensures other_body { leaf_body_of (bytes_of other.new) ≡ Ok (items_of other.new) }
        ensures lender { lender_of self.new ≡ lender_of self.old }
        ensures other_lender { lender_of other.new ≡ lender_of other.old }
    {
        append_items(self.block, &LeafView::of_body(other.block), 0);
        clear(other.block);
    }

    /// Writes the block's header and its sum, so that a reader that wants this finds a leaf with the items. Bytes of
    /// the header that no reader looks at are zero, but for the flags.
    pub fn seal(&mut self, want: &Want)
        ensures items { items_of self.new ≡ items_of self.old }
        ensures read_back { leaf_of want.now (bytes_of self.new) ≡ Ok (items_of self.new) }
        ensures written { bytes_of self.new ≡ sealed want.now (bytes_of self.old) }
        ensures lender { lender_of self.new ≡ lender_of self.old }
    {
        seal_leaf(self.block, want);
    }
}

/// Seals a leaf.
fn seal_leaf(block: &mut Block, want: &Want)
    requires { IsPacked block.old (items_in block.old) }
    ensures packed { IsPacked block.new (items_in block.old) }
    ensures read_back { leaf_of want.now block.new ≡ Ok (items_in block.old) }
    ensures written { block.new ≡ sealed want.now block.old }
{
    seal_block(block, want);
}
