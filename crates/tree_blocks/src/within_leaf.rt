ghost use Rattle.std.specs.Prelude.{◌≡◌, ◌≤◌, ◌<◌, ◌+◌, ◌*◌, ◌++◌, [], length, take, drop, insert, remove, true, Ok};
ghost use Rattle.blk_base.specs.Bytes.{with_bytes};
ghost use Rattle.blk_base.specs.Keys.{keys_rise};
ghost use Rattle.blk_base.specs.Leaf.{leaf_body_of, data_of, room_of};
ghost use Rattle.leaf_view.specs.Search.{keys_of, IsPlace};
ghost use Rattle.leaf_edit.specs.Written.{data_at, with_data};
ghost use Rattle.tree_blocks.specs.Lists.{IsLeafBlock, leaf_list};

use blk_base::{Block, Key};
use leaf_edit::LeafMut;

/// Makes the body that of an empty leaf.
pub(crate) fn clear_leaf(block: &mut Block)
    ensures { leaf_body_of block.new ≡ Ok [] }
{
    LeafMut::empty(block);
}

/// Puts an item in at the place where its key belongs.
pub(crate) fn insert_item(block: &mut Block, place: usize, key: Key, bytes: &[u8])
    requires leaf { IsLeafBlock block.old }
    requires order { IsPlace (keys_of (leaf_list block.old)) key place }
    requires room { 25 + length bytes.now ≤ room_of (leaf_list block.old) }
    ensures { leaf_body_of block.new ≡ Ok (insert (leaf_list block.old) place (key, bytes.now)) }
{
    let mut leaf = LeafMut::edit(block);
    leaf.insert(place, key, bytes);
}

/// Takes the item at a place out.
pub(crate) fn remove_item(block: &mut Block, place: usize)
    requires leaf { IsLeafBlock block.old }
    requires within { place < length (leaf_list block.old) }
    ensures { leaf_body_of block.new ≡ Ok (remove (leaf_list block.old) place) }
{
    let mut leaf = LeafMut::edit(block);
    leaf.remove(place);
}

/// Writes bytes over a part of the data of the item at a place.
pub(crate) fn put_data(block: &mut Block, place: usize, from: usize, bytes: &[u8])
    requires leaf { IsLeafBlock block.old }
    requires within { place < length (leaf_list block.old) }
    requires inside { from + length bytes.now ≤ length (data_at (leaf_list block.old) place) }
    ensures { leaf_body_of block.new ≡ Ok (with_data (leaf_list block.old) place (with_bytes (data_at (leaf_list block.old) place) from bytes.now)) }
{
    let mut leaf = LeafMut::edit(block);
    leaf.put_data(place, from, bytes);
}

/// Moves the items from a place on to a block of any bytes.
pub(crate) fn split_items(block: &mut Block, back: &mut Block, place: usize)
    requires leaf { IsLeafBlock block.old }
    requires within { place ≤ length (leaf_list block.old) }
    ensures front { leaf_body_of block.new ≡ Ok (take place (leaf_list block.old)) }
    ensures back { leaf_body_of back.new ≡ Ok (drop place (leaf_list block.old)) }
{
    let mut leaf = LeafMut::edit(block);
    let mut other = LeafMut::empty(back);
    leaf.split(&mut other, place);
}

/// Moves the items of another leaf behind the last one.
pub(crate) fn join_items(block: &mut Block, back: &mut Block)
    requires leaf { IsLeafBlock block.old }
    requires back { IsLeafBlock back.old }
    requires room { 25 * length (leaf_list back.old) + data_of (leaf_list back.old) ≤ room_of (leaf_list block.old) }
    requires order { keys_rise (keys_of (leaf_list block.old ++ leaf_list back.old)) ≡ true }
    ensures { leaf_body_of block.new ≡ Ok (leaf_list block.old ++ leaf_list back.old) }
{
    let mut leaf = LeafMut::edit(block);
    let mut other = LeafMut::edit(back);
    leaf.join(&mut other);
}
