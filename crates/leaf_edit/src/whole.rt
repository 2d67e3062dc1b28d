ghost use Rattle.std.specs.Prelude.{◌≡◌, ℕ, ◌≤◌, ◌<◌, ◌+◌, ◌-◌, ◌*◌, ◌++◌, [], length, take, drop, map, true, IsOk};
ghost use Rattle.std.specs.Bool.{OnTrue};
ghost use Rattle.blk_base.specs.Keys.{keys_rise};
ghost use Rattle.blk_base.specs.Leaf.{leaf_body_of, data_of, room_of};
ghost use Rattle.leaf_view.specs.Listed.{items_in};
ghost use Rattle.leaf_view.specs.Search.{keys_of};
ghost use Rattle.leaf_edit.specs.Packed.{IsPacked};

use crate::body::{bound_of, count_of, insert_item};
use crate::header::Header;
use blk_base::format::{ITEM_HEADER_SIZE, LEAF_BYTES};
use blk_base::{Block, put_u32};
use leaf_view::LeafView;

/// Leaves the first items alone.
pub(crate) fn truncate(block: &mut Block, at: usize)
    requires packed { IsPacked block.old (items_in block.old) }
    requires within { at ≤ length (items_in block.old) }
    ensures { IsPacked block.new (take at (items_in block.old)) }
{
    put_u32(block, 96, at as u32);
}

/// Makes the body that of an empty leaf.
pub(crate) fn clear(block: &mut Block)
    ensures { IsPacked block.new [] }
{
    put_u32(block, 96, 0);
}

/// How many bytes are left for item headers and data.
pub(crate) fn room(block: &Block) -> usize
    requires { IsPacked block.now (items_in block.now) }
    ensures { result ≡ room_of (items_in block.now) }
{
    let count = count_of(block);
    bound_of(block, count) - ITEM_HEADER_SIZE * count
}

/// Appends the items of another leaf from a place on.
pub(crate) fn append_items(block: &mut Block, source: &LeafView, from: usize)
    requires packed { IsPacked block.old (items_in block.old) }
    requires within { from ≤ length source.now }
    requires room { ITEM_HEADER_SIZE * (length source.now - from) + data_of (drop from source.now) ≤ room_of (items_in block.old) }
    requires order { keys_rise (keys_of (items_in block.old ++ drop from source.now)) ≡ true }
    ensures { IsPacked block.new (items_in block.old ++ drop from source.now) }
{
    for i in from..source.len() {
        let place = count_of(block);
        insert_item(block, place, source.key(i), source.data(i));
    }
}

/// Whether the data of a leaf are packed.
fn is_packed(block: &Block) -> bool
    requires { IsOk (leaf_body_of block.now) }
    ensures { OnTrue result (IsPacked block.now (items_in block.now)) }
{
    let mut bound = LEAF_BYTES;
    for i in 0..count_of(block) {
        let header = Header::read(block, i);
        if header.offset as usize + header.size as usize != bound {
            return false;
        }
        bound = header.offset as usize;
    }
    true
}

/// Packs the data of a leaf, whatever gaps and order they have.
pub(crate) fn pack(block: &mut Block)
    requires { IsOk (leaf_body_of block.old) }
    ensures { IsPacked block.new (items_in block.old) }
{
    if is_packed(block) {
        return;
    }
    let copy = *block;
    clear(block);
    append_items(block, &LeafView::of_body(&copy), 0);
}
