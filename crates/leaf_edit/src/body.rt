ghost use Rattle.std.specs.Prelude.{◌≡◌, ℕ, ◌≤◌, ◌<◌, ◌+◌, ◌-◌, ◌*◌, ◌++◌, length, map, insert, remove, get_or, true};
ghost use Rattle.blk_base.specs.Bytes.{bytes_at, with_bytes};
ghost use Rattle.blk_base.specs.Keys.{keys_rise};
ghost use Rattle.blk_base.specs.Leaf.{count_of, data_of, room_of};
ghost use Rattle.leaf_view.specs.Listed.{items_in};
ghost use Rattle.leaf_view.specs.Search.{keys_of};
ghost use Rattle.leaf_edit.specs.Packed.{IsPacked, data_before};
ghost use Rattle.leaf_edit.specs.Written.{data_at, with_data};

use crate::header::Header;
use crate::shift::{lower_headers, raise_headers};
use blk_base::format::{BLOCK_SIZE, HEADER_SIZE, ITEM_HEADER_SIZE, LEAF_BYTES};
use blk_base::{Block, Key, put_bytes, put_u32, u32_at};

/// Moves the bytes between two places down, and puts others behind them, so that all end where the bytes ended.
fn make_room(block: &mut Block, low: usize, bound: usize, content: &[u8])
    requires order { low ≤ bound }
    requires inside { bound ≤ BLOCK_SIZE }
    requires room { length content.now ≤ low }
    ensures { block.new ≡ with_bytes block.old (low - length content.now) (bytes_at (bound - low) block.old low ++ content.now) }
{
    block.copy_within(low..bound, low - content.len());
    put_bytes(block, bound - content.len(), content);
}

/// Moves the bytes between two places up.
fn close_gap(block: &mut Block, low: usize, bound: usize, by: usize)
    requires order { low ≤ bound }
    requires inside { bound + by ≤ BLOCK_SIZE }
    ensures { block.new ≡ with_bytes block.old (low + by) (bytes_at (bound - low) block.old low) }
{
    block.copy_within(low..bound, low + by);
}

/// The number of items of the leaf.
pub(crate) fn count_of(block: &Block) -> usize
    ensures { result ≡ count_of block.now }
{
    u32_at(block, 96) as usize
}

/// Where the data of the items before a place begin, and so where those of the next one end, behind the block's header.
pub(crate) fn bound_of(block: &Block, i: usize) -> usize
    requires packed { IsPacked block.now (items_in block.now) }
    requires within { i ≤ count_of block.now }
    ensures value { result ≡ LEAF_BYTES - data_before (items_in block.now) i }
    ensures most { result ≤ LEAF_BYTES }
{
    if i == 0 {
        return LEAF_BYTES;
    }
    u32_at(block, HEADER_SIZE + ITEM_HEADER_SIZE * (i - 1) + 17) as usize
}

/// Puts an item in at a place.
pub(crate) fn insert_item(block: &mut Block, at: usize, key: Key, content: &[u8])
    requires packed { IsPacked block.old (items_in block.old) }
    requires within { at ≤ length (items_in block.old) }
    requires room { ITEM_HEADER_SIZE + length content.now ≤ room_of (items_in block.old) }
    requires order { keys_rise (keys_of (insert (items_in block.old) at (key, content.now))) ≡ true }
    ensures { IsPacked block.new (insert (items_in block.old) at (key, content.now)) }
{
    let count = count_of(block);
    let size = content.len();
    let bound = bound_of(block, at);
    let low = bound_of(block, count);
    make_room(block, HEADER_SIZE + low, HEADER_SIZE + bound, content);
    lower_headers(block, at, count, size as u32);
    let header = Header {
        key,
        offset: (bound - size) as u32,
        size: size as u32,
    };
    header.write(block, at);
    put_u32(block, 96, count as u32 + 1);
}

/// Takes the item at a place out.
pub(crate) fn remove_item(block: &mut Block, at: usize)
    requires packed { IsPacked block.old (items_in block.old) }
    requires within { at < length (items_in block.old) }
    ensures { IsPacked block.new (remove (items_in block.old) at) }
{
    let count = count_of(block);
    let low = bound_of(block, count);
    let end = bound_of(block, at);
    let start = bound_of(block, at + 1);
    close_gap(block, HEADER_SIZE + low, HEADER_SIZE + start, end - start);
    raise_headers(block, at, count, (end - start) as u32);
    put_u32(block, 96, count as u32 - 1);
}

/// Writes bytes over a part of the data of the item at a place.
pub(crate) fn put_data(block: &mut Block, at: usize, from: usize, content: &[u8])
    requires packed { IsPacked block.old (items_in block.old) }
    requires within { at < length (items_in block.old) }
    requires inside { from + length content.now ≤ length (data_at (items_in block.old) at) }
    ensures { IsPacked block.new (with_data (items_in block.old) at (with_bytes (data_at (items_in block.old) at) from content.now)) }
{
    let start = bound_of(block, at + 1);
    put_bytes(block, HEADER_SIZE + start + from, content);
}
