ghost use Rattle.std.specs.Prelude.{◌≡◌, length, ◌≤◌, ◌<◌, ◌+◌, ◌*◌, ◌^◌};
ghost use Rattle.blk_base.specs.Bytes.{field, bytes_at};
ghost use Rattle.blk_base.specs.Keys.{key_at};
ghost use Rattle.blk_base.specs.Leaf.{item_offset, item_size, item_end, count_of};

use blk_base::format::{
    BLOCK_SIZE, HEADER_SIZE, ITEM_HEADER_SIZE, LEAF_BYTES, MOST_ITEMS, POINTER_SIZE,
};
use blk_base::{Addr, Block, Key, u32_at, u64_at};

/// The byte at a place, which is below 4096.
#[tactic(auto, unfolding(blk_base::specs::Bytes::field))]
pub(crate) fn byte_at(block: &Block, at: usize) -> u8
    requires { at < BLOCK_SIZE }
    ensures { result ≡ field 1 block.now at }
{
    block[at]
}

/// The key in the 17 bytes at a place ("Key" of the on-disk format).
pub fn key_at(block: &Block, at: usize) -> Key
    requires { at + 17 ≤ BLOCK_SIZE }
    ensures { result ≡ key_at block.now at }
{
    Key {
        objectid: u64_at(block, at),
        kind: byte_at(block, at + 8),
        offset: u64_at(block, at + 9),
    }
}

/// The number of items or pointers of the block.
pub(crate) fn count_of(block: &Block) -> usize
    ensures { result ≡ count_of block.now }
{
    u32_at(block, 96) as usize
}

/// Where the data of item i begin, in bytes behind the block's header.
pub(crate) fn item_offset(block: &Block, i: usize) -> usize
    requires { i < MOST_ITEMS }
    ensures value { result ≡ item_offset block.now i }
    ensures fits { result < 2 ^ 32 }
{
    u32_at(block, HEADER_SIZE + ITEM_HEADER_SIZE * i + 17) as usize
}

/// How many bytes of data item i has.
pub(crate) fn item_size(block: &Block, i: usize) -> usize
    requires { i < MOST_ITEMS }
    ensures value { result ≡ item_size block.now i }
    ensures fits { result < 2 ^ 32 }
{
    u32_at(block, HEADER_SIZE + ITEM_HEADER_SIZE * i + 21) as usize
}

/// The data of item i, which end inside the block.
pub(crate) fn item_data(block: &Block, i: usize) -> &[u8]
    requires most { i < MOST_ITEMS }
    requires inside { item_end block.now i ≤ LEAF_BYTES }
    ensures { result.now ≡ bytes_at (item_size block.now i) block.now (HEADER_SIZE + item_offset block.now i) }
{
    let start = HEADER_SIZE + item_offset(block, i);
    &block[start..start + item_size(block, i)]
}

/// The address and the generation of the pointer at a place.
pub(crate) fn child_at(block: &Block, at: usize) -> (Addr, u64)
    requires { at + POINTER_SIZE ≤ BLOCK_SIZE }
    ensures address { result.0.0 ≡ field 8 block.now (at + 17) }
    ensures generation { result.1 ≡ field 8 block.now (at + 25) }
{
    (Addr(u64_at(block, at + 17)), u64_at(block, at + 25))
}
