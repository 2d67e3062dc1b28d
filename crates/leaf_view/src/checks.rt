ghost use Rattle.std.specs.Prelude.{◌≡◌, ℕ, ◌≤◌, ◌<◌, ◌+◌, ◌-◌, ◌*◌, ◌==◌, map, Ok};
ghost use Rattle.std.specs.Str.{bytes_eq};
ghost use Rattle.blk_base.specs.Bytes.{field, bytes_at};
ghost use Rattle.blk_base.specs.Crc.{block_sum};
ghost use Rattle.std.specs.List.{list_all, range_with_len};
ghost use Rattle.blk_base.specs.Keys.{key_at, key_below, keys_rise};
ghost use Rattle.blk_base.specs.Leaf.{after_header, below, in_bounds, are_apart, apart_before, count_of, item_offset};

use crate::read::{byte_at, count_of, item_offset, item_size, key_at};
use blk_base::format::{BLOCK_SIZE, HEADER_SIZE, ITEM_HEADER_SIZE, LEAF_BYTES, MOST_ITEMS};
use blk_base::{Block, BlockFault, Want, crc32c, u32_at, u64_at};

/// Whether the block has the sum of its bytes 32 to 4095.
#[tactic(auto, unfolding(blk_base::specs::Crc::block_sum))]
fn has_sum(block: &Block) -> bool
    ensures { result ≡ (field 4 block.now 0 == block_sum block.now) }
{
    u32_at(block, 0) == crc32c(&block[32..])
}

/// Whether the block is of this file system.
fn has_fsid(block: &Block, fsid: &[u8; 16]) -> bool
    ensures { result ≡ bytes_eq (bytes_at 16 block.now 32) fsid.now }
{
    block[32..48] == fsid[..]
}

/// The checks of the header, in order.
pub(crate) fn check_header(block: &Block, want: &Want) -> Result<(), BlockFault>
    ensures { result ≡ after_header want.now block.now (Ok tt) }
{
    if !has_sum(block) {
        return Err(BlockFault::Checksum);
    }
    if !has_fsid(block, &want.fsid) {
        return Err(BlockFault::Fsid);
    }
    if u64_at(block, 48) != want.at.0 {
        return Err(BlockFault::Address);
    }
    if u64_at(block, 80) != want.generation {
        return Err(BlockFault::Generation);
    }
    if u64_at(block, 88) != want.owner {
        return Err(BlockFault::Owner);
    }
    if byte_at(block, 100) != want.level {
        return Err(BlockFault::Level);
    }
    Ok(())
}

/// Whether each key but the first is above the one before it.
fn each_above_last(block: &Block, count: usize, width: usize) -> bool
    requires { HEADER_SIZE + width * count + 17 ≤ BLOCK_SIZE + width }
    ensures { result ≡ list_all (λ i. key_below (key_at block.now (HEADER_SIZE + width * (i - 1))) (key_at block.now (HEADER_SIZE + width * i))) (range_with_len 1 (count - 1)) }
{
    (1..count).all(|i| key_at(block, HEADER_SIZE + width * (i - 1))
        < key_at(block, HEADER_SIZE + width * i))
}

/// Whether the keys that stand `width` bytes apart from byte 101 on rise.
pub(crate) fn keys_rise(block: &Block, count: usize, width: usize) -> bool
    requires { HEADER_SIZE + width * count + 17 ≤ BLOCK_SIZE + width }
    ensures { result ≡ keys_rise (map (λ i. key_at block.now (HEADER_SIZE + width * i)) (below count)) }
{
    each_above_last(block, count, width)
}

/// Whether the data of the items lie behind the item headers and inside the block.
pub(crate) fn all_in_bounds(block: &Block, count: usize) -> bool
    requires known { count ≡ count_of block.now }
    requires most { count ≤ MOST_ITEMS }
    ensures { result ≡ list_all (in_bounds block.now) (below count) }
{
    (0..count).all(|i| {
        ITEM_HEADER_SIZE * count <= item_offset(block, i)
            && item_offset(block, i) + item_size(block, i) <= LEAF_BYTES
    })
}

/// Whether the data of two items share no byte.
fn are_apart(block: &Block, i: usize, j: usize) -> bool
    requires first { i < MOST_ITEMS }
    requires second { j < MOST_ITEMS }
    ensures { result ≡ are_apart block.now i j }
{
    let (start_i, size_i) = (item_offset(block, i), item_size(block, i));
    let (start_j, size_j) = (item_offset(block, j), item_size(block, j));
    size_i == 0 || size_j == 0 || start_i + size_i <= start_j || start_j + size_j <= start_i
}

/// Whether the data of item i share no byte with those of an earlier item.
fn is_apart_before(block: &Block, i: usize) -> bool
    requires { i < MOST_ITEMS }
    ensures { result ≡ apart_before block.now i }
{
    (0..i).all(|j| are_apart(block, i, j))
}

/// The same, where no earlier item begins below a place.
fn is_apart_above(block: &Block, i: usize, lowest: usize) -> bool
    requires most { i < MOST_ITEMS }
    requires above { (j : ℕ) → j < i → lowest ≤ item_offset block.now j }
    ensures { result ≡ apart_before block.now i }
{
    item_offset(block, i) + item_size(block, i) <= lowest || is_apart_before(block, i)
}

/// Whether no two items share a byte.
pub(crate) fn all_apart(block: &Block, count: usize) -> bool
    requires { count ≤ MOST_ITEMS }
    ensures { result ≡ list_all (apart_before block.now) (below count) }
{
    // The lowest place where data of the items so far begin.
    let mut lowest = LEAF_BYTES;
    for i in 0..count {
        if !is_apart_above(block, i, lowest) {
            return false;
        }
        lowest = lowest.min(item_offset(block, i));
    }
    true
}
