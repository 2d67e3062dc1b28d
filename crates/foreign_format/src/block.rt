//! Tree blocks of any size: the checks of a header, a leaf and a node, and where their items and pointers stand.
ghost use Rattle.std.specs.Prelude.{◌≡◌, ◌==◌, ◌≤◌, ◌<◌, ◌+◌, ◌-◌, ◌*◌, ◌/◌, ◌^◌, ℕ, Ok, map, length};
ghost use Rattle.std.specs.List.{list_all, range_with_len};
ghost use Rattle.std.specs.Str.{bytes_eq};
ghost use Rattle.blk_base.specs.Bytes.{bytes_at, field};
ghost use Rattle.blk_base.specs.Crc.{block_sum};
ghost use Rattle.blk_base.specs.Keys.{key_at, key_below, keys_rise};
ghost use Rattle.blk_base.specs.Leaf.{apart_before, are_apart, below, count_of, item_end, item_key, item_offset, item_size};
ghost use Rattle.foreign_format.specs.Block.{check_block, check_header, has_generation, in_bounds, leaf_body, node_body};

use crate::bytes::{key_at, u8_at};
use blk_base::{BlockFault, Key, crc32c, u32_at, u64_at};

/// Whether the block has the sum of its bytes from 32 on.
fn has_sum(bytes: &[u8]) -> bool
    requires { 4096 ≤ length bytes.now }
    ensures { result ≡ (field 4 bytes.now 0 == block_sum bytes.now) }
{
    u32_at(bytes, 0) == crc32c(&bytes[32..])
}

/// Whether the block is of this file system.
fn has_fsid(bytes: &[u8], fsid: &[u8; 16]) -> bool
    requires { 4096 ≤ length bytes.now }
    ensures { result ≡ bytes_eq (bytes_at 16 bytes.now 32) fsid.now }
{
    bytes[32..48] == fsid[..]
}

/// Whether a generation is the wanted one, where one is wanted.
fn has_generation(wanted: Option<u64>, generation: u64) -> bool
    ensures { result ≡ has_generation wanted generation }
{
    match wanted {
        Some(wanted) => generation == wanted,
        None => true,
    }
}

/// The checks of the header, in order.
fn check_header(
    bytes: &[u8],
    fsid: &[u8; 16],
    at: u64,
    generation: Option<u64>,
    level: u8,
) -> Result<(), BlockFault>
    requires { 4096 ≤ length bytes.now }
    ensures { result ≡ check_header fsid.now at generation level bytes.now }
{
    if !has_sum(bytes) {
        return Err(BlockFault::Checksum);
    }
    if !has_fsid(bytes, fsid) {
        return Err(BlockFault::Fsid);
    }
    if u64_at(bytes, 48) != at {
        return Err(BlockFault::Address);
    }
    if !has_generation(generation, u64_at(bytes, 80)) {
        return Err(BlockFault::Generation);
    }
    if u8_at(bytes, 100) != level {
        return Err(BlockFault::Level);
    }
    Ok(())
}

/// The number of items or pointers of the block.
pub fn count_of(bytes: &[u8]) -> usize
    requires { 4096 ≤ length bytes.now }
    ensures value { result ≡ count_of bytes.now }
    ensures fits { result < 2 ^ 32 }
{
    u32_at(bytes, 96) as usize
}

/// Whether each key but the first is above the one before it.
fn each_above_last(bytes: &[u8], count: usize, width: usize) -> bool
    requires room { 101 + width * count ≤ length bytes.now }
    requires wide { 25 ≤ width }
    ensures { result ≡ list_all (λ i. key_below (key_at bytes.now (101 + width * (i - 1))) (key_at bytes.now (101 + width * i))) (range_with_len 1 (count - 1)) }
{
    (1..count).all(|i| key_at(bytes, 101 + width * (i - 1)) < key_at(bytes, 101 + width * i))
}

/// Whether the keys that stand `width` bytes apart from byte 101 on rise.
fn keys_rise(bytes: &[u8], count: usize, width: usize) -> bool
    requires room { 101 + width * count ≤ length bytes.now }
    requires wide { 25 ≤ width }
    ensures { result ≡ keys_rise (map (λ i. key_at bytes.now (101 + width * i)) (below count)) }
{
    each_above_last(bytes, count, width)
}

/// Where the data of item i begin, in bytes behind the block's header.
fn item_offset(bytes: &[u8], i: usize) -> usize
    requires { 126 + 25 * i ≤ length bytes.now }
    ensures value { result ≡ item_offset bytes.now i }
    ensures fits { result < 2 ^ 32 }
{
    u32_at(bytes, 101 + 25 * i + 17) as usize
}

/// How many bytes of data item i has.
fn item_size(bytes: &[u8], i: usize) -> usize
    requires { 126 + 25 * i ≤ length bytes.now }
    ensures value { result ≡ item_size bytes.now i }
    ensures fits { result < 2 ^ 32 }
{
    u32_at(bytes, 101 + 25 * i + 21) as usize
}

/// Whether the data of the items lie behind the item headers and inside the block.
fn all_in_bounds(bytes: &[u8], count: usize) -> bool
    requires known { count ≡ count_of bytes.now }
    requires room { 101 + 25 * count ≤ length bytes.now }
    ensures { result ≡ list_all (in_bounds bytes.now) (below count) }
{
    (0..count).all(|i| {
        25 * count <= item_offset(bytes, i)
            && 101 + item_offset(bytes, i) + item_size(bytes, i) <= bytes.len()
    })
}

/// Whether the data of two items share no byte.
fn are_apart(bytes: &[u8], i: usize, j: usize) -> bool
    requires first { 126 + 25 * i ≤ length bytes.now }
    requires second { 126 + 25 * j ≤ length bytes.now }
    ensures { result ≡ are_apart bytes.now i j }
{
    let (start_i, size_i) = (item_offset(bytes, i), item_size(bytes, i));
    let (start_j, size_j) = (item_offset(bytes, j), item_size(bytes, j));
    size_i == 0 || size_j == 0 || start_i + size_i <= start_j || start_j + size_j <= start_i
}

/// Whether the data of item i share no byte with those of an earlier item.
fn is_apart_before(bytes: &[u8], i: usize) -> bool
    requires { 126 + 25 * i ≤ length bytes.now }
    ensures { result ≡ apart_before bytes.now i }
{
    (0..i).all(|j| are_apart(bytes, i, j))
}

/// The same, where no earlier item begins below a place.
fn is_apart_above(bytes: &[u8], i: usize, lowest: usize) -> bool
    requires room { 126 + 25 * i ≤ length bytes.now }
    requires above { (j : ℕ) → j < i → lowest ≤ item_offset bytes.now j }
    ensures { result ≡ apart_before bytes.now i }
{
    item_offset(bytes, i) + item_size(bytes, i) <= lowest || is_apart_before(bytes, i)
}

/// Whether no two items share a byte.
fn all_apart(bytes: &[u8], count: usize) -> bool
    requires { 101 + 25 * count ≤ length bytes.now }
    ensures { result ≡ list_all (apart_before bytes.now) (below count) }
{
    // The lowest place where data of the items so far begin.
    let mut lowest = usize::MAX;
    for i in 0..count {
        if !is_apart_above(bytes, i, lowest) {
            return false;
        }
        lowest = lowest.min(item_offset(bytes, i));
    }
    true
}

/// The checks of a leaf's body, in order.
#[tactic(auto, unfolding(crate::specs::Block::leaf_body))]
fn check_leaf(bytes: &[u8]) -> Result<(), BlockFault>
    requires { 4096 ≤ length bytes.now }
    ensures { result ≡ leaf_body bytes.now }
{
    let count = count_of(bytes);
    if count > (bytes.len() - 101) / 25 {
        return Err(BlockFault::Count);
    }
    if !keys_rise(bytes, count, 25) {
        return Err(BlockFault::Order);
    }
    if !all_in_bounds(bytes, count) {
        return Err(BlockFault::Bounds);
    }
    if !all_apart(bytes, count) {
        return Err(BlockFault::Overlap);
    }
    Ok(())
}

/// The checks of a node's body, in order.
#[tactic(auto, unfolding(crate::specs::Block::node_body))]
fn check_node(bytes: &[u8]) -> Result<(), BlockFault>
    requires { 4096 ≤ length bytes.now }
    ensures { result ≡ node_body bytes.now }
{
    let count = count_of(bytes);
    if count == 0 || count > (bytes.len() - 101) / 33 {
        return Err(BlockFault::Count);
    }
    if !keys_rise(bytes, count, 33) {
        return Err(BlockFault::Order);
    }
    Ok(())
}

/// The checks of a tree block, in order: of its header against what its reader wants, and of the items or pointers in it
/// ("Header", "Leaf Node" and "Internal Node" of the on-disk format). No generation is wanted of the chunk tree's root;
/// owners aren't looked at.
pub fn check_block(
    bytes: &[u8],
    fsid: &[u8; 16],
    at: u64,
    generation: Option<u64>,
    level: u8,
) -> Result<(), BlockFault>
    requires { 4096 ≤ length bytes.now }
    ensures { result ≡ check_block fsid.now at generation level bytes.now }
{
    check_header(bytes, fsid, at, generation, level)?;
    if level == 0 {
        check_leaf(bytes)
    } else {
        check_node(bytes)
    }
}

/// Item i of a leaf: its key, and where its data stand in the block.
pub fn item_at(bytes: &[u8], i: usize) -> (Key, usize, usize)
    requires checked { leaf_body bytes.now ≡ Ok tt }
    requires size { 4096 ≤ length bytes.now }
    requires there { i < count_of bytes.now }
    ensures key { result.0 ≡ item_key bytes.now i }
    ensures offset { result.1 ≡ 101 + item_offset bytes.now i }
    ensures end { result.2 ≡ 101 + item_end bytes.now i }
    ensures rises { result.1 ≤ result.2 }
    ensures inside { result.2 ≤ length bytes.now }
{
    let start = 101 + item_offset(bytes, i);
    (
        key_at(bytes, 101 + 25 * i),
        start,
        start + item_size(bytes, i),
    )
}

/// Pointer i of a node: the logical address of its child, and the generation that the child has.
pub fn pointer_at(bytes: &[u8], i: usize) -> (u64, u64)
    requires checked { node_body bytes.now ≡ Ok tt }
    requires size { 4096 ≤ length bytes.now }
    requires there { i < count_of bytes.now }
    ensures address { result.0 ≡ field 8 bytes.now (118 + 33 * i) }
    ensures generation { result.1 ≡ field 8 bytes.now (126 + 33 * i) }
{
    (u64_at(bytes, 118 + 33 * i), u64_at(bytes, 126 + 33 * i))
}
