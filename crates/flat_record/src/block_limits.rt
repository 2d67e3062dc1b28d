//! The limits of a file's blocks, and blocks compared and copied.
ghost use Rattle.std.specs.Prelude.{◌≡◌, ◌<◌, ◌≤◌, ◌+◌, ◌↔◌, ℕ, List, All, slice_index, bytes_eq, IsTrue, IfOk};
ghost use Rattle.flat_model.specs.Contents.{most_file_bytes};
ghost use Rattle.flat_model.specs.Coherent.{KeepsBlockLimits};

use crate::block::FileBlock;
use blk_base::OutOfMemory;
use std::alloc::Global;

/// Whether the bytes of a block are zeros from this place on.
fn is_zero_from(block: &FileBlock, from: usize) -> bool
    ensures { IsTrue result ↔ ((at : ℕ) → from ≤ at → at < 4096 → slice_index block.now at ≡ 0) }
{
    for at in from..4096 {
        if block.byte(at) != 0 {
            return false;
        }
    }
    true
}

/// Whether a block of a file keeps its limits: it isn't wholly past the size, and the bytes past it are zeros. The
/// number is the block's.
fn keeps_limits(block: &FileBlock, number: u64, size: u64) -> bool
    requires { size ≤ most_file_bytes }
    ensures { IsTrue result ↔ KeepsBlockLimits size number block.now }
{
    let _bytes = block.as_bytes();
    if number >= (size + 4095) / 4096 {
        return false;
    }
    is_zero_from(block, (size - number * 4096) as usize)
}

/// Whether each block of a file keeps its limits.
pub(crate) fn do_keep_limits(blocks: &Vec<(u64, FileBlock)>, size: u64) -> bool
    requires { size ≤ most_file_bytes }
    ensures { IsTrue result ↔ All (λ e. KeepsBlockLimits size e.0 e.1) blocks.now.items }
{
    for entry in blocks {
        if !keeps_limits(&entry.1, entry.0, size) {
            return false;
        }
    }
    true
}

/// Whether two blocks with their numbers are one.
fn is_same(one: &(u64, FileBlock), two: &(u64, FileBlock)) -> bool
    ensures { IsTrue result ↔ (one.now ≡ two.now) }
{
    one.0 == two.0 && one.1.as_bytes() == two.1.as_bytes()
}

/// Whether two lists have the same blocks.
pub(crate) fn are_same(one: &Vec<(u64, FileBlock)>, two: &Vec<(u64, FileBlock)>) -> bool
    ensures { IsTrue result ↔ (one.now.items ≡ two.now.items) }
{
    if one.len() != two.len() {
        return false;
    }
    for place in 0..one.len() {
        if !is_same(&one[place], &two[place]) {
            return false;
        }
    }
    true
}

/// The same blocks once more. Fails only for want of memory.
pub(crate) fn copy_blocks(
    alloc: Global,
    blocks: &Vec<(u64, FileBlock)>,
) -> Result<Vec<(u64, FileBlock)>, OutOfMemory>
    ensures { IfOk result (λ copy. copy.items ≡ blocks.now.items) }
{
    let mut copy = Vec::new(alloc);
    for entry in blocks {
        copy.push((entry.0, entry.1.copy(alloc)?))?;
    }
    Ok(copy)
}
