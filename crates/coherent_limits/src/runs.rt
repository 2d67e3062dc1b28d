//! Blocks of runs.
ghost use Rattle.std.specs.Prelude.{◌≡◌, ◌↔◌, ◌≤◌, ◌<◌, ◌+◌, ◌*◌, ◌/◌, ◌^◌, ℕ, List, Some, IsTrue, length, nat_eq, slice_index};
ghost use Rattle.std.specs.Cmp.Lexicographic.{pointwise};
ghost use Rattle.flat_model.specs.Coherent.{AreBytes, KeepsBlockLimits};
ghost use Rattle.flat_model.specs.Contents.{most_file_bytes};
ghost use Rattle.table_volume.specs.Gives.{data_in};
ghost use Rattle.coherent_limits.specs.Limits.{KeepRunLimits, block_view};

use blk_base::format::BLOCK_SIZE;
use blk_base::{Addr, Block};
use block_table::{BlockTable, SlotState};

/// The block at a byte address, where it is in use.
fn block_at(table: &BlockTable, at: Addr) -> Option<&Block>
    ensures { block_view result ≡ data_in table.now at.0 }
{
    if table.state(at) == SlotState::Free {
        return None;
    }
    Some(table.block(at))
}

const ZEROS: Block = [0; 4096];

/// Whether these are the same bytes.
fn are_same(some: &[u8], others: &[u8]) -> bool
    ensures { result ≡ pointwise nat_eq some.now others.now }
{
    some == others
}

/// Whether all bytes of a block from a place on are zeros.
fn are_zeros(block: &Block, from: usize) -> bool
    ensures { IsTrue result ↔ ((at : ℕ) → from ≤ at → at < 4096 → slice_index block.now at ≡ 0) }
{
    if from >= 4096 {
        return true;
    }
    are_same(&block[from..], &ZEROS[from..])
}

/// Whether a block of a file with this number begins below the file's size, and its bytes past the size are zeros.
fn keeps_size(block: &Block, number: u64, size: u64) -> bool
    requires number { number < 2 ^ 53 }
    requires size { size ≤ most_file_bytes }
    ensures { IsTrue result ↔ KeepsBlockLimits size number block.now }
{
    let begin = u128::from(number) * 4096;
    if begin >= u128::from(size) {
        return false;
    }
    let inside = (u128::from(size) - begin) as usize;
    are_zeros(block, inside)
}

/// Whether the block at a byte address, where one is, keeps the limits of a file's block of this number.
fn keeps_limits(table: &BlockTable, at: Addr, number: u64, size: u64) -> bool
    requires number { number < 2 ^ 53 }
    requires size { size ≤ most_file_bytes }
    ensures { IsTrue result ↔ ((block : List ℕ) → data_in table.now at.0 ≡ Some block → KeepsBlockLimits size number block) }
{
    match block_at(table, at) {
        Some(block) => keeps_size(block, number, size),
        None => true,
    }
}

/// Whether the blocks of a run keep the limits of a file's blocks, from this number on ("EXTENT_DATA" of the Btrfs on-disk
/// format).
pub(crate) fn run_keeps_limits(
    table: &BlockTable,
    at: Addr,
    number: u64,
    count: u64,
    size: u64,
) -> bool
    requires number { number < 2 ^ 52 }
    requires count { count < 2 ^ 52 }
    requires size { size ≤ most_file_bytes }
    ensures { IsTrue result ↔ KeepRunLimits table.now at.0 number count size }
{
    // The proof reads here that the table has fewer than 2^32 blocks.
    let _blocks = table.blocks();
    let mut block = at.0;
    for place in 0..count {
        if block >= 0x1_0000_0000_0000 {
            return true;
        }
        if !keeps_limits(table, Addr(block), number + place, size) {
            return false;
        }
        block += BLOCK_SIZE;
    }
    true
}
