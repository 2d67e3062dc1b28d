//! The blocks of a file by their numbers, and what a text that is written makes of them.
ghost use Rattle.std.specs.Prelude.{◌≡◌, ◌<◌, ◌≤◌, ◌+◌, ◌*◌, ◌-◌, ◌/◌, ◌%◌, ℕ, List, ◌++◌, map, length, slice_index, replicate, nat_lt, vec_len, vec_capacity, unwrap_or, option_copied, fold, IsTrue, IfOk, OnOk};
ghost use Rattle.std.specs.List.{range_with_len};
ghost use Rattle.std.specs.Ordering.{nat_cmp};
ghost use Rattle.std.specs.FinMap.{get, insert, retain_keys, from_entries, is_sorted};
ghost use Rattle.flat_model.specs.Records.{Blocks};
ghost use Rattle.flat_model.specs.Contents.{block_of, byte_at, byte_written, block_written, blocks_touched, most_file_bytes, with_cut_block};

use crate::block::FileBlock;
use crate::table::{place_of, put_entry};
use blk_base::{OutOfMemory, Text};
use std::alloc::Global;

/// The block of this number, where it is no hole.
pub(crate) fn block_at(blocks: &Vec<(u64, FileBlock)>, number: u64) -> Option<&FileBlock>
    ensures { option_copied result ≡ get (from_entries {R = nat_cmp} blocks.now.items) number }
{
    match place_of(blocks, number) {
        Some(at) => {
            let entry = &blocks[at];
            Some(&entry.1)
        }
        None => None,
    }
}

/// The byte of a block at this place, counted from 0; that of a hole is 0.
fn byte_of(block: Option<&FileBlock>, at: usize) -> u8
    requires { at < 4096 }
    ensures { result ≡ slice_index (unwrap_or (option_copied block.entry) (replicate 4096 0)) at }
{
    match block {
        Some(block) => block.byte(at),
        None => 0,
    }
}

/// The byte of a block at this place once a text has been written from an offset of the file on. The number is the
/// block's.
fn written_byte(block: Option<&FileBlock>, offset: u64, text: &Text, number: u64, at: u64) -> u8
    requires number { number ≤ 4096 }
    requires place { at < 4096 }
    requires few { offset + length text.now ≤ most_file_bytes }
    ensures { (blocks : Blocks) → option_copied block.entry ≡ get blocks number → result ≡ byte_written blocks offset text.now (number * 4096 + at) }
{
    let place = number * 4096 + at;
    if offset <= place && place < offset + text.len() as u64 {
        return text.byte((place - offset) as usize);
    }
    byte_of(block, at as usize)
}

/// A block once a text has been written from an offset of the file on. Fails only for want of memory.
fn written_block(
    alloc: Global,
    blocks: &Vec<(u64, FileBlock)>,
    offset: u64,
    text: &Text,
    number: u64,
) -> Result<FileBlock, OutOfMemory>
    requires number { number ≤ 4096 }
    requires few { offset + length text.now ≤ most_file_bytes }
    ensures { IfOk result (λ block. block ≡ block_written (from_entries blocks.now.items) offset text.now number) }
{
    let before = block_at(blocks, number);
    let mut bytes = Vec::new(alloc);
    for at in 0..4096 {
        bytes.push(written_byte(before, offset, text, number, at))?;
    }
    Ok(FileBlock::new(bytes))
}

/// The blocks that a text touches, as they are once it has been written from an offset of the file on. Fails only for
/// want of memory.
pub(crate) fn written_blocks(
    alloc: Global,
    blocks: &Vec<(u64, FileBlock)>,
    offset: u64,
    text: &Text,
) -> Result<Vec<(u64, FileBlock)>, OutOfMemory>
    requires { offset + length text.now ≤ most_file_bytes }
    ensures { IfOk result (λ made. made.items ≡ map (λ number. (number, block_written (from_entries blocks.now.items) offset text.now number)) (blocks_touched offset (length text.now))) }
{
    let first = offset / 4096;
    let end = (offset + text.len() as u64 + 4095) / 4096;
    let mut made = Vec::new(alloc);
    for number in first..end {
        made.push((number, written_block(alloc, blocks, offset, text, number)?))?;
    }
    Ok(made)
}

/// Puts blocks in, one after the other, each in place of the one that has its number. Takes no memory.
pub(crate) fn put_blocks(blocks: &mut Vec<(u64, FileBlock)>, made: Vec<(u64, FileBlock)>)
    requires { vec_len blocks.old + vec_len made ≤ vec_capacity blocks.old }
    ensures map { from_entries {R = nat_cmp} blocks.new.items ≡ fold (λ all entry. insert all entry.0 entry.1) (from_entries blocks.old.items) made.items }
    ensures rising { IsTrue (is_sorted nat_cmp blocks.old.items) → IsTrue (is_sorted nat_cmp blocks.new.items) }
{
    for (number, block) in made {
        put_entry(blocks, number, block);
    }
}

/// Adds the bytes of a file between two of its offsets, both in one block, to a list. Fails only for want of memory.
pub(crate) fn read_block(
    blocks: &Vec<(u64, FileBlock)>,
    from: u64,
    to: u64,
    bytes: &mut Vec<u8>,
) -> Result<(), OutOfMemory>
    requires order { from ≤ to }
    requires one { to ≤ from / 4096 * 4096 + 4096 }
    ensures { OnOk result (bytes.new.items ≡ bytes.old.items ++ map (byte_at (from_entries blocks.now.items)) (range_with_len from (to - from))) }
{
    let block = block_at(blocks, from / 4096);
    for offset in from..to {
        bytes.push(byte_of(block, (offset % 4096) as usize))?;
    }
    Ok(())
}

/// Takes the blocks away that lie wholly past a size of the file.
pub(crate) fn keep_below(blocks: &mut Vec<(u64, FileBlock)>, size: u64)
    requires { size ≤ most_file_bytes }
    ensures map { from_entries {R = nat_cmp} blocks.new.items ≡ retain_keys (from_entries blocks.old.items) (λ number. nat_lt (number * 4096) size) }
    ensures rising { IsTrue (is_sorted nat_cmp blocks.old.items) → IsTrue (is_sorted nat_cmp blocks.new.items) }
{
    let end = (size + 4095) / 4096;
    blocks.retain(|entry| entry.0 < end);
}

/// Makes zeros of the bytes past a size of the file in the block that the size ends in, where it is there.
pub(crate) fn cut_block_at(blocks: &mut Vec<(u64, FileBlock)>, size: u64)
    ensures map { from_entries {R = nat_cmp} blocks.new.items ≡ with_cut_block (from_entries blocks.old.items) (size / 4096) (size % 4096) }
    ensures rising { IsTrue (is_sorted nat_cmp blocks.old.items) → IsTrue (is_sorted nat_cmp blocks.new.items) }
{
    if let Some(at) = place_of(blocks, size / 4096) {
        let entry = &mut blocks[at];
        entry.1.cut((size % 4096) as usize);
    }
}
