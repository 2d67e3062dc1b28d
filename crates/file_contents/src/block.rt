//! One block of a file, with a text over it or cut.
ghost use Rattle.std.specs.Prelude.{◌≡◌, ◌≤◌, ◌<◌, ◌+◌, ◌*◌, ℕ, length, replicate, slice_index};
ghost use Rattle.std.specs.Option.{unwrap_or};
ghost use Rattle.std.specs.FinMap.{get};
ghost use Rattle.file_blocks.specs.Runs.{block_view};
ghost use Rattle.flat_model.specs.Contents.{block_written, cut_block, most_file_bytes};
ghost use Rattle.flat_model.specs.Records.{Blocks};
ghost use Rattle.file_contents.specs.Written.{text_over};

use blk_base::format::BLOCK_SIZE;
use blk_base::{Block, Text};

/// Lays what a text has of a block over it: the block begins at an offset of the file, and the text at another.
fn lay_over(bytes: &mut Block, begin: u64, offset: u64, text: &Text)
    requires begin { begin ≤ most_file_bytes }
    requires few { offset + length text.now ≤ most_file_bytes }
    ensures { (place : ℕ) → place < 4096 → slice_index bytes.new place ≡ text_over offset text.now (begin + place) (slice_index bytes.old place) }
{
    let from = offset.max(begin);
    let to = (offset + text.len() as u64).min(begin + BLOCK_SIZE);
    if from < to {
        let part = &mut bytes[(from - begin) as usize..(to - begin) as usize];
        text.copy_to((from - offset) as usize, part);
    }
}

/// The bytes of a block of a file; a hole has zeros.
fn bytes_of(block: Option<&Block>) -> Block
    ensures { result ≡ unwrap_or (block_view block.entry) (replicate 4096 0) }
{
    match block {
        Some(block) => *block,
        None => [0; 4096],
    }
}

/// A block of a file once a text stands from an offset of the file on; a hole has zeros.
pub(crate) fn block_over(old: Option<&Block>, number: u64, offset: u64, text: &Text) -> Block
    requires number { number ≤ 4096 }
    requires few { offset + length text.now ≤ most_file_bytes }
    ensures { (blocks : Blocks) → block_view old.entry ≡ get blocks number → result ≡ block_written blocks offset text.now number }
{
    let mut bytes = bytes_of(old);
    lay_over(&mut bytes, number * BLOCK_SIZE, offset, text);
    bytes
}

/// A block whose bytes from a place on are zeros.
pub(crate) fn cut_bytes(block: &Block, place: usize) -> Block
    requires { place ≤ 4096 }
    ensures { result ≡ cut_block block.now place }
{
    let mut bytes = *block;
    bytes[place..].fill(0);
    bytes
}
