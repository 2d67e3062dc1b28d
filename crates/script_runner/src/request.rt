ghost use Rattle.std.specs.Prelude.{◌≤◌, ℕ, IfSome, IsNone};
ghost use Rattle.script_runner.specs.Words.{IsNumber};
ghost use Rattle.script_runner.specs.Commands.{AreInRange, AsksForBlocks, Says, bytes_of};

use crate::words::{number, uuid_bytes};
use blk_base::limits::{FEWEST_BLOCKS, MOST_BLOCKS, MOST_SUBS};

/// What the three words of `mkfs` say of a volume: its uuid, its blocks of 4096 bytes, at most 65,536, and its
/// subvolumes, at most 16.
#[derive(Clone, Copy)]
pub(crate) struct Request {
    pub(crate) fsid: [u8; 16],
    pub(crate) block_count: u32,
    pub(crate) subvolume_count: u8,
}

impl Request {
    /// Reads the three words. `None` where one is out of its form, or its number is too large for any volume.
    pub(crate) fn read(fsid: &str, blocks: &str, subs: &str) -> Option<Request>
        ensures some { IfSome result (λ request. Says fsid.now blocks.now subs.now request.fsid request.block_count request.subvolume_count) }
        ensures none { IsNone result → (disk_blocks : ℕ) → AreInRange disk_blocks fsid.now blocks.now subs.now → ⊥ }
    {
        let fsid = uuid_bytes(fsid)?;
        let blocks = number(blocks.as_bytes(), MOST_BLOCKS)?;
        let subs = number(subs.as_bytes(), MOST_SUBS)?;
        Some(Request {
            fsid,
            block_count: blocks,
            subvolume_count: subs as u8,
        })
    }
}

/// The number that the word is, where a volume may have so many blocks.
fn block_number(word: &[u8]) -> Option<u32>
    ensures some { IfSome result (λ blocks. IsNumber word.now blocks × (4096 ≤ blocks) × (blocks ≤ 65536)) }
    ensures none { IsNone result → (blocks : ℕ) → IsNumber word.now blocks → 4096 ≤ blocks → blocks ≤ 65536 → ⊥ }
{
    let blocks = number(word, MOST_BLOCKS)?;
    if blocks < FEWEST_BLOCKS {
        return None;
    }
    Some(blocks)
}

/// The number of blocks that a `mkfs` asks for, where a volume may have so many. `None` where the words are no `mkfs`, or
/// the number is out of its form or outside 4096 to 65,536.
pub fn blocks_asked(words: &[String]) -> Option<u32>
    ensures some { IfSome result (AsksForBlocks (bytes_of words.now)) }
    ensures none { IsNone result → (blocks : ℕ) → AsksForBlocks (bytes_of words.now) blocks → ⊥ }
{
    match words {
        [command, _, blocks, _] if command.as_str() == "mkfs" => { block_number(blocks.as_bytes()) }
        _ => None,
    }
}
