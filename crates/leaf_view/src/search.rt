ghost use Rattle.std.specs.Prelude.{◌≡◌, ◌≤◌, ◌<◌, ◌+◌, ◌*◌, map, IfOk, IfErr, true};
ghost use Rattle.blk_base.specs.Keys.{key_at, keys_rise};
ghost use Rattle.blk_base.specs.Leaf.{below};
ghost use Rattle.leaf_view.specs.Search.{IsGap};

use crate::read::key_at;
use blk_base::format::{BLOCK_SIZE, HEADER_SIZE};
use blk_base::{Block, Key};
use std::cmp::Ordering;

/// Looks for a key among `count` rising keys that stand `width` bytes apart from byte 101 on: `Ok` with its place, or
/// `Err` with the place where it belongs.
pub(crate) fn find_key(block: &Block, count: usize, width: usize, key: &Key) -> Result<usize, usize>
    requires room { HEADER_SIZE + width * count + 17 ≤ BLOCK_SIZE + width }
    requires rise { keys_rise (map (λ i. key_at block.now (HEADER_SIZE + width * i)) (below count)) ≡ true }
    ensures inside { IfOk result (λ i. i < count) }
    ensures found { IfOk result (λ i. key_at block.now (HEADER_SIZE + width * i) ≡ key.now) }
    ensures absent { IfErr result (λ place. IsGap (λ i. key_at block.now (HEADER_SIZE + width * i)) count key.now place) }
{
    let mut low = 0;
    let mut high = count;
    while low < high {
        let middle = low + (high - low) / 2;
        match key_at(block, HEADER_SIZE + width * middle).cmp(key) {
            Ordering::Less => low = middle + 1,
            Ordering::Greater => high = middle,
            Ordering::Equal => return Ok(middle),
        }
    }
    Err(low)
}
