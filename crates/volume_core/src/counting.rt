//! How many blocks are in use.
ghost use Rattle.std.specs.Prelude.{◌≡◌, length};
ghost use Rattle.volume_core.specs.InUse.{in_use, usable};

use blk_base::format::{COPY_BLOCK, FIRST_BLOCK};
use block_table::BlockTable;

/// How many blocks a volume of so many may use: not the first 17, nor the second superblock's ("Superblock" of the on-disk
/// format).
pub(crate) fn usable(blocks: u32) -> u32
    ensures { result ≡ usable blocks }
{
    let behind = blocks.saturating_sub(FIRST_BLOCK);
    if blocks > COPY_BLOCK {
        behind - 1
    } else {
        behind
    }
}

/// How many blocks of a table are in use.
pub(crate) fn count_used(table: &BlockTable) -> u32
    ensures { result ≡ length (in_use table.now) }
{
    usable(table.blocks()) - table.free_count()
}
