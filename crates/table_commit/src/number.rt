//! Blocks by their numbers.
ghost use Rattle.std.specs.Prelude.{◌≡◌};
ghost use Rattle.table_commit.specs.Commit.{at_number};

use blk_base::Addr;
use blk_base::format::BLOCK_SIZE;

/// The byte address of the block with a number ("Superblock": the size of a block).
pub(crate) fn address_of(number: u32) -> Addr
    ensures { result ≡ at_number number }
{
    Addr(u64::from(number) * BLOCK_SIZE)
}
