ghost use Rattle.std.specs.Prelude.{◌≡◌, ◌≤◌, ◌+◌, take, drop};
ghost use Rattle.std.specs.Borrow.{sem, Lends, Array};
ghost use Rattle.leaf_edit.specs.Written.{with_part};

use blk_base::format::BLOCK_SIZE;

/// A part of a block's items, lent for writing.
pub(crate) fn part_mut<T>(block: &mut [T; 4096], start: usize, size: usize) -> &mut [T]
    requires { start + size ≤ BLOCK_SIZE }
    ensures* writes_back { sem 𝓛 (Lends (Array T.row 4096) (Array T.row 0) block.entry result (with_part block.old start size)) }
    ensures value { result.now ≡ take size (drop start block.old) }
{
    &mut block[start..start + size]
}
