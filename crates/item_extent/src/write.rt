ghost use Rattle.std.specs.Prelude.{◌≡◌, ◌<◌, ◌≤◌, ◌+◌, ◌%◌, length};
ghost use Rattle.blk_base.specs.Extents.{IsRun, hole_bytes, inline_bytes, regular_bytes};

use blk_base::format::BLOCK_SIZE;
use blk_base::{Addr, put_bytes, put_u64};

/// Writes an extent with its data in the item. `into` has 21 bytes more than the data, which is at least one byte.
pub fn put_inline(generation: u64, content: &[u8], into: &mut [u8])
    requires some { 1 ≤ length content.now }
    requires room { length into.old ≡ 21 + length content.now }
    ensures { into.new ≡ inline_bytes generation content.now }
{
    put_u64(into, 0, generation);
    put_u64(into, 8, content.len() as u64);
    put_bytes(into, 16, &[0; 5]);
    put_bytes(into, 21, content);
}

/// Writes a run of blocks at a byte address, from its begin on. `size` is in bytes: 1 to 4096 whole blocks.
pub fn put_regular(generation: u64, at: Addr, size: u64, into: &mut [u8])
    requires run { IsRun size }
    requires room { length into.old ≡ 53 }
    ensures { into.new ≡ regular_bytes generation at.0 size }
{
    put_u64(into, 0, generation);
    put_u64(into, 8, size);
    put_bytes(into, 16, &[0; 4]);
    put_bytes(into, 20, &[1]);
    put_u64(into, 21, at.0);
    put_u64(into, 29, size);
    put_bytes(into, 37, &[0; 8]);
    put_u64(into, 45, size);
}

/// Writes a hole of a log, of so many bytes: whole blocks, at least one.
pub fn put_hole(generation: u64, size: u64, into: &mut [u8])
    requires whole { size % BLOCK_SIZE ≡ 0 }
    requires some { 0 < size }
    requires room { length into.old ≡ 53 }
    ensures { into.new ≡ hole_bytes generation size }
{
    put_u64(into, 0, generation);
    put_u64(into, 8, size);
    put_bytes(into, 16, &[0; 4]);
    put_bytes(into, 20, &[1]);
    put_bytes(into, 21, &[0; 24]);
    put_u64(into, 45, size);
}
