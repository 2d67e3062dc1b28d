ghost use Rattle.std.specs.Prelude.{◌≡◌, ◌↔◌, IsTrue};
ghost use Rattle.blk_base.specs.Address.{IsAllowed, is_allowed};

use crate::format::{BLOCK_SIZE, COPY_BLOCK, FIRST_BLOCK};
use crate::key::Addr;

/// Whether a volume of so many blocks may have a block at this byte address: a whole one inside the volume, behind the
/// superblock, and not its copy's ("Superblock": its copies).
pub fn is_allowed(blocks: u32, at: Addr) -> bool
    ensures test { result ≡ is_allowed blocks at.0 }
    ensures allowed { IsTrue result ↔ IsAllowed blocks at.0 }
{
    let block = at.0 / BLOCK_SIZE;
    at.0 % BLOCK_SIZE == 0
        && block < u64::from(blocks)
        && block >= u64::from(FIRST_BLOCK)
        && block != u64::from(COPY_BLOCK)
}

#[cfg(test)]
mod tests {
    use super::*;

    #[test]
    fn tells_addresses(rt: HostRuntime) {
        let table: [(u32, u64, bool); 9] = [
            (4096, 69_632, true),
            (4096, 65_536, false),
            (4096, 69_633, false),
            (4096, 16_773_120, true),
            (4096, 16_777_216, false),
            (65_536, 67_108_864, false),
            (65_536, 67_104_768, true),
            (65_536, 67_112_960, true),
            (65_536, 0xffff_ffff_ffff_f000, false),
        ];
        for (blocks, at, want) in table {
            assert_eq!(rt; is_allowed(blocks, Addr(at)), want, "at {at}");
        }
    }
}
