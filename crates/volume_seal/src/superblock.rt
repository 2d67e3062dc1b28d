//! The superblock that commits to a root tree.
ghost use Rattle.std.specs.Prelude.{◌≡◌, ◌≤◌, ℕ, length};
ghost use Rattle.blk_base.specs.Bytes.{IsBytes};
ghost use Rattle.blk_base.specs.Superblock.{IsSuper, super_bytes};
ghost use Rattle.tree_range.specs.Shape.{IsTree};
ghost use Rattle.volume_format.specs.Views.{super_view};
ghost use Rattle.volume_seal.specs.Superblock.{super_at};

use blk_base::Addr;
use block_table::{BlockTable, Tree};
use volume_format::Super;

/// A copy of a uuid.
fn copy_of(fsid: &[u8; 16]) -> [u8; 16]
    ensures same { result ≡ fsid.now }
    ensures size { length fsid.now ≡ 16 }
    ensures bytes { IsBytes fsid.now }
{
    let mut copy = [0; 16];
    copy.copy_from_slice(fsid);
    copy
}

/// The superblock that commits to a root tree of this generation, without a log; `used` counts the blocks of 4096 bytes
/// that the volume's trees and their data use ("Superblock" of the on-disk format).
pub fn superblock_of(
    table: &BlockTable,
    root: &Tree,
    fsid: &[u8; 16],
    generation: u64,
    used: u32,
) -> Super
    ensures value { super_view result ≡ super_at table.now root.now fsid.now generation used }
    ensures spelled { (disk_blocks : ℕ) → IsTree table.now root.now
        → 4096 ≤ length table.now.slots → length table.now.slots ≤ 65536 → length table.now.slots ≤ disk_blocks
        → IsSuper (super_bytes (super_view result)) disk_blocks (super_view result) }
{
    Super {
        fsid: copy_of(fsid),
        generation,
        root: root.root,
        root_level: root.level,
        log_root: Addr(0),
        log_root_level: 0,
        blocks: table.blocks(),
        used,
    }
}
