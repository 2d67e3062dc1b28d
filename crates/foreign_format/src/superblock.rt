ghost use Rattle.std.specs.Prelude.{◌≡◌, ◌==◌, ◌≤◌, IfOk, OnOk};
ghost use Rattle.std.specs.Str.{bytes_eq};
ghost use Rattle.blk_base.specs.Bytes.{field, bytes_at};
ghost use Rattle.blk_base.specs.Crc.{block_sum};
ghost use Rattle.blk_base.specs.Superblock.{magic};
ghost use Rattle.foreign_format.specs.Super.{has_sizes, is_node_size, super_of, super_value};

use crate::ForeignFault;
use crate::bytes::u8_at;
use blk_base::{Block, crc32c, u16_at, u32_at, u64_at};

/// The magic of Btrfs.
const MAGIC: [u8; 8] = *b"_BHRfS_M";

/// What a superblock says of a volume: its trees by their logical addresses, and the bytes of a tree block ("Superblock"
/// of the on-disk format).
#[derive(Clone, Copy, Debug, PartialEq, Eq)]
pub struct Superblock {
    pub fsid: [u8; 16],
    pub generation: u64,
    pub root: u64,
    pub root_level: u8,
    pub chunk_root: u64,
    pub chunk_root_level: u8,
    pub node_size: usize,
}

/// Whether the block has the magic of Btrfs.
fn has_magic(block: &Block) -> bool
    ensures { result ≡ bytes_eq (bytes_at 8 block.now 0x40) magic }
{
    block[64..72] == MAGIC[..]
}

/// Whether the block has the sum of its bytes 32 to 4095.
fn has_sum(block: &Block) -> bool
    ensures { result ≡ (field 4 block.now 0 == block_sum block.now) }
{
    u32_at(block, 0) == crc32c(&block[32..])
}

/// Whether a tree block may have so many bytes.
fn is_node_size(size: u32) -> bool
    ensures { result ≡ is_node_size size }
{
    size == 4096 || size == 8192 || size == 16384 || size == 32768 || size == 65536
}

/// Whether the superblock's place and its sizes are those that are read here.
fn has_sizes(block: &Block) -> bool
    ensures { result ≡ has_sizes block.now }
{
    u64_at(block, 0x30) == 65536
        && u32_at(block, 0x90) == 4096
        && is_node_size(u32_at(block, 0x94))
        && u32_at(block, 0xa0) <= 2048
}

/// The uuid of the file system.
fn fsid_of(block: &Block) -> [u8; 16]
    ensures { result ≡ bytes_at 16 block.now 32 }
{
    let mut fsid = [0; 16];
    fsid.copy_from_slice(&block[32..48]);
    fsid
}

/// What the fields of any bytes say.
fn value_of(block: &Block) -> Superblock
    ensures { result ≡ super_value block.now }
{
    Superblock {
        fsid: fsid_of(block),
        generation: u64_at(block, 0x48),
        root: u64_at(block, 0x50),
        root_level: u8_at(block, 0xc6),
        chunk_root: u64_at(block, 0x58),
        chunk_root_level: u8_at(block, 0xc7),
        node_size: u32_at(block, 0x94) as usize,
    }
}

/// What a superblock says, or the first check that it fails ("Superblock" of the on-disk format). Incompat flags aren't
/// looked at (own).
#[tactic(auto, unfolding(crate::specs::Super::super_of))]
pub fn read_superblock(block: &Block) -> Result<Superblock, ForeignFault>
    ensures value { result ≡ super_of block.now }
    ensures least { IfOk result (λ s. 4096 ≤ s.node_size) }
    ensures most { IfOk result (λ s. s.node_size ≤ 65536) }
    ensures array { OnOk result (field 4 block.now 160 ≤ 2048) }
{
    if !has_magic(block) {
        return Err(ForeignFault::Magic);
    }
    let kind = u16_at(block, 0xc4);
    if kind != 0 {
        return Err(ForeignFault::Kind(kind));
    }
    if !has_sum(block) {
        return Err(ForeignFault::Checksum);
    }
    if !has_sizes(block) {
        return Err(ForeignFault::Size);
    }
    let log_root = u64_at(block, 0x60);
    if log_root != 0 {
        return Err(ForeignFault::HasLog(log_root));
    }
    let devices = u64_at(block, 0x88);
    if devices != 1 {
        return Err(ForeignFault::Devices(devices));
    }
    Ok(value_of(block))
}
