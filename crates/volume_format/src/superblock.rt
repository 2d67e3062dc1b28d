ghost use Rattle.std.specs.Prelude.{◌≡◌, ◌/◌, ◌==◌, ◌&&◌, ◌||◌, not, nat_lt};
ghost use Rattle.std.specs.Result.{result_map_both};
ghost use Rattle.std.specs.Str.{bytes_eq};
ghost use Rattle.blk_base.specs.Bytes.{field, bytes_at};
ghost use Rattle.blk_base.specs.Crc.{block_sum};
ghost use Rattle.blk_base.specs.Superblock.{super_of, super_value, super_bytes, with_sum, is_profile, is_size, magic};
ghost use Rattle.volume_format.specs.Views.{super_view};

use blk_base::format::{BLOCK_SIZE, MAGIC, MAX_LEVEL, PROFILE_FLAGS, SUPER_AT};
use blk_base::limits::{FEWEST_BLOCKS, MOST_BLOCKS};
use blk_base::{
    Addr, Block, SuperFault, crc32c, is_allowed, put_bytes, put_u8, put_u32, put_u64, u8_at,
    u16_at, u32_at, u64_at,
};

/// What a superblock says of its volume ("Superblock" of the on-disk format).
#[derive(Clone, Copy, Debug, PartialEq, Eq)]
pub struct Super {
    /// The file system's uuid.
    pub fsid: [u8; 16],
    /// The number of the transaction that wrote the root tree.
    pub generation: u64,
    /// The byte address of the root tree's root.
    pub root: Addr,
    /// The level of the root tree's root, 0 for a leaf.
    pub root_level: u8,
    /// The byte address of the log root tree's root, 0 if there is none.
    pub log_root: Addr,
    /// The level of the log root tree's root.
    pub log_root_level: u8,
    /// The volume's length in blocks of 4096 bytes.
    pub blocks: u32,
    /// The blocks of 4096 bytes that the committed trees use; nothing depends on it.
    pub used: u32,
}

impl Super {
    /// Writes the superblock over the whole block, whatever it held, with its checksum ("Superblock" of the on-disk
    /// format).
    pub fn encode(&self, into: &mut Block)
        ensures { into.new ≡ super_bytes (super_view self.now) }
    {
        *into = [0; 4096];
        put_bytes(into, 0x20, &self.fsid);
        put_u64(into, 0x30, SUPER_AT);
        put_u64(into, 0x38, 1);
        put_bytes(into, 0x40, &MAGIC);
        put_u64(into, 0x48, self.generation);
        put_u64(into, 0x50, self.root.0);
        put_u64(into, 0x60, self.log_root.0);
        put_u64(into, 0x70, u64::from(self.blocks) * BLOCK_SIZE);
        put_u64(into, 0x78, u64::from(self.used) * BLOCK_SIZE);
        put_u64(into, 0x88, 1);
        put_u32(into, 0x90, BLOCK_SIZE as u32);
        put_u32(into, 0x94, BLOCK_SIZE as u32);
        put_u64(into, 0xbc, PROFILE_FLAGS);
        put_u8(into, 0xc6, self.root_level);
        put_u8(into, 0xc8, self.log_root_level);
        put_sum(into);
    }

    /// Reads a superblock from any block, on a disk of so many blocks ("Superblock" of the on-disk format).
    ///
    /// # Errors
    ///
    /// The first check that fails, in the order of `SuperFault`. `Checksum` comes only where the kind of sum is
    /// CRC-32C; another kind is `Foreign`.
    pub fn decode(block: &Block, disk_blocks: u32) -> Result<Super, SuperFault>
        ensures { result_map_both super_view (λ fault. fault) result ≡ super_of block.now disk_blocks }
    {
        if !has_magic(block) {
            return Err(SuperFault::Magic);
        }
        if has_wrong_sum(block) {
            return Err(SuperFault::Checksum);
        }
        if !is_profile(block) {
            return Err(SuperFault::Foreign);
        }
        let total = u64_at(block, 0x70);
        if !is_size(total, disk_blocks) {
            return Err(SuperFault::Size);
        }
        let found = said(block, (total / BLOCK_SIZE) as u32);
        if !is_allowed(found.blocks, found.root) {
            return Err(SuperFault::Root);
        }
        if found.root_level > MAX_LEVEL {
            return Err(SuperFault::Level);
        }
        if is_log_level_wrong(found.log_root, found.log_root_level) {
            return Err(SuperFault::LogLevel);
        }
        Ok(found)
    }
}

// The bytes at 0x40 are those of every Btrfs superblock ("Superblock": magic).
fn has_magic(block: &Block) -> bool
    ensures { result ≡ bytes_eq (bytes_at 8 block.now 0x40) magic }
{
    &block[0x40..0x48] == MAGIC.as_slice()
}

// The sum is a CRC-32C and not that of the bytes from 32 on ("Superblock": csum_type, csum).
fn has_wrong_sum(block: &Block) -> bool
    ensures { result ≡ ((field 2 block.now 0xc4 == 0) && not (field 4 block.now 0 == block_sum block.now)) }
{
    u16_at(block, 0xc4) == 0 && u32_at(block, 0) != sum_of(block)
}

// The sum of the bytes from 32 on ("Superblock": csum).
fn sum_of(block: &Block) -> u32
    ensures { result ≡ block_sum block.now }
{
    crc32c(&block[32..])
}

// The fields that say which kind of volume it is are those of the profile ("Superblock").
fn is_profile(block: &Block) -> bool
    ensures { result ≡ is_profile block.now }
{
    u16_at(block, 0xc4) == 0
        && u64_at(block, 0x30) == SUPER_AT
        && u64_at(block, 0x88) == 1
        && u32_at(block, 0x90) == BLOCK_SIZE as u32
        && u32_at(block, 0x94) == BLOCK_SIZE as u32
        && u64_at(block, 0xbc) == PROFILE_FLAGS
        && u64_at(block, 0x58) == 0
        && u32_at(block, 0xa0) == 0
}

// So many bytes are whole blocks, as many as a volume may have and no more than the disk has (own).
fn is_size(total: u64, disk_blocks: u32) -> bool
    ensures { result ≡ is_size total disk_blocks }
{
    let blocks = total / BLOCK_SIZE;
    total % BLOCK_SIZE == 0
        && blocks >= u64::from(FEWEST_BLOCKS)
        && blocks <= u64::from(MOST_BLOCKS)
        && blocks <= u64::from(disk_blocks)
}

// A log root tree is too high, or has a level and no address ("Superblock": log_root_level).
fn is_log_level_wrong(at: Addr, level: u8) -> bool
    ensures { result ≡ (nat_lt MAX_LEVEL level || ((at.0 == 0) && not (level == 0))) }
{
    level > MAX_LEVEL || (at.0 == 0 && level != 0)
}

// What the fields of any block say, with so many blocks ("Superblock").
fn said(block: &Block, blocks: u32) -> Super
    requires { blocks ≡ field 8 block.now 0x70 / 4096 }
    ensures { super_view result ≡ super_value block.now }
{
    let mut fsid = [0; 16];
    fsid.copy_from_slice(&block[0x20..0x30]);
    let used = (u64_at(block, 0x78) / BLOCK_SIZE).min(u64::from(u32::MAX)) as u32;
    Super {
        fsid,
        generation: u64_at(block, 0x48),
        root: Addr(u64_at(block, 0x50)),
        root_level: u8_at(block, 0xc6),
        log_root: Addr(u64_at(block, 0x60)),
        log_root_level: u8_at(block, 0xc8),
        blocks,
        used,
    }
}

// The sum of the bytes from 32 on, at the block's front ("Superblock": csum).
fn put_sum(block: &mut Block)
    ensures { block.new ≡ with_sum block.old }
{
    let sum = sum_of(block);
    put_u32(block, 0, sum);
}
