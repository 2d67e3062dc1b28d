ghost use Rattle.std.specs.Prelude.{◌≡◌, ◌<◌, ◌^◌, length, drop};
ghost use Rattle.blk_base.specs.Leaf.{HeaderFits, count_of, header_fields, sealed};
ghost use Rattle.blk_base.specs.Superblock.{with_fields};

use blk_base::format::{HEADER_FLAGS, HEADER_SIZE};
use blk_base::{Block, Want, crc32c, put_bytes, put_u32, put_u64};
/// Writes the fields of the header behind the sum.
fn write_fields(
    block: &mut Block,
    fsid: &[u8; 16],
    address: u64,
    generation: u64,
    owner: u64,
    level: u8,
)
    ensures written { block.new ≡ with_fields block.old (header_fields (record { fsid = fsid.now; at = record { 0 = address }; generation = generation; owner = owner; level = level })) }
    ensures fits_fsid { length fsid.now ≡ 16 }
    ensures fits_address { address < 2 ^ 64 }
    ensures fits_generation { generation < 2 ^ 64 }
    ensures fits_owner { owner < 2 ^ 64 }
    ensures fits_level { level < 2 ^ 8 }
{
    put_bytes(block, 4, &[0; 28]);
    put_bytes(block, 32, fsid);
    put_u64(block, 48, address);
    put_u64(block, 56, HEADER_FLAGS);
    put_bytes(block, 64, &[0; 16]);
    put_u64(block, 80, generation);
    put_u64(block, 88, owner);
    put_bytes(block, 100, &[level]);
}

/// Writes the header of a block and its sum, and leaves the number of items and the body ("Header" of the on-disk
/// format).
#[tactic(auto, unfolding(blk_base::specs::Leaf::sealed))]
pub fn seal_block(block: &mut Block, want: &Want)
    ensures written { block.new ≡ sealed want.now block.old }
    ensures header { HeaderFits want.now block.new }
    ensures count { count_of block.new ≡ count_of block.old }
    ensures body { drop HEADER_SIZE block.new ≡ drop HEADER_SIZE block.old }
{
    write_fields(
        block,
        &want.fsid,
        want.at.0,
        want.generation,
        want.owner,
        want.level,
    );
    let sum = crc32c(&block[32..]);
    put_u32(block, 0, sum);
}
