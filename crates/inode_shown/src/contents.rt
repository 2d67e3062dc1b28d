//! What an inode's extents hold: the sum of a file's bytes, and a symlink's target.
ghost use Rattle.std.specs.Prelude.{◌≡◌, ◌≤◌, ℕ, List, Some, map, replicate, slice_index, unwrap_or};
ghost use Rattle.std.specs.FinMap.{get};
ghost use Rattle.std.specs.List.{range_with_len};
ghost use Rattle.blk_base.specs.Crc.{crc32c_of, register_after};
ghost use Rattle.blk_base.specs.Extents.{Inline, IsExtent};
ghost use Rattle.file_blocks.specs.Runs.{block_view};
ghost use Rattle.flat_model.specs.Contents.{bytes_read};
ghost use Rattle.flat_model.specs.Records.{FileInode, FileRecord, LinkInode, LinkRecord};
ghost use Rattle.flat_model.specs.Volume.{Subvolume};
ghost use Rattle.table_volume.specs.Gives.{GivesSubvolume};
ghost use Rattle.tree_range.specs.Between.{data_view};
ghost use Rattle.tree_range.specs.Shape.{IsTree};

use blk_base::format::{BLOCK_SIZE, EXTENT_DATA};
use blk_base::{Block, Ino, Key, crc_register};
use block_table::{BlockTable, Tree};
use file_blocks::file_block;
use item_extent::Extent;

/// A block of a hole.
const HOLE: Block = [0; 4096];

/// The register of a sum behind the first bytes of a block.
fn add_front(register: u32, block: &Block, length: usize) -> u32
    requires { length ≤ 4096 }
    ensures { result ≡ register_after register (map (slice_index block.now) (range_with_len 0 length)) }
{
    crc_register(register, &block[..length])
}

/// The register of a sum behind the first bytes of a block of a file, which are zeros where it is a hole.
fn add_block(register: u32, block: Option<&Block>, length: usize) -> u32
    requires { length ≤ 4096 }
    ensures { result ≡ register_after register (map (slice_index (unwrap_or (block_view block.entry) (replicate 4096 0))) (range_with_len 0 length)) }
{
    match block {
        Some(block) => add_front(register, block, length),
        None => add_front(register, &HOLE, length),
    }
}

/// The CRC-32C of a file's bytes, block by block.
pub(crate) fn sum_of(table: &BlockTable, tree: &Tree, ino: Ino, size: u64) -> u32
    requires { IsTree table.now tree.now }
    ensures { (given : Subvolume) (file : FileRecord) → GivesSubvolume table.now tree.now given → get given.inodes ino.0 ≡ Some (FileInode file)
        → file.size ≡ size → result ≡ crc32c_of (bytes_read file 0 file.size) }
{
    let whole = size / BLOCK_SIZE;
    let mut register = u32::MAX;
    for number in 0..whole {
        register = add_block(register, file_block(table, tree, ino, number), 4096);
    }
    let rest = (size % BLOCK_SIZE) as usize;
    add_block(register, file_block(table, tree, ino, whole), rest) ^ u32::MAX
}

/// What an extent has in itself; `None` of a run of blocks.
fn inline_of<'t>(key: &Key, bytes: &'t [u8]) -> Option<&'t [u8]>
    ensures { (content : List ℕ) → IsExtent key.now bytes.now (Inline content) → data_view result ≡ Some content }
{
    match Extent::open(key, bytes) {
        Ok(Extent::Inline(content)) => Some(content),
        Ok(Extent::Regular { .. }) => None,
        Ok(Extent::Hole { .. }) => None,
        Err(_) => None,
    }
}

/// The target of a symlink, which is a part of a block ("EXTENT_DATA").
pub(crate) fn target_of<'t>(table: &'t BlockTable, tree: &Tree, ino: u64) -> Option<&'t [u8]>
    requires { IsTree table.now tree.now }
    ensures { (given : Subvolume) (link : LinkRecord) → GivesSubvolume table.now tree.now given → get given.inodes ino ≡ Some (LinkInode link)
        → data_view result ≡ Some link.target }
{
    let key = Key {
        objectid: ino,
        kind: EXTENT_DATA,
        offset: 0,
    };
    match tree_range::get(table, tree, &key) {
        Some(bytes) => inline_of(&key, bytes),
        None => None,
    }
}
