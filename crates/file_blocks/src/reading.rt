//! Bytes of a file.
ghost use Rattle.std.specs.Prelude.{◌≡◌, ◌<◌, ◌≤◌, ◌+◌, ◌-◌, ◌*◌, ◌/◌, ◌++◌, Some, map, replicate, slice_index, unwrap_or, IfOk, OnOk};
ghost use Rattle.std.specs.List.{range_with_len};
ghost use Rattle.std.specs.FinMap.{get};
ghost use Rattle.tree_range.specs.Shape.{IsTree};
ghost use Rattle.flat_model.specs.Contents.{byte_at, bytes_read};
ghost use Rattle.flat_model.specs.Records.{FileInode, FileRecord};
ghost use Rattle.flat_model.specs.Volume.{Subvolume};
ghost use Rattle.table_volume.specs.Gives.{GivesSubvolume};
ghost use Rattle.name_walk.specs.Given.{GivesCoherent};
ghost use Rattle.file_blocks.specs.Runs.{block_view};

use crate::extents::file_block;
use blk_base::format::BLOCK_SIZE;
use blk_base::{Block, Ino, OutOfMemory, Text};
use block_table::{BlockTable, Tree};
use name_walk::inode_item;
use std::alloc::Global;

/// A byte of a block, and 0 of a hole.
fn byte_of(block: Option<&Block>, place: usize) -> u8
    requires { place < 4096 }
    ensures { result ≡ slice_index (unwrap_or (block_view block.entry) (replicate 4096 0)) place }
{
    match block {
        Some(block) => block[place],
        None => 0,
    }
}

/// Adds the bytes of a file between two of its offsets, both in one block, to a list. Fails only for want of memory.
fn read_block(
    table: &BlockTable,
    tree: &Tree,
    ino: Ino,
    from: u64,
    to: u64,
    bytes: &mut Vec<u8>,
) -> Result<(), OutOfMemory>
    requires tree { IsTree table.now tree.now }
    requires order { from ≤ to }
    requires one { to ≤ from / 4096 * 4096 + 4096 }
    ensures { (given : Subvolume) (file : FileRecord) → GivesSubvolume table.now tree.now given → get given.inodes ino.0 ≡ Some (FileInode file)
        → OnOk result (bytes.new.items ≡ bytes.old.items ++ map (byte_at file.blocks) (range_with_len from (to - from))) }
{
    let block = file_block(table, tree, ino, from / BLOCK_SIZE);
    for offset in from..to {
        bytes.push(byte_of(block, (offset % BLOCK_SIZE) as usize))?;
    }
    Ok(())
}

/// The size of a file in bytes, and 0 where no inode has the number.
fn file_size(table: &BlockTable, tree: &Tree, ino: Ino) -> u64
    requires { IsTree table.now tree.now }
    ensures { (given : Subvolume) (file : FileRecord) → GivesCoherent table.now tree.now given → get given.inodes ino.0 ≡ Some (FileInode file) → result ≡ file.size }
{
    match inode_item(table, tree, ino.0) {
        Some(item) => item.size,
        None => 0,
    }
}

/// The bytes of a file from an offset on, so many of them and none past its size. Fails only for want of memory.
pub fn read(
    alloc: Global,
    table: &BlockTable,
    tree: &Tree,
    ino: Ino,
    offset: u64,
    count: u64,
) -> Result<Text, OutOfMemory>
    requires { IsTree table.now tree.now }
    ensures { (given : Subvolume) (file : FileRecord) → GivesCoherent table.now tree.now given → get given.inodes ino.0 ≡ Some (FileInode file)
        → IfOk result (λ text. text ≡ bytes_read file offset count) }
{
    let end = file_size(table, tree, ino).min(offset.saturating_add(count));
    let mut bytes = Vec::new(alloc);
    let mut at = offset;
    while at < end {
        let stop = at + (BLOCK_SIZE - at % BLOCK_SIZE).min(end - at);
        read_block(table, tree, ino, at, stop, &mut bytes)?;
        at = stop;
    }
    Text::new(alloc, bytes.as_slice())
}
