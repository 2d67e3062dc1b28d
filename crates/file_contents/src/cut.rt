//! Files cut or grown to a size.
ghost use Rattle.std.specs.Prelude.{◌≡◌, ◌≤◌, ◌<◌, ◌+◌, ◌*◌, ◌/◌, ◌%◌, Some, None, cond, nat_eq};
ghost use Rattle.std.specs.FinMap.{get};
ghost use Rattle.std.specs.Option.{option_map};
ghost use Rattle.file_contents.specs.Given.{GivesFile};
ghost use Rattle.file_extents.specs.Extents.{HoldContents, IsContentEdit};
ghost use Rattle.flat_model.specs.Contents.{cut_block, most_file_bytes, truncated};
ghost use Rattle.flat_model.specs.Needs.{blocks_past};
ghost use Rattle.flat_model.specs.Operations.{with_record};
ghost use Rattle.flat_model.specs.Records.{FileInode, FileRecord};
ghost use Rattle.flat_model.specs.Volume.{RunSub, Subvolume};
ghost use Rattle.table_volume.specs.Edited.{Makes};
ghost use Rattle.table_volume.specs.Gives.{GivesSubvolume, data_in};
ghost use Rattle.table_volume.specs.Operated.{HasRoom};
ghost use Rattle.tree_range.specs.Shape.{IsTree, tree_items};

use crate::block::cut_bytes;
use crate::count::{END, blocks_past};
use crate::front::run_in_front;
use crate::size::write_size;
use blk_base::format::BLOCK_SIZE;
use blk_base::{Block, Ino};
use block_table::{BlockTable, SubState, Tree};
use file_blocks::file_block;
use file_extents::{clear_blocks, put_block};
use item_edit::inode_at;

/// The block of a file that a size ends in, with zeros past the size, where it is no hole; none where the size ends with a block.
fn kept_block(table: &BlockTable, tree: &Tree, ino: Ino, size: u64) -> Option<Block>
    requires tree { IsTree table.now tree.now }
    requires small { size ≤ most_file_bytes }
    ensures { (given : Subvolume) (file : FileRecord) → GivesSubvolume table.now tree.now given → get given.inodes ino.0 ≡ Some (FileInode file)
        → result ≡ cond (nat_eq (size % 4096) 0) None (option_map (λ block. cut_block block (size % 4096)) (get file.blocks (size / 4096))) }
{
    let place = (size % BLOCK_SIZE) as usize;
    if place == 0 {
        return None;
    }
    match file_block(table, tree, ino, size / BLOCK_SIZE) {
        Some(block) => Some(cut_bytes(block, place)),
        None => None,
    }
}

/// Cuts the blocks of a file to a size, without its inode item; nothing has to be done where the file isn't longer. It takes
/// at most two blocks and buffers for each block that is wholly past the size, and 122 more.
fn cut_blocks(table: &mut BlockTable, sub: &mut SubState, ino: Ino, size: u64, was: u64)
    requires given { (run : RunSub) × (file : FileRecord) × GivesFile table.old sub.old run ino.0 file × (file.size ≡ was) × HasRoom table.old (2 * blocks_past file size + 122) }
    ensures edit { (run : RunSub) (file : FileRecord) → GivesFile table.old sub.old run ino.0 file → file.size ≡ was
        → IsContentEdit table.old table.new sub.old.tree sub.new.tree sub.old.running ino.0 (2 * blocks_past file size + 122) }
    ensures contents { (run : RunSub) (file : FileRecord) → GivesFile table.old sub.old run ino.0 file → file.size ≡ was
        → HoldContents (tree_items table.new sub.new.tree) (data_in table.new) ino.0 (get (truncated file size).blocks) }
    ensures state { sub.new ≡ record sub.old { tree = sub.new.tree } }
{
    if size >= was {
        return;
    }
    let last = size / BLOCK_SIZE;
    let running = sub.running;
    let kept = kept_block(table, &sub.tree, ino, size);
    let tree = &mut sub.tree;
    clear_blocks(table, tree, ino, running, last, END);
    if let Some(block) = kept {
        let front = run_in_front(table, tree, ino, last);
        put_block(table, tree, ino, running, front, last, &block);
    }
}

/// Gives a file a size, of at most 16,777,216 bytes (btrfs_truncate_inode_items of fs/btrfs/inode-item.c; "EXTENT_DATA" and
/// "INODE_ITEM" of the on-disk format): the blocks wholly past it go, the bytes past it in the last one are zeros, and where
/// it grows a hole comes. It takes 512 blocks and buffers at most, and two for each block that goes.
pub fn cut_file(table: &mut BlockTable, sub: &mut SubState, ino: Ino, size: u64)
    requires given { (run : RunSub) × (file : FileRecord) × GivesFile table.old sub.old run ino.0 file × HasRoom table.old (512 + 2 * blocks_past file size) }
    requires few { size ≤ most_file_bytes }
    ensures made { (run : RunSub) (file : FileRecord) → GivesFile table.old sub.old run ino.0 file
        → Makes table.old table.new sub.old sub.new (512 + 2 * blocks_past file size) (with_record run.sub ino.0 (FileInode (truncated file size))) }
    ensures state { sub.new ≡ record sub.old { tree = sub.new.tree } }
{
    let running = sub.running;
    let item = inode_at(table, &sub.tree, ino);
    let past = blocks_past(table, &sub.tree, ino, size);
    cut_blocks(table, sub, ino, size, item.size);
    let nbytes = item.nbytes - BLOCK_SIZE * past;
    write_size(table, &mut sub.tree, ino, running, &item, size, nbytes);
}
