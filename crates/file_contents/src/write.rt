//! Bytes written to a file.
ghost use Rattle.std.specs.Prelude.{◌≡◌, ◌≢◌, ◌↔◌, ◌≤◌, ◌<◌, ◌+◌, ◌-◌, ◌*◌, ℕ, Some, length};
ghost use Rattle.std.specs.FinMap.{get};
ghost use Rattle.file_blocks.specs.Runs.{block_view};
ghost use Rattle.file_contents.specs.Given.{GivesFile};
ghost use Rattle.file_contents.specs.Joined.{AreJoined};
ghost use Rattle.file_contents.specs.Written.{MayPut, covers, edge_of, end_block, first_block};
ghost use Rattle.file_extents.specs.Extents.{Contents, HasRun, HoldIn, IsContentEdit, IsHeld, Joins, StandsBefore, with_blocks};
ghost use Rattle.flat_model.specs.Contents.{block_written, most_file_bytes, written};
ghost use Rattle.flat_model.specs.Operations.{with_record};
ghost use Rattle.flat_model.specs.Records.{Blocks, FileInode, FileRecord};
ghost use Rattle.flat_model.specs.Volume.{RunSub, Subvolume};
ghost use Rattle.table_volume.specs.Edited.{Makes};
ghost use Rattle.table_volume.specs.Gives.{GivesSubvolume};
ghost use Rattle.table_volume.specs.Operated.{HasRoom};
ghost use Rattle.tree_range.specs.Shape.{IsTree, tree_items};

use crate::block::block_over;
use crate::count::held_blocks;
use crate::front::run_in_front;
use crate::size::write_size;
use blk_base::format::BLOCK_SIZE;
use blk_base::{Block, Ino, Text};
use block_table::{BlockTable, SubState, Tree};
use file_blocks::file_block;
use file_extents::{Run, clear_blocks, put_block, put_text};
use item_edit::inode_at;

/// The number behind the last block that a text from an offset of a file on touches.
fn end_of(offset: u64, text: &Text) -> u64
    requires { offset + length text.now ≤ most_file_bytes }
    ensures { result ≡ end_block offset (length text.now) }
{
    (offset + text.len() as u64 + BLOCK_SIZE - 1) / BLOCK_SIZE
}

/// Whether a text covers a block of a file.
fn is_covered(number: u64, offset: u64, text: &Text) -> bool
    requires number { number ≤ 4096 }
    requires few { offset + length text.now ≤ most_file_bytes }
    ensures { result ≡ covers offset (length text.now) number }
{
    let begin = BLOCK_SIZE * number;
    offset <= begin && begin + BLOCK_SIZE <= offset + text.len() as u64
}

/// A block of a file that a text touches, with the text over it; none where the text covers it.
fn edge(
    table: &BlockTable,
    tree: &Tree,
    ino: Ino,
    number: u64,
    offset: u64,
    text: &Text,
) -> Option<Block>
    requires tree { IsTree table.now tree.now }
    requires number { number ≤ 4096 }
    requires few { offset + length text.now ≤ most_file_bytes }
    ensures { (given : Subvolume) (file : FileRecord) → GivesSubvolume table.now tree.now given → get given.inodes ino.0 ≡ Some (FileInode file)
        → result ≡ edge_of file.blocks offset text.now number }
{
    if is_covered(number, offset, text) {
        return None;
    }
    let old = file_block(table, tree, ino, number);
    Some(block_over(old, number, offset, text))
}

/// A block that a text touches, with the text over it, of which the first and the last one are these; none where the text
/// covers it.
fn edge_at<'e>(
    number: u64,
    offset: u64,
    text: &Text,
    head: &'e Option<Block>,
    tail: &'e Option<Block>,
) -> Option<&'e Block>
    requires from { first_block offset ≤ number }
    requires to { number < end_block offset (length text.now) }
    requires few { offset + length text.now ≤ most_file_bytes }
    ensures { (blocks : Blocks) → head.now ≡ edge_of blocks offset text.now (first_block offset)
        → ((last : ℕ) → last + 1 ≡ end_block offset (length text.now) → tail.now ≡ edge_of blocks offset text.now last)
        → block_view result ≡ edge_of blocks offset text.now number }
{
    if number == offset / BLOCK_SIZE {
        return head.as_ref();
    }
    if number + 1 == end_of(offset, text) {
        return tail.as_ref();
    }
    None
}

/// Gives a block of a file that a text touches a new block, and those behind it too that the text covers and for which Free
/// ones stand one behind the other. The first and the last one that the text touches are these, where it doesn't cover them.
/// It answers the run that they are in, which ends with the last of them.
fn put_next(
    table: &mut BlockTable,
    tree: &mut Tree,
    ino: Ino,
    running: u64,
    front: Run,
    number: u64,
    offset: u64,
    text: &Text,
    head: &Option<Block>,
    tail: &Option<Block>,
) -> Run
    requires held { IsHeld table.old tree.old }
    requires from { first_block offset ≤ number }
    requires to { number < end_block offset (length text.now) }
    requires few { offset + length text.now ≤ most_file_bytes }
    requires may { (contents : Contents) × (blocks : Blocks) × MayPut table.old tree.old ino.0 contents blocks offset text.now number head.now tail.now }
    requires front { StandsBefore (HasRun (tree_items table.old tree.old) ino.0) front.begin front.at.0 front.blocks }
    requires room { HasRoom table.old (17 + (end_block offset (length text.now) - number)) }
    ensures some { number < result.begin + result.blocks }
    ensures within { result.begin + result.blocks ≤ end_block offset (length text.now) }
    ensures edit { IsContentEdit table.old table.new tree.old tree.new running ino.0 (17 + (result.begin + result.blocks - number)) }
    ensures contents { (contents : Contents) (blocks : Blocks) → MayPut table.old tree.old ino.0 contents blocks offset text.now number head.now tail.now
        → HoldIn table.new tree.new ino.0 (with_blocks contents (block_written blocks offset text.now) number (result.begin + result.blocks)) }
    ensures run { HasRun (tree_items table.new tree.new) ino.0 result.begin result.at.0 result.blocks }
    ensures others { (begin at count : ℕ) → begin ≢ result.begin
        → HasRun (tree_items table.new tree.new) ino.0 begin at count ↔ HasRun (tree_items table.old tree.old) ino.0 begin at count }
    ensures joined { (at one : ℕ) × Joins front.begin front.at.0 front.blocks number at result.begin result.at.0 one }
{
    match edge_at(number, offset, text, head, tail) {
        Some(block) => put_block(table, tree, ino, running, front, number, block),
        None => {
            let end = (offset + text.len() as u64) / BLOCK_SIZE;
            put_text(table, tree, ino, running, front, number, end, offset, text)
        }
    }
}

/// Gives the blocks of a file that a text touches, which are holes, new blocks from left to right: the first and the last one
/// these, where the text doesn't cover them, and the others the text alone. It takes 306 blocks and buffers at most.
fn put_blocks(
    table: &mut BlockTable,
    tree: &mut Tree,
    ino: Ino,
    running: u64,
    offset: u64,
    text: &Text,
    head: &Option<Block>,
    tail: &Option<Block>,
)
    requires held { IsHeld table.old tree.old }
    requires some { 1 ≤ length text.now }
    requires short { length text.now ≤ 65536 }
    requires few { offset + length text.now ≤ most_file_bytes }
    requires may { (contents : Contents) × (blocks : Blocks)
        × MayPut table.old tree.old ino.0 contents blocks offset text.now (first_block offset) head.now tail.now }
    requires room { HasRoom table.old 306 }
    ensures edit { IsContentEdit table.old table.new tree.old tree.new running ino.0 306 }
    ensures contents { (contents : Contents) (blocks : Blocks)
        → MayPut table.old tree.old ino.0 contents blocks offset text.now (first_block offset) head.now tail.now
        → HoldIn table.new tree.new ino.0
        (with_blocks contents (block_written blocks offset text.now) (first_block offset) (end_block offset (length text.now))) }
    ensures joined { AreJoined (HasRun (tree_items table.new tree.new) ino.0) (first_block offset) (end_block offset (length text.now)) }
{
    let end = end_of(offset, text);
    let mut number = offset / BLOCK_SIZE;
    let mut front = run_in_front(table, tree, ino, number);
    while number < end {
        front = put_next(
            table, tree, ino, running, front, number, offset, text, head, tail,
        );
        number = front.begin + front.blocks;
    }
}

/// Writes a text over the blocks of a file from an offset on, without its inode item. It takes 442 blocks and buffers at most.
fn write_blocks(table: &mut BlockTable, sub: &mut SubState, ino: Ino, offset: u64, text: &Text)
    requires given { (run : RunSub) × (file : FileRecord) × GivesFile table.old sub.old run ino.0 file }
    requires some { 1 ≤ length text.now }
    requires short { length text.now ≤ 65536 }
    requires few { offset + length text.now ≤ most_file_bytes }
    requires room { HasRoom table.old 442 }
    ensures edit { IsContentEdit table.old table.new sub.old.tree sub.new.tree sub.old.running ino.0 442 }
    ensures contents { (run : RunSub) (file : FileRecord) → GivesFile table.old sub.old run ino.0 file
        → HoldIn table.new sub.new.tree ino.0
        (with_blocks (get file.blocks) (block_written file.blocks offset text.now) (first_block offset) (end_block offset (length text.now))) }
    ensures joined { AreJoined (HasRun (tree_items table.new sub.new.tree) ino.0) (first_block offset) (end_block offset (length text.now)) }
    ensures state { sub.new ≡ record sub.old { tree = sub.new.tree } }
{
    let first = offset / BLOCK_SIZE;
    let end = end_of(offset, text);
    let head = edge(table, &sub.tree, ino, first, offset, text);
    let tail = edge(table, &sub.tree, ino, end - 1, offset, text);
    let running = sub.running;
    let tree = &mut sub.tree;
    clear_blocks(table, tree, ino, running, first, end);
    put_blocks(table, tree, ino, running, offset, text, &head, &tail);
}

/// Writes a text of 1 to 65,536 bytes to a file from an offset on, within the 16,777,216 bytes that a file may have
/// (btrfs_file_write_iter of fs/btrfs/file.c; "EXTENT_DATA" and "INODE_ITEM" of the on-disk format). Each block that it
/// touches is a new one then, and the size reaches its end. It takes 459 blocks and buffers at most.
pub fn write_file(table: &mut BlockTable, sub: &mut SubState, ino: Ino, offset: u64, text: &Text)
    requires given { (run : RunSub) × (file : FileRecord) × GivesFile table.old sub.old run ino.0 file }
    requires some { 1 ≤ length text.now }
    requires short { length text.now ≤ 65536 }
    requires few { offset + length text.now ≤ most_file_bytes }
    requires room { HasRoom table.old 459 }
    ensures made { (run : RunSub) (file : FileRecord) → GivesFile table.old sub.old run ino.0 file
        → Makes table.old table.new sub.old sub.new 459 (with_record run.sub ino.0 (FileInode (written file offset text.now))) }
    ensures joined { AreJoined (HasRun (tree_items table.new sub.new.tree) ino.0) (first_block offset) (end_block offset (length text.now)) }
    ensures state { sub.new ≡ record sub.old { tree = sub.new.tree } }
{
    let running = sub.running;
    let item = inode_at(table, &sub.tree, ino);
    let first = offset / BLOCK_SIZE;
    let end = end_of(offset, text);
    let more = end - first - held_blocks(table, &sub.tree, ino, first, end);
    write_blocks(table, sub, ino, offset, text);
    let size = item.size.max(offset + text.len() as u64);
    let nbytes = item.nbytes + BLOCK_SIZE * more;
    write_size(table, &mut sub.tree, ino, running, &item, size, nbytes);
}
