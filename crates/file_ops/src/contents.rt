//! Operations on the contents of files.
ghost use Rattle.std.specs.Prelude.{◌≡◌, ◌≤◌, ℕ, List, Bool, Some, false, length, IfOk, MatchResult};
ghost use Rattle.file_contents.specs.Joined.{AreJoined};
ghost use Rattle.file_contents.specs.Written.{end_block, first_block};
ghost use Rattle.file_extents.specs.Extents.{HasRun};
ghost use Rattle.file_ops.specs.Room.{most_for, room_for};
ghost use Rattle.file_ops.specs.There.{IsFileAt, IsRefusedFile};
ghost use Rattle.flat_model.specs.Needs.{blocks_past};
ghost use Rattle.flat_model.specs.Operations.{file_there, read, truncate, write};
ghost use Rattle.flat_model.specs.Refusal.{is_refusal};
ghost use Rattle.flat_model.specs.Volume.{RunSub};
ghost use Rattle.flat_model.specs.Walk.{ino_at, record_at, walk};
ghost use Rattle.tree_range.specs.Shape.{IsTree, tree_items};
ghost use Rattle.table_volume.specs.Running.{GivesRun};
ghost use Rattle.table_volume.specs.Operated.{HasRoom, IsOperated};

use crate::place::{There, find};
use blk_base::limits::MOST_FILE_BYTES;
use blk_base::{Ino, OutOfMemory, Text};
use block_table::{BlockTable, SubState};
use file_contents::{cut_file, write_file};
use flat_model::{Answer, Kind, Path};
use name_walk::record_kind;
use std::alloc::Global;

/// At most so many bytes of the file at a path from an offset on, up to its size.
pub fn read(
    alloc: Global,
    table: &BlockTable,
    sub: &SubState,
    path: &Path,
    offset: u64,
    count: u64,
) -> Result<Answer, OutOfMemory>
    requires { IsTree table.now sub.now.tree }
    ensures { (run : RunSub) → GivesRun table.now sub.now run
        → IfOk result (λ answer. IsOperated table.now table.now sub.now sub.now run (read run path.now offset count) answer 0) }
{
    match find(table, sub, path) {
        There::Missing => Ok(Answer::NoEnt),
        There::Blocked => Ok(Answer::NotDir),
        There::At(ino) => match record_kind(table, &sub.tree, ino.0) {
            Some(Kind::Dir) => Ok(Answer::IsDir),
            Some(Kind::Link) => Ok(Answer::Loop),
            Some(Kind::File) => {
                let text = file_blocks::read(alloc, table, &sub.tree, ino, offset, count)?;
                Ok(Answer::Bytes(text))
            }
            None => Ok(Answer::NoEnt),
        },
    }
}

/// The number of the file at a path, or the answer where none is there.
pub(crate) fn find_file(table: &BlockTable, sub: &SubState, path: &Path) -> Result<Ino, Answer>
    requires { IsTree table.now sub.now.tree }
    ensures { (run : RunSub) → GivesRun table.now sub.now run
        → MatchResult result (λ ino. IsFileAt run.sub (walk run.sub path.now) ino.0) (IsRefusedFile run (walk run.sub path.now)) }
{
    match find(table, sub, path) {
        There::Missing => Err(Answer::NoEnt),
        There::Blocked => Err(Answer::NotDir),
        There::At(ino) => match record_kind(table, &sub.tree, ino.0) {
            Some(Kind::Dir) => Err(Answer::IsDir),
            Some(Kind::Link) => Err(Answer::Loop),
            Some(Kind::File) => Ok(ino),
            None => Err(Answer::NoEnt),
        },
    }
}

/// Writes a text of 1 to 65,536 bytes to the file at a path from an offset on. It takes 512 blocks and buffers at most.
pub fn write(
    table: &mut BlockTable,
    sub: &mut SubState,
    path: &Path,
    offset: u64,
    text: &Text,
) -> Answer
    requires given { (run : RunSub) × GivesRun table.old sub.old run }
    requires some { 1 ≤ length text.now }
    requires short { length text.now ≤ 65536 }
    requires room { HasRoom table.old 512 }
    ensures operated { (run : RunSub) → GivesRun table.old sub.old run
        → IsOperated table.old table.new sub.old sub.new run (write run path.now offset text.now) result 512 }
    ensures joined { (run : RunSub) (ino : ℕ) → GivesRun table.old sub.old run → ino_at (walk run.sub path.now) ≡ Some ino → is_refusal result ≡ false
        → AreJoined (HasRun (tree_items table.new sub.new.tree) ino) (first_block offset) (end_block offset (length text.now)) }
{
    match find_file(table, sub, path) {
        Ok(ino) => {
            let count = text.len() as u64;
            if offset > MOST_FILE_BYTES - count {
                return Answer::TooLarge;
            }
            write_file(table, sub, ino, offset, text);
            Answer::Number(count)
        }
        Err(answer) => answer,
    }
}

/// Gives the file at a path a size in bytes. It takes 512 blocks and buffers at most, and two for each data block that goes.
pub fn truncate(table: &mut BlockTable, sub: &mut SubState, path: &Path, size: u64) -> Answer
    requires given { (run : RunSub) × GivesRun table.old sub.old run
        × HasRoom table.old (room_for (truncate run path.now size) (blocks_past (file_there (record_at run.sub (walk run.sub path.now))) size)) }
    ensures { (run : RunSub) → GivesRun table.old sub.old run
        → IsOperated table.old table.new sub.old sub.new run (truncate run path.now size) result (most_for (blocks_past (file_there (record_at run.sub (walk run.sub path.now))) size)) }
{
    match find_file(table, sub, path) {
        Ok(ino) => {
            if size > MOST_FILE_BYTES {
                return Answer::TooLarge;
            }
            cut_file(table, sub, ino, size);
            Answer::Plain
        }
        Err(answer) => answer,
    }
}
