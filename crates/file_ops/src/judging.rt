//! Which refusal comes first for an operation on contents or attributes, told without an edit.
ghost use Rattle.std.specs.Prelude.{◌≡◌, ◌≤◌, length};
ghost use Rattle.flat_model.specs.Operations.{remove_attribute, set_attribute, truncate, write};
ghost use Rattle.flat_model.specs.Volume.{RunSub};
ghost use Rattle.table_volume.specs.Running.{GivesRun};
ghost use Rattle.file_ops.specs.Refused.{refusal_of};

use crate::contents::find_file;
use crate::place::{There, find};
use attribute_items::{get_attribute, is_crowded};
use blk_base::limits::{MOST_FILE_BYTES, MOST_VALUE_BYTES};
use blk_base::{Name, Text};
use block_table::{BlockTable, SubState};
use flat_model::{Answer, Path};

/// The answer that refuses a write of a text of at most 65,536 bytes from an offset on; none where it would be done (own).
pub fn refused_write(
    table: &BlockTable,
    sub: &SubState,
    path: &Path,
    offset: u64,
    text: &Text,
) -> Option<Answer>
    requires given { (run : RunSub) × GivesRun table.now sub.now run }
    requires short { length text.now ≤ 65536 }
    ensures { (run : RunSub) → GivesRun table.now sub.now run → result ≡ refusal_of (write run path.now offset text.now) }
{
    match find_file(table, sub, path) {
        Ok(_) => {
            let count = text.len() as u64;
            if offset > MOST_FILE_BYTES - count {
                return Some(Answer::TooLarge);
            }
            None
        }
        Err(answer) => Some(answer),
    }
}

/// The answer that refuses that a file gets a size in bytes; none where it would get it (own).
pub fn refused_truncate(
    table: &BlockTable,
    sub: &SubState,
    path: &Path,
    size: u64,
) -> Option<Answer>
    requires given { (run : RunSub) × GivesRun table.now sub.now run }
    ensures { (run : RunSub) → GivesRun table.now sub.now run → result ≡ refusal_of (truncate run path.now size) }
{
    match find_file(table, sub, path) {
        Ok(_) => {
            if size > MOST_FILE_BYTES {
                return Some(Answer::TooLarge);
            }
            None
        }
        Err(answer) => Some(answer),
    }
}

/// The answer that refuses that an attribute gets a value; none where it would get it (own).
pub fn refused_set_attr(
    table: &BlockTable,
    sub: &SubState,
    path: &Path,
    name: &Name,
    value: &Text,
) -> Option<Answer>
    requires given { (run : RunSub) × GivesRun table.now sub.now run }
    ensures { (run : RunSub) → GivesRun table.now sub.now run → result ≡ refusal_of (set_attribute run path.now name.now value.now) }
{
    match find(table, sub, path) {
        There::Missing => Some(Answer::NoEnt),
        There::Blocked => Some(Answer::NotDir),
        There::At(ino) => {
            if value.len() > MOST_VALUE_BYTES {
                return Some(Answer::TooLarge);
            }
            if is_crowded(table, sub, ino, name, value) {
                return Some(Answer::Collide);
            }
            None
        }
    }
}

/// The answer that refuses that an attribute goes; none where it would go (own).
pub fn refused_del_attr(
    table: &BlockTable,
    sub: &SubState,
    path: &Path,
    name: &Name,
) -> Option<Answer>
    requires given { (run : RunSub) × GivesRun table.now sub.now run }
    ensures { (run : RunSub) → GivesRun table.now sub.now run → result ≡ refusal_of (remove_attribute run path.now name.now) }
{
    match find(table, sub, path) {
        There::Missing => Some(Answer::NoEnt),
        There::Blocked => Some(Answer::NotDir),
        There::At(ino) => {
            if get_attribute(table, sub, ino, name).is_none() {
                return Some(Answer::NoAttr);
            }
            None
        }
    }
}
