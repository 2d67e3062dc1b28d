//! Operations on attributes.
ghost use Rattle.std.specs.Prelude.{◌≤◌, length, IfOk};
ghost use Rattle.flat_model.specs.Operations.{get_attribute, remove_attribute, set_attribute};
ghost use Rattle.flat_model.specs.Volume.{RunSub};
ghost use Rattle.tree_range.specs.Shape.{IsTree};
ghost use Rattle.tree_frame.specs.Frame.{AreCurrent};
ghost use Rattle.table_volume.specs.Gives.{sub_reach};
ghost use Rattle.table_volume.specs.Running.{GivesRun};
ghost use Rattle.table_volume.specs.Operated.{HasRoom, IsOperated};

use crate::place::{There, find};
use attribute_items::is_crowded;
use blk_base::limits::MOST_VALUE_BYTES;
use blk_base::{Name, OutOfMemory, Text};
use block_table::{BlockTable, SubState};
use flat_model::{Answer, Path};
use std::alloc::Global;

/// The value of an attribute of what stands at a path.
pub fn get_attr(
    alloc: Global,
    table: &BlockTable,
    sub: &SubState,
    path: &Path,
    name: &Name,
) -> Result<Answer, OutOfMemory>
    requires { IsTree table.now sub.now.tree }
    ensures { (run : RunSub) → GivesRun table.now sub.now run
        → IfOk result (λ answer. IsOperated table.now table.now sub.now sub.now run (get_attribute run path.now name.now) answer 0) }
{
    match find(table, sub, path) {
        There::Missing => Ok(Answer::NoEnt),
        There::Blocked => Ok(Answer::NotDir),
        There::At(ino) => match attribute_items::get_attribute(table, sub, ino, name) {
            None => Ok(Answer::NoAttr),
            Some(bytes) => {
                let text = Text::new(alloc, bytes)?;
                Ok(Answer::Bytes(text))
            }
        },
    }
}

/// Sets an attribute of what stands at a path to a value of at least one byte, in place of the one that it has. It takes 17
/// blocks and buffers at most.
pub fn set_attr(
    table: &mut BlockTable,
    sub: &mut SubState,
    path: &Path,
    name: &Name,
    value: &Text,
) -> Answer
    requires tree { IsTree table.old sub.old.tree }
    requires current { AreCurrent table.old (sub_reach table.old sub.old.tree) }
    requires some { 1 ≤ length value.now }
    requires room { HasRoom table.old 17 }
    ensures { (run : RunSub) → GivesRun table.old sub.old run
        → IsOperated table.old table.new sub.old sub.new run (set_attribute run path.now name.now value.now) result 17 }
{
    match find(table, sub, path) {
        There::Missing => Answer::NoEnt,
        There::Blocked => Answer::NotDir,
        There::At(ino) => {
            if value.len() > MOST_VALUE_BYTES {
                return Answer::TooLarge;
            }
            if is_crowded(table, sub, ino, name, value) {
                return Answer::Collide;
            }
            // The proof reads here that the name is one.
            let _bytes = name.as_bytes();
            attribute_items::set_attribute(table, sub, ino, name, value);
            Answer::Plain
        }
    }
}

/// Takes an attribute of what stands at a path away. It takes 17 blocks and buffers at most.
pub fn del_attr(table: &mut BlockTable, sub: &mut SubState, path: &Path, name: &Name) -> Answer
    requires tree { IsTree table.old sub.old.tree }
    requires current { AreCurrent table.old (sub_reach table.old sub.old.tree) }
    requires room { HasRoom table.old 17 }
    ensures { (run : RunSub) → GivesRun table.old sub.old run
        → IsOperated table.old table.new sub.old sub.new run (remove_attribute run path.now name.now) result 17 }
{
    match find(table, sub, path) {
        There::Missing => Answer::NoEnt,
        There::Blocked => Answer::NotDir,
        There::At(ino) => {
            if attribute_items::get_attribute(table, sub, ino, name).is_none() {
                return Answer::NoAttr;
            }
            attribute_items::remove_attribute(table, sub, ino, name);
            Answer::Plain
        }
    }
}
