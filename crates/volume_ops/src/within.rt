//! An operation that changes a subvolume.
ghost use Rattle.std.specs.Prelude.{◌≡◌, ◌≢◌, ◌+◌, ◌*◌};
ghost use Rattle.flat_model.specs.Needs.{least_need, removed_from};
ghost use Rattle.flat_model.specs.Step.{IsInLimits, outcome_of};
ghost use Rattle.flat_model.specs.Volume.{RunSub};
ghost use Rattle.table_volume.specs.Operated.{HasRoom, IsOperated};
ghost use Rattle.table_volume.specs.Running.{GivesRun};
ghost use Rattle.volume_ops.specs.Needs.{next_indexes, room_in};

use block_table::{BlockTable, SubState};
use file_ops::{del_attr, set_attr, truncate, write};
use flat_model::{Answer, Op};
use name_ops::{create, exchange, link, mkdir, rename, rmdir, symlink, unlink};

/// Carries out an operation that changes a subvolume, where it isn't refused; its new names get the next two indexes.
pub(crate) fn change_within(table: &mut BlockTable, sub: &mut SubState, op: &Op) -> Answer
    requires limits { IsInLimits op.now }
    requires changes { least_need op.now ≢ 0 }
    requires given { (run : RunSub) × GivesRun table.old sub.old run × HasRoom table.old (room_in run op.now (next_indexes sub.old)) }
    requires least { HasRoom table.old 512 }
    ensures { (run : RunSub) → GivesRun table.old sub.old run
        → IsOperated table.old table.new sub.old sub.new run (outcome_of run op.now (next_indexes sub.old)) result (512 + 2 * removed_from run.sub op.now) }
{
    match op {
        Op::Create(place) => create(table, sub, &place.path),
        Op::Mkdir(place) => mkdir(table, sub, &place.path),
        Op::Symlink(place, target) => symlink(table, sub, &place.path, target),
        Op::Link(old, new) => link(table, sub, &old.path, &new.path),
        Op::Unlink(place) => unlink(table, sub, &place.path),
        Op::Rmdir(place) => rmdir(table, sub, &place.path),
        Op::Rename(old, new) => rename(table, sub, &old.path, &new.path),
        Op::Exchange(one, two) => exchange(table, sub, &one.path, &two.path),
        Op::Write(place, offset, text) => write(table, sub, &place.path, *offset, text),
        Op::Truncate(place, size) => truncate(table, sub, &place.path, *size),
        Op::SetAttr(place, name, value) => set_attr(table, sub, &place.path, name, value),
        Op::DelAttr(place, name) => del_attr(table, sub, &place.path, name),
        Op::Lookup(_) | Op::Read(_, _, _) | Op::GetAttr(_, _) => unreachable!(),
    }
}
