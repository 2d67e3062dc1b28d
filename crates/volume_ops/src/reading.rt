//! An operation that only reads.
ghost use Rattle.std.specs.Prelude.{◌≡◌, IfOk};
ghost use Rattle.flat_model.specs.Needs.{least_need};
ghost use Rattle.flat_model.specs.Step.{outcome_of};
ghost use Rattle.flat_model.specs.Volume.{RunSub};
ghost use Rattle.table_volume.specs.Operated.{IsOperated};
ghost use Rattle.table_volume.specs.Running.{GivesRun};
ghost use Rattle.volume_ops.specs.Needs.{next_indexes};

use blk_base::OutOfMemory;
use block_table::{BlockTable, SubState};
use file_ops::{get_attr, read};
use flat_model::{Answer, Op};
use name_ops::lookup;
use std::alloc::Global;

/// Carries out an operation that only reads.
pub(crate) fn read_within(
    alloc: Global,
    table: &BlockTable,
    sub: &SubState,
    op: &Op,
) -> Result<Answer, OutOfMemory>
    requires given { (run : RunSub) × GivesRun table.now sub.now run }
    requires reads { least_need op.now ≡ 0 }
    ensures { (run : RunSub) → GivesRun table.now sub.now run → IfOk result (λ answer.
        IsOperated table.now table.now sub.now sub.now run (outcome_of run op.now (next_indexes sub.now)) answer 0) }
{
    match op {
        Op::Lookup(place) => Ok(lookup(table, sub, &place.path)),
        Op::Read(place, offset, count) => read(alloc, table, sub, &place.path, *offset, *count),
        Op::GetAttr(place, name) => get_attr(alloc, table, sub, &place.path, name),
        Op::Create(_)
        | Op::Mkdir(_)
        | Op::Symlink(_, _)
        | Op::Link(_, _)
        | Op::Unlink(_)
        | Op::Rmdir(_)
        | Op::Rename(_, _)
        | Op::Exchange(_, _)
        | Op::Write(_, _, _)
        | Op::Truncate(_, _)
        | Op::SetAttr(_, _, _)
        | Op::DelAttr(_, _) => unreachable!(),
    }
}
