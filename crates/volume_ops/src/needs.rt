//! What an operation needs, told before it is carried out.
ghost use Rattle.std.specs.Prelude.{◌≡◌, ◌≤◌};
ghost use Rattle.flat_model.specs.Needs.{least_need, need};
ghost use Rattle.flat_model.specs.Step.{IsInLimits};
ghost use Rattle.flat_model.specs.Volume.{RunSub, RunVolume};
ghost use Rattle.table_volume.specs.Running.{GiveVolume, GivesRun};
ghost use Rattle.volume_ops.specs.Needs.{need_in, next_indexes};

use crate::judging::refusal;
use crate::places::{is_within_sub, place_among, sub_of};
use block_table::{BlockTable, SubState};
use flat_model::Op;
use operation_needs::removed;

/// How many blocks have to be free for an operation that removes nothing: 2560 where it adds items, 1536 where it only takes
/// some away, and none where it only reads (own).
pub(crate) fn least_need(op: &Op) -> u64
    ensures value { result ≡ least_need op.now }
    ensures few { result ≤ 2560 }
{
    match op {
        Op::Create(_)
        | Op::Mkdir(_)
        | Op::Symlink(_, _)
        | Op::Link(_, _)
        | Op::Rename(_, _)
        | Op::Exchange(_, _)
        | Op::Write(_, _, _)
        | Op::SetAttr(_, _, _) => 2560,
        Op::Unlink(_) | Op::Rmdir(_) | Op::Truncate(_, _) | Op::DelAttr(_, _) => 1536,
        Op::Lookup(_) | Op::Read(_, _, _) | Op::GetAttr(_, _) => 0,
    }
}

/// How many blocks have to be free for an operation within a subvolume.
fn need_within(table: &BlockTable, sub: &SubState, op: &Op) -> u64
    requires limits { IsInLimits op.now }
    requires given { (run : RunSub) × GivesRun table.now sub.now run }
    ensures { (run : RunSub) → GivesRun table.now sub.now run → result ≡ need_in run op.now (next_indexes sub.now) }
{
    match refusal(table, sub, op) {
        Some(_) => 0,
        None => least_need(op) + 2 * removed(table, sub, op),
    }
}

/// How many blocks have to be free for an operation in its limits: 2560 where it adds items, 1536 where it only takes some away,
/// and 2 more for each data block, inline extent and attribute item that it removes; none where it is refused or only reads
/// (own).
pub fn need(table: &BlockTable, states: &[SubState], op: &Op) -> u64
    requires limits { IsInLimits op.now }
    requires given { (run : RunVolume) × GiveVolume table.now states.now run }
    ensures { (run : RunVolume) → GiveVolume table.now states.now run → result ≡ need run op.now }
{
    if !is_within_sub(op) {
        return 0;
    }
    let Some(place) = place_among(states, sub_of(op)) else {
        return 0;
    };
    need_within(table, &states[place], op)
}
