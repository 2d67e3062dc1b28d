//! An operation on a volume.
ghost use Rattle.std.specs.Prelude.{◌≡◌, IfOk, OnErr};
ghost use Rattle.flat_model.specs.Step.{IsInLimits};
ghost use Rattle.flat_model.specs.Volume.{RunVolume};
ghost use Rattle.table_volume.specs.Operated.{HasRoom};
ghost use Rattle.table_volume.specs.Running.{GiveVolume};
ghost use Rattle.volume_ops.specs.Done.{IsDone, room_of};

use crate::judging::refusal;
use crate::needs::least_need;
use crate::places::{is_within_sub, place_among, sub_of};
use crate::reading::read_within;
use crate::room::has_least_room;
use crate::within::change_within;
use blk_base::OutOfMemory;
use block_table::{BlockTable, SubState};
use flat_model::{Answer, Op};
use std::alloc::Global;

/// Carries out an operation in its limits on the trees of a volume's subvolumes, and says its answer: Xdev where its places
/// are of two subvolumes, and NoEnt where their subvolume isn't there ("vfs_create" and the other calls of fs/namei.c). It
/// takes 512 blocks and buffers at most, and 2 more for each data block, inline extent and attribute item that it removes; where
/// it is refused or only reads it takes none.
///
/// # Errors
///
/// Out of memory for the bytes of an answer: then nothing changes.
pub fn operate(
    alloc: Global,
    table: &mut BlockTable,
    states: &mut [SubState],
    op: &Op,
) -> Result<Answer, OutOfMemory>
    requires limits { IsInLimits op.now }
    requires given { (run : RunVolume) × GiveVolume table.old states.old run × HasRoom table.old (room_of run op.now) }
    ensures done { (run : RunVolume) → GiveVolume table.old states.old run
        → IfOk result (λ answer. IsDone table.old table.new states.old states.new run op.now answer) }
    ensures err { OnErr result ((table.new ≡ table.old) × (states.new ≡ states.old)) }
{
    if !is_within_sub(op) {
        return Ok(Answer::Xdev);
    }
    let Some(place) = place_among(states, sub_of(op)) else {
        return Ok(Answer::NoEnt);
    };
    if least_need(op) == 0 {
        return read_within(alloc, table, &states[place], op);
    }
    if has_least_room(table) {
        return Ok(change_within(table, &mut states[place], op));
    }
    match refusal(table, &states[place], op) {
        Some(answer) => Ok(answer),
        None => unreachable!(),
    }
}
