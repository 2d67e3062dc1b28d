//! The indexes that the new names of an operation get.
ghost use Rattle.std.specs.Prelude.{◌≡◌, ◌<◌, ◌+◌, ◌^◌};
ghost use Rattle.block_table.specs.Table.{Table};
ghost use Rattle.flat_model.specs.Volume.{RunVolume};
ghost use Rattle.table_volume.specs.Running.{GiveVolume};
ghost use Rattle.volume_ops.specs.Indexes.{made_between, next_index_of};

use crate::places::{place_among, sub_of};
use block_table::SubState;
use flat_model::Op;

/// The next index of the subvolume of an operation's places, the first where it has two; 0 where it isn't there.
pub fn next_index(states: &[SubState], op: &Op) -> u64
    ensures { (table : Table) (run : RunVolume) → GiveVolume table states.now run → result ≡ next_index_of run op.now }
{
    match place_among(states, sub_of(op)) {
        Some(place) => states[place].next_index,
        None => 0,
    }
}

/// The indexes of the at most two names that an operation made, 0 where there is none: those from the next index before it
/// up to the next one behind it.
pub fn made_indexes(before: u64, behind: u64) -> [u64; 2]
    ensures { result ≡ made_between before behind }
{
    match behind.saturating_sub(before) {
        0 => [0, 0],
        1 => [before, 0],
        _ => [before, before + 1],
    }
}
