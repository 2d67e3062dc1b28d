ghost use Rattle.std.specs.Prelude.{◌≡◌, ◌≤◌, ◌+◌, ◌*◌, [], All, IfOk, OnErr, length, map, nat_eq, if◌then◌else◌};
ghost use Rattle.std.specs.List.{flat_map};
ghost use Rattle.flat_model.specs.Volume.{bare_volume, mounted, subvolume_ids};
ghost use Rattle.tree_frame.specs.Frame.{IsEdit, TakesAtMost};
ghost use Rattle.table_volume.specs.Gives.{AreAccounted, sub_reach};
ghost use Rattle.table_volume.specs.Operated.{HasRoom};
ghost use Rattle.table_volume.specs.Running.{GiveVolume, id_of};

use bare_state::bare_state;
use blk_base::OutOfMemory;
use block_table::{BlockTable, SubState};
use std::alloc::Global;

/// The number of the subvolume at this place among all, from 0.
fn subvolume_id(place: u8) -> u64
    ensures { result ≡ (if nat_eq place 0 then 5 else 255 + place) }
{
    if place == 0 { 5 } else { 255 + place as u64 }
}

/// The states of 1 to 16 new subvolumes, by rising numbers, each with nothing but its root directory, made in a
/// transaction; together they are a volume as it is when it is made and mounted ("ROOT_ITEM" of the on-disk format).
/// No tree is committed yet. They have 5 blocks each at most, and take 35 blocks
/// and buffers each at most.
///
/// # Errors
///
/// Out of memory for the list: then no block is taken.
pub fn bare_states(
    alloc: Global,
    table: &mut BlockTable,
    subs: u8,
    running: u64,
) -> Result<Vec<SubState>, OutOfMemory>
    requires at_least_one { 1 ≤ subs }
    requires at_most_16 { subs ≤ 16 }
    requires room { HasRoom table.old (35 * subs) }
    ensures given { IfOk result (λ states. GiveVolume table.new states.items (mounted (bare_volume subs))) }
    ensures ids { IfOk result (λ states. map id_of states.items ≡ subvolume_ids subs) }
    ensures running { IfOk result (λ states. All (λ state. state.running ≡ running) states.items) }
    ensures edit { IfOk result (λ states. IsEdit table.old table.new [] (flat_map (λ state. sub_reach table.new state.tree) states.items)) }
    ensures few { IfOk result (λ states. length (flat_map (λ state. sub_reach table.new state.tree) states.items) ≤ 5 * subs) }
    ensures accounted { AreAccounted table.old []
        → IfOk result (λ states. AreAccounted table.new (flat_map (λ state. sub_reach table.new state.tree) states.items)) }
    ensures taken { TakesAtMost table.old table.new (35 * subs) }
    ensures err { OnErr result (table.new ≡ table.old) }
{
    let mut states = Vec::with_capacity(alloc, subs as usize)?;
    for place in 0..subs {
        states.push_reserved(bare_state(table, subvolume_id(place), running));
    }
    Ok(states)
}
