//! A volume on trees in a table of blocks.
ghost use Rattle.flat_model.specs.Step.{IsInLimits};
ghost use Rattle.flat_model.specs.Volume.{RunSub, RunVolume};
ghost use Rattle.table_volume.specs.Running.{GiveVolume, GivesRun};

use bare_volume::bare_states;
use blk_base::format::EXTENT_DATA;
use blk_base::{Ino, Key, OutOfMemory};
use block_table::{BlockTable, SubState};
use flat_model::{Answer, Op};
use item_extent::Extent;
use std::alloc::Global;
use std::marker::Model;
use tree_range::range;
use volume_ops::{need, operate};
use volume_seal::count_blocks;

/// The blocks of a table, and its buffers.
const BLOCKS: u32 = 8192;

const BUFFERS: u32 = 4000;

/// A volume of two subvolumes on trees in a table.
#[derive(Drop)]
pub(crate) struct TreeVolume {
    table: BlockTable,
    states: Vec<SubState>,
    /// The blocks that were Free before there was a tree.
    usable: u32,
}

impl Model for TreeVolume {
    ghost use Rattle.std.specs.Prelude.{ℕ};
    ghost use Rattle.flat_model.specs.Volume.{RunVolume};
    ghost use Rattle.table_volume.specs.Running.{GiveVolume};

    ghost Value = { ℕ };

    ghost view = { λ volume. volume.usable };

    ghost invariant = { λ volume. (run : RunVolume) × GiveVolume volume.table volume.states.items run };
}

impl TreeVolume {
    /// A new one, with nothing but its root directories.
    pub(crate) fn empty(alloc: Global) -> Result<TreeVolume, OutOfMemory> {
        let mut table = BlockTable::new(alloc, BLOCKS)?;
        table.reserve(alloc, BUFFERS)?;
        let usable = table.free_count();
        if usable < 70 || table.spare() < 70 {
            return Err(OutOfMemory);
        }
        let states = bare_states(alloc, &mut table, 2, 1)?;
        Ok(TreeVolume {
            table,
            states,
            usable,
        })
    }

    /// Carries out an operation, where there is room for it.
    pub(crate) fn apply(&mut self, alloc: Global, op: &Op) -> Result<Option<Answer>, OutOfMemory>
        requires { IsInLimits op.now }
    {
        let need = need(&self.table, &self.states, op);
        let (free, spare) = (self.table.free_count(), self.table.spare());
        if u64::from(free) < need || u64::from(spare) < need {
            return Ok(None);
        }
        let answer = operate(alloc, &mut self.table, &mut self.states, op)?;
        Ok(Some(answer))
    }

    /// How many blocks aren't Free.
    pub(crate) fn taken(&self) -> u32 {
        self.usable.wrapping_sub(self.table.free_count())
    }

    /// How many blocks the trees and the data of their files have.
    pub(crate) fn counted(&self) -> u32 {
        count_all(&self.table, &self.states)
    }

    /// How many extents the first file of subvolume 5 has, and how many bytes the last of them covers.
    pub(crate) fn first_file(&self) -> (u32, u64) {
        first_extents(&self.table, &self.states)
    }
}

/// How many blocks the trees of a volume and the data of their files have.
fn count_all(table: &BlockTable, states: &[SubState]) -> u32
    requires { (run : RunVolume) × GiveVolume table.now states.now run }
{
    let mut count = 0u32;
    for state in states {
        count = count.wrapping_add(count_blocks(table, &state.tree));
    }
    count
}

/// How many extents inode 257 of the first subvolume has, and how many bytes the last of them covers.
fn first_extents(table: &BlockTable, states: &[SubState]) -> (u32, u64)
    requires { (run : RunVolume) × GiveVolume table.now states.now run }
{
    if states.len() == 0 {
        return (0, 0);
    }
    extents(table, &states[0])
}

/// How many extents inode 257 has, and how many bytes the last of them covers.
fn extents(table: &BlockTable, state: &SubState) -> (u32, u64)
    requires { (run : RunSub) × GivesRun table.now state.now run }
{
    let first = key_at(0);
    let last = key_at(u64::MAX);
    let mut extents = (0u32, 0);
    for (key, bytes) in range(table, &state.tree, &first, &last) {
        extents = (extents.0.wrapping_add(1), extent_len(&key, bytes));
    }
    extents
}

/// The key of an extent of inode 257.
fn key_at(offset: u64) -> Key {
    Key {
        objectid: Ino(257).0,
        kind: EXTENT_DATA,
        offset,
    }
}

/// How many bytes an extent covers.
fn extent_len(key: &Key, bytes: &[u8]) -> u64 {
    match Extent::open(key, bytes) {
        Ok(Extent::Regular { length, .. }) => length,
        Ok(Extent::Inline(_)) | Ok(Extent::Hole { .. }) | Err(_) => 0,
    }
}
