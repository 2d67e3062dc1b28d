//! A volume's events, each a method, and the readers that their callers ask.
use crate::counting::count_used;
use crate::ending::{end_done, end_failed, marks_failed};
use crate::spelled::read_op;
use crate::volume::{Spares, Volume};
use blk_base::{Marks, OutOfMemory};
use block_table::Batch;
use commit_core::{Core, Cover, OpEnd, Turn};
use flat_model::Op;
use std::alloc::Global;
use volume_ops::{made_indexes, need, next_index};

/// An operation's need of free blocks is at least so many more than the buffers that it takes (own).
const NEED_ABOVE_ROOM: u64 = 1024;

/// So many buffers are kept spare for seals (own).
const SEAL_BUFFERS: u32 = 80;

/// So many blocks are never free for an operation (own).
const KEPT_FREE: u64 = 82;

impl Core for Volume {
    ghost use Rattle.std.specs.Prelude.{length};
    ghost use Rattle.volume_core.specs.InUse.{in_use};
    ghost use Rattle.volume_core.specs.Keeps.{IsBatchOut, IsVolume};
    ghost use Rattle.volume_core.specs.GoesOn.{device_goes_on};

    ghost has = { IsVolume };

    ghost size = { λ volume. length volume.kept.table.slots };

    ghost fsid = { λ volume. volume.kept.fsid };

    ghost generation = { λ volume. volume.kept.generation };

    ghost in_use = { λ volume. in_use volume.kept.table };

    ghost marks = { λ volume. volume.marks };

    ghost seals = { λ volume. volume.seals };

    ghost made = { λ volume. volume.made };

    ghost out = { IsBatchOut };

    fn op(
        &mut self,
        alloc: Global,
        caller: u32,
        op: &Op,
        again: bool,
    ) -> Result<OpEnd, OutOfMemory> {
        read_op(op);
        let need = need(&self.kept.table, &self.kept.states, op);
        let free = self.free();
        if free < need {
            self.made = [0, 0];
            self.callers.operated(caller, again, true);
            return Ok(OpEnd::Short { free, need });
        }
        let buffers = need.saturating_sub(NEED_ABOVE_ROOM) as u32 + SEAL_BUFFERS;
        self.kept.reserve(alloc, buffers)?;
        let before = next_index(&self.kept.states, op);
        let answer = self.kept.operate(alloc, op)?;
        self.made = made_indexes(before, next_index(&self.kept.states, op));
        self.callers.operated(caller, again, false);
        Ok(OpEnd::Answered(answer))
    }

    fn ask_full(&mut self, alloc: Global, caller: u32) -> Result<(), OutOfMemory> {
        self.kept.reserve(alloc, SEAL_BUFFERS)?;
        self.callers.asked(caller);
        Ok(())
    }

    fn seal_full(&mut self, caller: u32) -> Batch {
        let Some(spares) = self.spares.take() else {
            unreachable!()
        };
        let Spares {
            parts,
            mut superblock,
        } = spares;
        let blocks = self.kept.seal(&mut superblock);
        self.callers.sealed(caller);
        self.seals += 1;
        Batch {
            marks: self.marks,
            seal: self.seals,
            full: true,
            parts,
            blocks,
            superblock,
        }
    }

    fn full_done(&mut self, caller: u32, batch: Batch) {
        let Batch {
            seal,
            parts,
            blocks,
            superblock,
            ..
        } = batch;
        end_done(&mut self.kept, blocks);
        self.callers.done(caller);
        self.failures = 0;
        self.marks = Marks {
            done: seal,
            tried: seal,
            full: seal,
        };
        self.spares = Some(Spares { parts, superblock });
    }

    fn failed(&mut self, caller: u32, tried: bool, batch: Batch) {
        let Batch {
            seal,
            parts,
            blocks,
            superblock,
            ..
        } = batch;
        end_failed(&mut self.kept, tried, blocks);
        self.callers.failed(caller);
        self.failures += 1;
        self.marks = marks_failed(self.marks, tried, seal);
        self.spares = Some(Spares { parts, superblock });
    }

    fn may_seal_full(&self, caller: u32) -> bool {
        self.callers.may_seal(caller)
    }

    fn cover(&self, caller: u32) -> Cover {
        if self.callers.is_covered(caller) {
            Cover::Full
        } else {
            Cover::Open
        }
    }

    fn holder(&self, turn: Turn) -> Option<u32> {
        match turn {
            Turn::Full => self.callers.holder(),
            Turn::Slot(_, _) | Turn::Root => None,
        }
    }

    fn free(&self) -> u64 {
        let used = count_used(&self.kept.table);
        u64::from(self.kept.table.blocks()).saturating_sub(KEPT_FREE + u64::from(used))
    }

    fn failures(&self) -> u64 {
        self.failures
    }

    fn made(&self) -> [u64; 2] {
        self.made
    }

    ghost goes_on = { device_goes_on };
}
