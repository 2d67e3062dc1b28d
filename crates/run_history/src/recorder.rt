//! A core that keeps its history.
ghost use Rattle.std.specs.Prelude.{◌≡◌, []};
ghost use Rattle.commit_images.specs.Scene.{Commit, Mounted, first_scene};
ghost use Rattle.disk_model.specs.Disk.{Held};
ghost use Rattle.run_history.specs.Recorded.{IsRecorded};

use crate::run::Run;
use crate::shown::show_end;
use blk_base::OutOfMemory;
use block_table::Batch;
use commit_core::{Core, Cover, OpEnd, Turn};
use commit_history::Event;
use flat_model::Op;
use std::alloc::Global;

/// An event that may make a want takes room for so many: itself, and the seal and the end of a full commit for each of
/// 16 callers (own).
const ROOM: usize = 33;

/// A core, and the events that came to it in their order (own).
#[derive(Drop)]
pub struct Recorder<C: Core> {
    pub core: C,
    pub run: Run,
}

impl<C: Core> Recorder<C> {
    /// A core to which no event came, with a run that has none.
    pub fn new(core: C, run: Run) -> Recorder<C>
        requires empty { run.events ≡ [] }
        ensures core { result.core ≡ core }
        ensures run { result.run ≡ run }
        ensures has { (mounted : Mounted) (held : Held) (commit : Commit) → C.has core mounted (first_scene held commit)
            → IsRecorded (C.has result.core) result.run mounted (first_scene held commit) }
    {
        Recorder { core, run }
    }

    /// The core, and the events that came to it.
    pub fn into_parts(self) -> (C, Run)
        ensures { result ≡ (self.core, self.run) }
    {
        (self.core, self.run)
    }
}

impl<C: Core> Core for Recorder<C> {
    ghost use Rattle.run_history.specs.GoesOn.{device_goes_on};

    ghost has = { λ recorder. IsRecorded (C.has recorder.core) recorder.run };

    ghost size = { λ recorder. C.size recorder.core };

    ghost fsid = { λ recorder. C.fsid recorder.core };

    ghost generation = { λ recorder. C.generation recorder.core };

    ghost in_use = { λ recorder. C.in_use recorder.core };

    ghost marks = { λ recorder. C.marks recorder.core };

    ghost seals = { λ recorder. C.seals recorder.core };

    ghost made = { λ recorder. C.made recorder.core };

    ghost out = { λ recorder batch. C.out recorder.core batch };

    fn op(
        &mut self,
        alloc: Global,
        caller: u32,
        op: &Op,
        again: bool,
    ) -> Result<OpEnd, OutOfMemory> {
        let copy = op.copy(alloc)?;
        self.run.room(alloc, ROOM)?;
        let end = self.core.op(alloc, caller, op, again)?;
        self.run.push(Event::Op {
            caller,
            op: copy,
            again,
            end: show_end(&end),
            indexes: self.core.made(),
        });
        Ok(end)
    }

    fn ask_full(&mut self, alloc: Global, caller: u32) -> Result<(), OutOfMemory> {
        self.run.room(alloc, ROOM)?;
        self.core.ask_full(alloc, caller)?;
        self.run.push(Event::Ask { caller });
        Ok(())
    }

    fn seal_full(&mut self, caller: u32) -> Batch {
        let batch = self.core.seal_full(caller);
        self.run.push(Event::SealFull { caller });
        batch
    }

    fn full_done(&mut self, caller: u32, batch: Batch) {
        self.core.full_done(caller, batch);
        self.run.push(Event::FullDone { caller });
    }

    fn failed(&mut self, caller: u32, tried: bool, batch: Batch) {
        self.core.failed(caller, tried, batch);
        self.run.push(Event::Failed {
            caller,
            turn: Turn::Full,
            tried,
        });
    }

    fn may_seal_full(&self, caller: u32) -> bool {
        self.core.may_seal_full(caller)
    }

    fn cover(&self, caller: u32) -> Cover {
        self.core.cover(caller)
    }

    fn holder(&self, turn: Turn) -> Option<u32> {
        self.core.holder(turn)
    }

    fn free(&self) -> u64 {
        self.core.free()
    }

    fn failures(&self) -> u64 {
        self.core.failures()
    }

    fn made(&self) -> [u64; 2] {
        self.core.made()
    }

    ghost goes_on = { λ recorder mounted scene happening h call may.
        device_goes_on (C.has recorder.core) recorder.run mounted scene happening h call (C.goes_on recorder.core mounted scene happening h.core call may) };
}
