ghost use Rattle.std.specs.Prelude.{◌≡◌, ◌≢◌, ◌↔◌, ◌≤◌, ◌<◌, ◌+◌, ◌^◌, length, IfOk, OnErr, IsTrue, Some, None};
ghost use Rattle.block_table.specs.declared.batch.Batch.{Batch};
ghost use Rattle.flat_model.specs.declared.request.Request.TheVariants as requests;
ghost use Rattle.commit_history.specs.declared.event.Cover.TheVariants as covers;
ghost use Rattle.commit_history.specs.Calls as history;
ghost use Rattle.commit_images.specs.Scene.{Mounted, Scene};
ghost use Rattle.commit_room.specs.Room.{free_blocks};
ghost use Rattle.commit_core.specs.Coming.{call_in};
ghost use Rattle.commit_core.specs.Few.{IsJustSealed};
ghost use Rattle.call_steps.specs.declared.call.Stage.TheVariants as stages;
ghost use Rattle.call_steps.specs.Standing.{IsAllowed, IsAt, IsFinished, IsNew, IsOver, IsWaiting};
ghost use Rattle.call_steps.specs.Steps.{HandsOut, HasStepped, IsFullBatch, IsLast, LeavesFew, MayStep, StaysOut, generation_after, marks_after, seals_after};

use crate::next::Next;
use blk_base::OutOfMemory;
use commit_core::{Core, Cover, OpEnd, Outcome, Turn, Work};
use disk_model::DeviceFault;
use flat_model::{Answer, Request};
use std::alloc::Global;

/// Where a call stands.
#[derive(Clone, Copy)]
enum Stage {
    /// It has made no event.
    New,
    /// It waits for a full commit: that of another caller, or its own.
    Wants,
    /// It has answered.
    Finished,
}

/// A call on a volume, an operation or a sync: its caller, 1 to 16, what it was begun with, and where it stands (own).
#[derive(Drop)]
pub struct Call {
    caller: u32,
    request: Request,
    stage: Stage,
}

impl Call {
    /// A call that has made no event, of a caller, 1 to 16, whose last call has finished (own).
    pub fn start(caller: u32, request: Request) -> Call
        requires from_one { 1 ≤ caller }
        requires to_sixteen { caller ≤ 16 }
        requires allowed { IsAllowed request }
        ensures at { (past : history.Call) → IsOver past → IsAt result past }
        ensures new { IsNew result }
        ensures caller { result.caller ≡ caller }
        ensures request { result.request ≡ request }
    {
        Call {
            caller,
            request,
            stage: Stage::New,
        }
    }

    /// Its caller.
    pub fn caller(&self) -> u32
        ensures { result ≡ self.now.caller }
    {
        self.caller
    }

    /// Whether it has answered.
    pub fn is_finished(&self) -> bool
        ensures { IsTrue result ↔ IsFinished self.now }
    {
        matches!(self.stage, Stage::Finished)
    }

    /// Takes a turn: makes the next event of the call, where it may come (own; after btrfs_sync_fs of fs/btrfs/super.c and
    /// btrfs_commit_transaction of fs/btrfs/transaction.c). `done` is the work that an earlier turn of the call handed out,
    /// with the device's result; it comes back in the call's next turn.
    ///
    /// An operation that is short is tried again once, in the turn after a full commit has covered it. A sync finishes in
    /// the turn that makes the end of its own full commit, or in the next one once another's has covered it. A call whose
    /// device work failed finishes with that. Where no event came between a full commit's seal and its end, few blocks are
    /// in use behind it.
    ///
    /// # Errors
    ///
    /// Out of memory: then no event came, and the call stands where it stood.
    pub fn step<C: Core>(
        &mut self,
        alloc: Global,
        core: &mut C,
        done: Option<Outcome>,
    ) -> Result<Next, OutOfMemory>
        requires may { (mounted : Mounted) × (scene : Scene) × C.has core.old mounted scene × MayStep (C.out core.old) mounted scene self.old done }
        requires more { C.seals core.old + 1 < 2 ^ 64 }
        ensures stepped { (mounted : Mounted) (scene : Scene) → C.has core.old mounted scene → MayStep (C.out core.old) mounted scene self.old done
            → IfOk result (HasStepped (C.has core.new) (core.new ≡ core.old) mounted scene self.old self.new done
            (free_blocks (C.size core.old) (length (C.in_use core.old))) (C.made core.new)) }
        ensures few { (mounted : Mounted) (scene : Scene) → C.has core.old mounted scene → MayStep (C.out core.old) mounted scene self.old done
            → IsJustSealed scene self.old.caller → IfOk result (LeavesFew mounted scene self.old.caller (length (C.in_use core.new)) done) }
        ensures finished { IfOk result (λ next. IsFinished self.new ↔ IsLast next) }
        ensures handed { IfOk result (HandsOut
            (IsFullBatch (C.size core.old) (C.fsid core.old) (C.generation core.old) (C.seals core.old) (C.marks core.old)) (C.out core.new)) }
        ensures memory { (mounted : Mounted) (scene : Scene) → C.has core.old mounted scene → OnErr result (C.has core.new mounted scene) }
        ensures unmoved { OnErr result (self.new ≡ self.old) }
        ensures no_work { OnErr result (done ≡ None) }
        ensures caller { self.new.caller ≡ self.old.caller }
        ensures request { self.new.request ≡ self.old.request }
        ensures kept { (batch : Batch) → C.out core.old batch → IfOk result (StaysOut (C.out core.new batch) done) }
        ensures kept_out { (batch : Batch) → C.out core.old batch → OnErr result (C.out core.new batch) }
        ensures marks { C.marks core.new ≡ marks_after (C.marks core.old) done }
        ensures seals { IfOk result (λ next. C.seals core.new ≡ seals_after (C.seals core.old) next) }
        ensures generation { IfOk result (λ next. C.generation core.new ≡ generation_after (C.generation core.old) next) }
        ensures same_seals { OnErr result (C.seals core.new ≡ C.seals core.old) }
        ensures same_generation { OnErr result (C.generation core.new ≡ C.generation core.old) }
        ensures size { C.size core.new ≡ C.size core.old }
        ensures fsid { C.fsid core.new ≡ C.fsid core.old }
    {
        match self.stage {
            Stage::New => self.begin(alloc, core),
            Stage::Wants => match done {
                Some(outcome) => Ok(self.end_commit(core, outcome)),
                None => self.go_on(alloc, core),
            },
            Stage::Finished => unreachable!(),
        }
    }
}

impl Call {
    /// The first turn.
    fn begin<C: Core>(&mut self, alloc: Global, core: &mut C) -> Result<Next, OutOfMemory>
        requires may { (mounted : Mounted) × (scene : Scene) × C.has core.old mounted scene × MayStep (C.out core.old) mounted scene self.old None }
        requires new { IsNew self.old }
        ensures stepped { (mounted : Mounted) (scene : Scene) → C.has core.old mounted scene → MayStep (C.out core.old) mounted scene self.old None
            → IfOk result (HasStepped (C.has core.new) (core.new ≡ core.old) mounted scene self.old self.new None
            (free_blocks (C.size core.old) (length (C.in_use core.old))) (C.made core.new)) }
        ensures finished { IfOk result (λ next. IsFinished self.new ↔ IsLast next) }
        ensures handed { IfOk result (HandsOut
            (IsFullBatch (C.size core.old) (C.fsid core.old) (C.generation core.old) (C.seals core.old) (C.marks core.old)) (C.out core.new)) }
        ensures memory { (mounted : Mounted) (scene : Scene) → C.has core.old mounted scene → OnErr result (C.has core.new mounted scene) }
        ensures unmoved { OnErr result (self.new ≡ self.old) }
        ensures caller { self.new.caller ≡ self.old.caller }
        ensures request { self.new.request ≡ self.old.request }
        ensures kept { (batch : Batch) → C.out core.old batch → IfOk result (StaysOut (C.out core.new batch) None) }
        ensures kept_out { (batch : Batch) → C.out core.old batch → OnErr result (C.out core.new batch) }
        ensures marks { C.marks core.new ≡ C.marks core.old }
        ensures same_seals { OnErr result (C.seals core.new ≡ C.seals core.old) }
        ensures same_generation { OnErr result (C.generation core.new ≡ C.generation core.old) }
        ensures seals { IfOk result (λ next. C.seals core.new ≡ seals_after (C.seals core.old) next) }
        ensures generation { IfOk result (λ next. C.generation core.new ≡ generation_after (C.generation core.old) next) }
        ensures size { C.size core.new ≡ C.size core.old }
        ensures fsid { C.fsid core.new ≡ C.fsid core.old }
    {
        match &self.request {
            Request::Op(op) => match core.op(alloc, self.caller, op, false)? {
                OpEnd::Answered(answer) => Ok(self.finish(answer)),
                OpEnd::Short { .. } => Ok(self.wait()),
            },
            Request::Sync => {
                core.ask_full(alloc, self.caller)?;
                Ok(self.wait())
            }
            Request::Fsync(_) | Request::Fdatasync(_) => unreachable!(),
        }
    }

    /// A turn of a call that waits for a full commit, or that one has covered.
    fn go_on<C: Core>(&mut self, alloc: Global, core: &mut C) -> Result<Next, OutOfMemory>
        requires may { (mounted : Mounted) × (scene : Scene) × C.has core.old mounted scene × MayStep (C.out core.old) mounted scene self.old None }
        requires wants { IsWaiting self.old }
        requires more { C.seals core.old + 1 < 2 ^ 64 }
        ensures stepped { (mounted : Mounted) (scene : Scene) → C.has core.old mounted scene → MayStep (C.out core.old) mounted scene self.old None
            → IfOk result (HasStepped (C.has core.new) (core.new ≡ core.old) mounted scene self.old self.new None
            (free_blocks (C.size core.old) (length (C.in_use core.old))) (C.made core.new)) }
        ensures finished { IfOk result (λ next. IsFinished self.new ↔ IsLast next) }
        ensures handed { IfOk result (HandsOut
            (IsFullBatch (C.size core.old) (C.fsid core.old) (C.generation core.old) (C.seals core.old) (C.marks core.old)) (C.out core.new)) }
        ensures memory { (mounted : Mounted) (scene : Scene) → C.has core.old mounted scene → OnErr result (C.has core.new mounted scene) }
        ensures unmoved { OnErr result (self.new ≡ self.old) }
        ensures caller { self.new.caller ≡ self.old.caller }
        ensures request { self.new.request ≡ self.old.request }
        ensures kept { (batch : Batch) → C.out core.old batch → IfOk result (StaysOut (C.out core.new batch) None) }
        ensures kept_out { (batch : Batch) → C.out core.old batch → OnErr result (C.out core.new batch) }
        ensures marks { C.marks core.new ≡ C.marks core.old }
        ensures same_seals { OnErr result (C.seals core.new ≡ C.seals core.old) }
        ensures same_generation { OnErr result (C.generation core.new ≡ C.generation core.old) }
        ensures seals { IfOk result (λ next. C.seals core.new ≡ seals_after (C.seals core.old) next) }
        ensures generation { IfOk result (λ next. C.generation core.new ≡ generation_after (C.generation core.old) next) }
        ensures size { C.size core.new ≡ C.size core.old }
        ensures fsid { C.fsid core.new ≡ C.fsid core.old }
    {
        if core.cover(self.caller) == Cover::Full {
            self.end_covered(alloc, core)
        } else {
            Ok(self.seal_or_wait(core))
        }
    }

    /// The turn after a full commit has covered the call.
    fn end_covered<C: Core>(&mut self, alloc: Global, core: &mut C) -> Result<Next, OutOfMemory>
        requires may { (mounted : Mounted) × (scene : Scene) × C.has core.old mounted scene × MayStep (C.out core.old) mounted scene self.old None
            × ((call_in mounted scene self.old.caller).cover ≡ covers.Full) }
        requires wants { IsWaiting self.old }
        ensures stepped { (mounted : Mounted) (scene : Scene) → C.has core.old mounted scene → MayStep (C.out core.old) mounted scene self.old None
            → (call_in mounted scene self.old.caller).cover ≡ covers.Full
            → IfOk result (HasStepped (C.has core.new) (core.new ≡ core.old) mounted scene self.old self.new None
            (free_blocks (C.size core.old) (length (C.in_use core.old))) (C.made core.new)) }
        ensures finished { IfOk result (λ next. IsFinished self.new ↔ IsLast next) }
        ensures handed { IfOk result (HandsOut
            (IsFullBatch (C.size core.old) (C.fsid core.old) (C.generation core.old) (C.seals core.old) (C.marks core.old)) (C.out core.new)) }
        ensures memory { (mounted : Mounted) (scene : Scene) → C.has core.old mounted scene → OnErr result (C.has core.new mounted scene) }
        ensures unmoved { OnErr result (self.new ≡ self.old) }
        ensures caller { self.new.caller ≡ self.old.caller }
        ensures request { self.new.request ≡ self.old.request }
        ensures kept { (batch : Batch) → C.out core.old batch → IfOk result (StaysOut (C.out core.new batch) None) }
        ensures kept_out { (batch : Batch) → C.out core.old batch → OnErr result (C.out core.new batch) }
        ensures marks { C.marks core.new ≡ C.marks core.old }
        ensures same_seals { OnErr result (C.seals core.new ≡ C.seals core.old) }
        ensures same_generation { OnErr result (C.generation core.new ≡ C.generation core.old) }
        ensures seals { IfOk result (λ next. C.seals core.new ≡ seals_after (C.seals core.old) next) }
        ensures generation { IfOk result (λ next. C.generation core.new ≡ generation_after (C.generation core.old) next) }
        ensures size { C.size core.new ≡ C.size core.old }
        ensures fsid { C.fsid core.new ≡ C.fsid core.old }
    {
        match &self.request {
            Request::Op(op) => match core.op(alloc, self.caller, op, true)? {
                OpEnd::Answered(answer) => Ok(self.finish(answer)),
                OpEnd::Short { free, need } => Ok(self.finish(Answer::NoSpace { free, need })),
            },
            Request::Sync => Ok(self.finish(Answer::Sync)),
            Request::Fsync(_) | Request::Fdatasync(_) => unreachable!(),
        }
    }

    /// Seals the whole volume, or tells who runs the full commit that the call waits for.
    fn seal_or_wait<C: Core>(&self, core: &mut C) -> Next
        requires may { (mounted : Mounted) × (scene : Scene) × C.has core.old mounted scene × MayStep (C.out core.old) mounted scene self.now None
            × ((call_in mounted scene self.now.caller).cover ≢ covers.Full) }
        requires wants { IsWaiting self.now }
        requires more { C.seals core.old + 1 < 2 ^ 64 }
        ensures stepped { (mounted : Mounted) (scene : Scene) → C.has core.old mounted scene → MayStep (C.out core.old) mounted scene self.now None
            → (call_in mounted scene self.now.caller).cover ≢ covers.Full
            → HasStepped (C.has core.new) (core.new ≡ core.old) mounted scene self.now self.now None
            (free_blocks (C.size core.old) (length (C.in_use core.old))) (C.made core.new) result }
        ensures goes_on { IsLast result → ⊥ }
        ensures kept { (batch : Batch) → C.out core.old batch → StaysOut (C.out core.new batch) None result }
        ensures handed { HandsOut
            (IsFullBatch (C.size core.old) (C.fsid core.old) (C.generation core.old) (C.seals core.old) (C.marks core.old)) (C.out core.new) result }
        ensures marks { C.marks core.new ≡ C.marks core.old }
        ensures seals { C.seals core.new ≡ seals_after (C.seals core.old) result }
        ensures generation { C.generation core.new ≡ generation_after (C.generation core.old) result }
        ensures size { C.size core.new ≡ C.size core.old }
        ensures fsid { C.fsid core.new ≡ C.fsid core.old }
    {
        if core.may_seal_full(self.caller) {
            return Next::Work(Work::Finish(core.seal_full(self.caller)));
        }
        let Some(holder) = core.holder(Turn::Full) else {
            unreachable!()
        };
        Next::Waits {
            turn: Turn::Full,
            holder,
        }
    }

    /// Ends the full commit that the call runs.
    fn end_commit<C: Core>(&mut self, core: &mut C, outcome: Outcome) -> Next
        requires may { (mounted : Mounted) × (scene : Scene) × C.has core.old mounted scene × MayStep (C.out core.old) mounted scene
            self.old (Some outcome) }
        requires wants { IsWaiting self.old }
        ensures stepped { (mounted : Mounted) (scene : Scene) → C.has core.old mounted scene → MayStep (C.out core.old) mounted scene
            self.old (Some outcome) → HasStepped (C.has core.new) (core.new ≡ core.old) mounted scene self.old self.new (Some outcome)
            (free_blocks (C.size core.old) (length (C.in_use core.old))) (C.made core.new) result }
        ensures few { (mounted : Mounted) (scene : Scene) → C.has core.old mounted scene → MayStep (C.out core.old) mounted scene
            self.old (Some outcome) → IsJustSealed scene self.old.caller
            → LeavesFew mounted scene self.old.caller (length (C.in_use core.new)) (Some outcome) result }
        ensures finished { IsFinished self.new ↔ IsLast result }
        ensures caller { self.new.caller ≡ self.old.caller }
        ensures request { self.new.request ≡ self.old.request }
        ensures handed { HandsOut
            (IsFullBatch (C.size core.old) (C.fsid core.old) (C.generation core.old) (C.seals core.old) (C.marks core.old)) (C.out core.new) result }
        ensures marks { C.marks core.new ≡ marks_after (C.marks core.old) (Some outcome) }
        ensures seals { C.seals core.new ≡ seals_after (C.seals core.old) result }
        ensures generation { C.generation core.new ≡ generation_after (C.generation core.old) result }
        ensures size { C.size core.new ≡ C.size core.old }
        ensures fsid { C.fsid core.new ≡ C.fsid core.old }
    {
        let Outcome { work, result } = outcome;
        let Work::Finish(batch) = work else {
            unreachable!()
        };
        match result {
            Ok(()) => {
                core.full_done(self.caller, batch);
                self.end_covering()
            }
            Err(DeviceFault::Disk { tried }) => {
                core.failed(self.caller, tried, batch);
                self.finish(Answer::Io)
            }
        }
    }

    /// The call's own full commit is done, which ends a sync.
    fn end_covering(&mut self) -> Next
        ensures sync { self.old.request ≡ requests.Sync
            → (self.new ≡ record self.old { stage = stages.Finished }) × (result ≡ Next.Finished Answer.Sync) }
        ensures other { self.old.request ≢ requests.Sync → (self.new ≡ self.old) × (result ≡ Next.Moved) }
    {
        match self.request {
            Request::Sync => self.finish(Answer::Sync),
            _ => Next::Moved,
        }
    }

    /// The call has left a want of a full commit.
    fn wait(&mut self) -> Next
        ensures moved { result ≡ Next.Moved }
        ensures new { self.new ≡ record self.old { stage = stages.Wants } }
    {
        self.stage = Stage::Wants;
        Next::Moved
    }

    /// The call has this answer.
    fn finish(&mut self, answer: Answer) -> Next
        ensures answer { result ≡ Next.Finished answer }
        ensures new { self.new ≡ record self.old { stage = stages.Finished } }
    {
        self.stage = Stage::Finished;
        Next::Finished(answer)
    }
}
