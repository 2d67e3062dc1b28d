//! One call.
ghost use Rattle.std.specs.Prelude.{◌≡◌, ◌≤◌, ◌<◌, ◌+◌, ◌^◌, IfOk, List, length, OnErr, ℕ};
ghost use Rattle.call_steps.specs.Standing.{IsAllowed};
ghost use Rattle.device_side.specs.Device.{Device};
ghost use Rattle.commit_images.specs.Scene.{Mounted};
ghost use Rattle.volume_calls.specs.Between.{Between, IsBetween, IsDiskAt, TellsStill};
ghost use Rattle.commit_images.specs.Scene.{Happening};
ghost use Rattle.volume_calls.specs.Calls.{IsCalled, IsLeft};
ghost use Rattle.volume_calls.specs.Turns.{HandsBatch, HasCommitBack, IsCommitted, MayCommit};

use blk_base::OutOfMemory;
use block_table::Batch;
use call_steps::{Call, Next};
use commit_core::{Core, Outcome, Work};
use device_side::DeviceSide;
use disk_model::Disk;
use flat_model::{Answer, Request};
use std::alloc::Global;

/// Makes a call of a caller, 1 to 16, from its begin to its end, and says its answer: an operation in its limits, or a sync.
/// A full commit that it has to run is written to the disk meanwhile. An operation answers that there is no space only where
/// it needs more blocks than are free behind a full commit: more than all but 82 and those in use, which are few
/// (own; after btrfs_sync_fs of fs/btrfs/super.c).
///
/// # Errors
///
/// Out of memory: then the call may have made events, and has no answer.
pub fn call<C: Core, D: Disk>(
    alloc: Global,
    core: &mut C,
    device: &mut DeviceSide,
    disk: &mut D,
    caller: u32,
    request: Request,
) -> Result<Answer, OutOfMemory>
    requires from_one { 1 ≤ caller }
    requires to_sixteen { caller ≤ 16 }
    requires allowed { IsAllowed request }
    requires between { (mounted : Mounted) × (at : Between)
        × IsBetween (C.has core.old) (C.size core.old) (C.marks core.old) device.old (D.count disk.old) mounted at
        × IsDiskAt (D.told disk.old) (D.faults disk.old) at }
    requires more { C.seals core.old + 2 < 2 ^ 64 }
    ensures called { (mounted : Mounted) (at : Between) → IsBetween (C.has core.old) (C.size core.old) (C.marks core.old) device.old (D.count disk.old) mounted at
        → IsDiskAt (D.told disk.old) (D.faults disk.old) at → IfOk result (λ answer. (next : Between) × IsCalled mounted caller request answer at next
        × IsBetween (C.has core.new) (C.size core.new) (C.marks core.new) device.new (D.count disk.new) mounted next
        × IsDiskAt (D.told disk.new) (D.faults disk.new) next) }
    ensures left { (mounted : Mounted) (at : Between) → IsBetween (C.has core.old) (C.size core.old) (C.marks core.old) device.old (D.count disk.old) mounted at
        → IsDiskAt (D.told disk.old) (D.faults disk.old) at → OnErr result ((next : Between) × IsLeft mounted caller request at next
        × C.has core.new mounted next.scene × IsDiskAt (D.told disk.new) (D.faults disk.new) next) }
    ensures seals { C.seals core.new ≤ C.seals core.old + 1 }
    ensures core_size { C.size core.new ≡ C.size core.old }
    ensures fsid { C.fsid core.new ≡ C.fsid core.old }
    ensures size { D.count disk.new ≡ D.count disk.old }
    ensures counted { D.faults disk.old ≤ D.faults disk.new }
    ensures tells { TellsStill (D.told disk.old) (D.told disk.new) }
{
    let mut call = Call::start(caller, request);
    match call.step(alloc, core, None)? {
        Next::Finished(answer) => Ok(answer),
        Next::Moved => commit(alloc, core, device, disk, call),
        Next::Work(_) | Next::Waits { .. } => unreachable!(),
    }
}

/// The batch that a turn handed out.
fn batch_of(next: Next) -> Batch
    requires { HandsBatch next }
    ensures { next ≡ Next.Work (Work.Finish result) }
{
    match next {
        Next::Work(Work::Finish(batch)) => batch,
        Next::Work(Work::Part(_)) | Next::Moved | Next::Waits { .. } | Next::Finished(_) => {
            unreachable!()
        }
    }
}

/// The rest of a call that waits for a full commit: it makes one, since nobody else does.
fn commit<C: Core, D: Disk>(
    alloc: Global,
    core: &mut C,
    device: &mut DeviceSide,
    disk: &mut D,
    mut call: Call,
) -> Result<Answer, OutOfMemory>
    requires may { (mounted : Mounted) × (at : Between) × (now : Between) × (happenings : List Happening)
        × MayCommit (C.has core.old) (C.size core.old) (C.marks core.old) device.old (D.count disk.old) mounted call at now happenings
        × IsDiskAt (D.told disk.old) (D.faults disk.old) now }
    requires more { C.seals core.old + 2 < 2 ^ 64 }
    ensures called { (mounted : Mounted) (at now : Between) (happenings : List Happening)
        → MayCommit (C.has core.old) (C.size core.old) (C.marks core.old) device.old (D.count disk.old) mounted call at now happenings
        → IsDiskAt (D.told disk.old) (D.faults disk.old) now → IfOk result (λ answer. (next : Between) × IsCalled mounted call.caller call.request answer at next
        × IsBetween (C.has core.new) (C.size core.new) (C.marks core.new) device.new (D.count disk.new) mounted next
        × IsDiskAt (D.told disk.new) (D.faults disk.new) next) }
    ensures left { (mounted : Mounted) (at now : Between) (happenings : List Happening)
        → MayCommit (C.has core.old) (C.size core.old) (C.marks core.old) device.old (D.count disk.old) mounted call at now happenings
        → IsDiskAt (D.told disk.old) (D.faults disk.old) now → OnErr result ((next : Between) × IsLeft mounted call.caller call.request at next
        × C.has core.new mounted next.scene × IsDiskAt (D.told disk.new) (D.faults disk.new) next) }
    ensures seals { C.seals core.new ≤ C.seals core.old + 1 }
    ensures core_size { C.size core.new ≡ C.size core.old }
    ensures fsid { C.fsid core.new ≡ C.fsid core.old }
    ensures size { D.count disk.new ≡ D.count disk.old }
    ensures counted { D.faults disk.old ≤ D.faults disk.new }
    ensures tells { TellsStill (D.told disk.old) (D.told disk.new) }
{
    let next = call.step(alloc, core, None)?;
    let batch = batch_of(next);
    let result = device.finish(disk, &batch);
    let outcome = Outcome {
        work: Work::Finish(batch),
        result,
    };
    end(alloc, core, call, outcome)
}

/// The turn of a call whose full commit is back from the device, and the one behind it.
fn end<C: Core>(
    alloc: Global,
    core: &mut C,
    mut call: Call,
    outcome: Outcome,
) -> Result<Answer, OutOfMemory>
    requires back { (device : Device) × (count : ℕ) × (mounted : Mounted) × (at : Between) × (now : Between) × (happenings : List Happening)
        × HasCommitBack (C.has core.old) (C.out core.old) (C.size core.old) (C.marks core.old) device count mounted call at now happenings outcome }
    requires more { C.seals core.old + 1 < 2 ^ 64 }
    ensures called { (device : Device) (count : ℕ) (mounted : Mounted) (at now : Between) (happenings : List Happening)
        → HasCommitBack (C.has core.old) (C.out core.old) (C.size core.old) (C.marks core.old) device count mounted call at now happenings outcome
        → IfOk result (λ answer. (next : Between) × IsCalled mounted call.caller call.request answer at next
        × IsBetween (C.has core.new) (C.size core.new) (C.marks core.new) device count mounted next
        × (next.told ≡ now.told) × (next.faults ≡ now.faults)) }
    ensures left { (device : Device) (count : ℕ) (mounted : Mounted) (at now : Between) (happenings : List Happening)
        → HasCommitBack (C.has core.old) (C.out core.old) (C.size core.old) (C.marks core.old) device count mounted call at now happenings outcome
        → OnErr result ((next : Between) × IsLeft mounted call.caller call.request at next × C.has core.new mounted next.scene
        × (next.told ≡ now.told) × (next.faults ≡ now.faults)) }
    ensures seals { C.seals core.new ≡ C.seals core.old }
    ensures core_size { C.size core.new ≡ C.size core.old }
    ensures fsid { C.fsid core.new ≡ C.fsid core.old }
{
    match call.step(alloc, core, Some(outcome))? {
        Next::Finished(answer) => Ok(answer),
        Next::Moved => try_again(alloc, core, call),
        Next::Work(_) | Next::Waits { .. } => unreachable!(),
    }
}

/// The last turn of an operation that was short, once its own full commit has covered it.
fn try_again<C: Core>(alloc: Global, core: &mut C, mut call: Call) -> Result<Answer, OutOfMemory>
    requires may { (device : Device) × (count : ℕ) × (mounted : Mounted) × (at : Between) × (now : Between) × (happenings : List Happening)
        × IsCommitted (C.has core.old) (C.size core.old) (length (C.in_use core.old)) (C.marks core.old) device count mounted call at now happenings }
    requires more { C.seals core.old + 1 < 2 ^ 64 }
    ensures called { (device : Device) (count : ℕ) (mounted : Mounted) (at now : Between) (happenings : List Happening)
        → IsCommitted (C.has core.old) (C.size core.old) (length (C.in_use core.old)) (C.marks core.old) device count mounted call at now happenings
        → IfOk result (λ answer. (next : Between) × IsCalled mounted call.caller call.request answer at next
        × IsBetween (C.has core.new) (C.size core.new) (C.marks core.new) device count mounted next
        × (next.told ≡ now.told) × (next.faults ≡ now.faults)) }
    ensures left { (device : Device) (count : ℕ) (mounted : Mounted) (at now : Between) (happenings : List Happening)
        → IsCommitted (C.has core.old) (C.size core.old) (length (C.in_use core.old)) (C.marks core.old) device count mounted call at now happenings
        → OnErr result ((next : Between) × IsLeft mounted call.caller call.request at next × C.has core.new mounted next.scene
        × (next.told ≡ now.told) × (next.faults ≡ now.faults)) }
    ensures seals { C.seals core.new ≡ C.seals core.old }
    ensures core_size { C.size core.new ≡ C.size core.old }
    ensures fsid { C.fsid core.new ≡ C.fsid core.old }
{
    match call.step(alloc, core, None)? {
        Next::Finished(answer) => Ok(answer),
        Next::Moved | Next::Work(_) | Next::Waits { .. } => unreachable!(),
    }
}
