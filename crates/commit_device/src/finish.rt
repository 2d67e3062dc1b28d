//! A finish of a commit, as happenings.
ghost use Rattle.std.specs.Prelude.{List, Result};
ghost use Rattle.block_table.specs.declared.batch.Batch.{Batch};
ghost use Rattle.disk_model.specs.Disk.{Told};
ghost use Rattle.disk_model.specs.declared.fault.DeviceFault.{DeviceFault};
ghost use Rattle.device_side.specs.Device.{Device};
ghost use Rattle.device_side.specs.Finish.{IsFinishOf};
ghost use Rattle.commit_images.specs.Scene.{Commit, Happening, Mounted, Scene};
ghost use Rattle.commit_device.specs.Finish.{IsFinished, MayFinish};

/// Law: where a commit may be finished, and a finish gave an answer and left the device and the disk's record so, there are
/// happenings that may come, calls of the device alone, that lead there. Behind them the commit's superblock is the only one
/// that a crash may find (Ok), or one of those (it was tried), or the commit isn't tried (own).
pub fn finishing_is_admissible()
    ensures { (mounted : Mounted) (scene : Scene) (commit : Commit) (device after : Device) (batch : Batch) (result : Result (Unit {0}) DeviceFault)
        (old new : Told) → MayFinish scene commit device batch old → IsFinishOf device after batch result old new
        → (happenings : List Happening) × IsFinished mounted scene commit result after old new happenings }
{}
