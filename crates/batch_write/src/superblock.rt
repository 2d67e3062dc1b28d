ghost use Rattle.std.specs.Prelude.{◌≡◌, ◌≢◌, ◌<◌, [], OnOk, Err, is_ok, false};
ghost use Rattle.disk_model.specs.Disk.{Changes, Continues, EveryMoment, HasCause, IfBoth, super_written};
ghost use Rattle.batch_write.specs.Batch.{HasBatch, IsOldOrNew, LeavesOnly};

use blk_base::Block;
use disk_model::{DeviceFault, Disk};

/// Writes the superblock alone, as the last step of a batch, or once more where that step failed ("write_dev_supers" of
/// fs/btrfs/disk-io.c). The fault is `tried`: a crash may then find the old superblock or the new one.
pub fn write_super_again<D: Disk>(disk: &mut D, superblock: &Block) -> Result<(), DeviceFault>
    requires { 16 < D.count disk.old }
    ensures size { D.count disk.new ≡ D.count disk.old }
    ensures seen { Changes (D.seen disk.old) (D.seen disk.new) 16 superblock.now (is_ok result) }
    ensures lost { D.lost disk.new ≡ D.lost disk.old }
    ensures told { Continues (D.told disk.old) (D.told disk.new) (is_ok result) (super_written superblock.now (is_ok result) (D.seen disk.new)) }
    ensures crash { IfBoth (D.told disk.old) (D.told disk.new) (λ old new. EveryMoment old new (IsOldOrNew old [] superblock.now)) }
    ensures done { OnOk result (IfBoth (D.told disk.old) (D.told disk.new) (λ old new. LeavesOnly new (HasBatch old [] superblock.now))) }
    ensures fault { result ≢ Err (DeviceFault.Disk false) }
    ensures cause { HasCause (D.faults disk.old) (D.faults disk.new) result }
{
    disk.write_super(superblock)
        .map_err(|_| DeviceFault::Disk { tried: true })
}
