ghost use Rattle.std.specs.Prelude.{◌≡◌, ◌≢◌, ◌<◌, ◌/◌, ◌++◌, ◌∷◌, [], All, AllPairs, map, Some, OnOk, OnErr, IsErrOf, slice_get, is_ok, true, false};
ghost use Rattle.disk_model.specs.Disk.{Changes, Continues, EveryMoment, HasCause, IfBoth, IfTold, GoesOnUntil, IsCutOff, TellsMore, lost_after, written};
ghost use Rattle.batch_write.specs.Batch.{HasBatch, HasBlock, HasWritten, IsOldBut, IsOldOrNew, IsPlace, IsTried, LeavesOnly, Regained, SameOutside, blocks_of, numbers_of, settle_calls, super_call, write_call};

use crate::superblock::write_super_again;
use blk_base::{Addr, Block};
use disk_model::{DeviceFault, Disk, DiskFailed};

/// Writes these blocks, each at its byte address, makes them durable by a flush, and then writes the superblock
/// ("write_all_supers" of fs/btrfs/disk-io.c). No address may be the superblock's, and none may come twice.
///
/// The fault is `tried` exactly where the write of the superblock was made: before it a crash finds a superblock from
/// before, and from it on that or the new one, until `write_super_again` answers Ok. No call is made after one that
/// failed. A batch whose flush failed is to be written again as a whole: its blocks may be lost.
pub fn write_batch<D: Disk>(
    disk: &mut D,
    batch: &[(Addr, Box<Block>)],
    superblock: &Block,
) -> Result<(), DeviceFault>
    requires super_inside { 16 < D.count disk.old }
    requires places { All (λ item. IsPlace (D.count disk.old) item.0) (blocks_of batch.now) }
    requires once { AllPairs (λ one other. one.0.0 / 4096 ≢ other.0.0 / 4096) (blocks_of batch.now) }
    ensures size { D.count disk.new ≡ D.count disk.old }

    // What a read gives.
    ensures seen { OnOk result (IfBoth (D.seen disk.old) (D.seen disk.new) (λ old new. HasWritten (blocks_of batch.now) old new × (slice_get new 16 ≡ Some superblock.now))) }
    ensures seen_tried { IsErrOf result (DeviceFault.Disk true) → IfBoth (D.seen disk.old) (D.seen disk.new) (HasWritten (blocks_of batch.now)) }
    ensures lost { OnOk result (Regained (numbers_of (blocks_of batch.now)) (D.lost disk.old) (D.lost disk.new)) }
    ensures seen_untried { IsErrOf result (DeviceFault.Disk false) → IfBoth (D.seen disk.old) (D.seen disk.new) (SameOutside (numbers_of (blocks_of batch.now))) }

    // Which calls it made.
    ensures calls { OnOk result (TellsMore (D.told disk.old) (D.told disk.new) (settle_calls (blocks_of batch.now) ++ super_call superblock.now ∷ [])) }
    ensures cut_off { IsErrOf result (DeviceFault.Disk false) → IfBoth (D.told disk.old) (D.told disk.new) (λ old new. IsCutOff old new (settle_calls (blocks_of batch.now))) }
    ensures cut_last { IsErrOf result (DeviceFault.Disk true) → IfBoth (D.told disk.old) (D.told disk.new) (λ old new. GoesOnUntil old new (settle_calls (blocks_of batch.now)) (super_call superblock.now)) }

    // What a crash may leave: at every moment of the call, and after it.
    ensures crash { IfBoth (D.told disk.old) (D.told disk.new) (λ old new. EveryMoment old new (IsOldOrNew old (blocks_of batch.now) superblock.now)) }
    ensures done { OnOk result (IfBoth (D.told disk.old) (D.told disk.new) (λ old new. LeavesOnly new (HasBatch old (blocks_of batch.now) superblock.now))) }
    ensures untried { IsErrOf result (DeviceFault.Disk false) → IfBoth (D.told disk.old) (D.told disk.new) (λ old new. LeavesOnly new (IsOldBut old (numbers_of (blocks_of batch.now)))) }
    ensures tried { IsErrOf result (DeviceFault.Disk true) → IfBoth (D.told disk.old) (D.told disk.new) (λ old new. LeavesOnly new (IsTried old (blocks_of batch.now) superblock.now)) }

    ensures cause { HasCause (D.faults disk.old) (D.faults disk.new) result }
{
    settle(disk, batch).map_err(|_| DeviceFault::Disk { tried: false })?;
    write_super_again(disk, superblock)
}

/// Writes the blocks and makes them durable.
fn settle<D: Disk>(disk: &mut D, batch: &[(Addr, Box<Block>)]) -> Result<(), DiskFailed>
    requires places { All (λ item. IsPlace (D.count disk.old) item.0) (blocks_of batch.now) }
    requires once { AllPairs (λ one other. one.0.0 / 4096 ≢ other.0.0 / 4096) (blocks_of batch.now) }
    ensures size { D.count disk.new ≡ D.count disk.old }
    ensures same { IfBoth (D.seen disk.old) (D.seen disk.new) (SameOutside (numbers_of (blocks_of batch.now))) }
    ensures written { OnOk result (IfTold (D.seen disk.new) (λ new. All (HasBlock new) (blocks_of batch.now))) }
    ensures crash { IfBoth (D.told disk.old) (D.told disk.new) (λ old new. EveryMoment old new (IsOldBut old (numbers_of (blocks_of batch.now)))) }
    ensures settled { OnOk result (IfTold (D.told disk.new) (λ new. LeavesOnly new (λ image. All (HasBlock image) (blocks_of batch.now)))) }
    ensures lost { OnOk result (Regained (numbers_of (blocks_of batch.now)) (D.lost disk.old) (D.lost disk.new)) }
    ensures calls { OnOk result (TellsMore (D.told disk.old) (D.told disk.new) (settle_calls (blocks_of batch.now))) }
    ensures cut_off { OnErr result (IfBoth (D.told disk.old) (D.told disk.new) (λ old new. IsCutOff old new (settle_calls (blocks_of batch.now)))) }
    ensures cause { HasCause (D.faults disk.old) (D.faults disk.new) result }
{
    write_blocks(disk, batch)?;
    disk.flush()
}

/// Writes the blocks in their order.
fn write_blocks<D: Disk>(disk: &mut D, batch: &[(Addr, Box<Block>)]) -> Result<(), DiskFailed>
    requires places { All (λ item. IsPlace (D.count disk.old) item.0) (blocks_of batch.now) }
    requires once { AllPairs (λ one other. one.0.0 / 4096 ≢ other.0.0 / 4096) (blocks_of batch.now) }
    ensures size { D.count disk.new ≡ D.count disk.old }
    ensures same { IfBoth (D.seen disk.old) (D.seen disk.new) (SameOutside (numbers_of (blocks_of batch.now))) }
    ensures written { OnOk result (IfTold (D.seen disk.new) (λ new. All (HasBlock new) (blocks_of batch.now))) }
    ensures crash { IfBoth (D.told disk.old) (D.told disk.new) (λ old new. EveryMoment old new (IsOldBut old (numbers_of (blocks_of batch.now)))) }
    ensures lost { OnOk result (Regained (numbers_of (blocks_of batch.now)) (D.lost disk.old) (D.lost disk.new)) }
    ensures calls { OnOk result (TellsMore (D.told disk.old) (D.told disk.new) (map write_call (blocks_of batch.now))) }
    ensures cut_off { OnErr result (IfBoth (D.told disk.old) (D.told disk.new) (λ old new. IsCutOff old new (map write_call (blocks_of batch.now)))) }
    ensures cause { HasCause (D.faults disk.old) (D.faults disk.new) result }
{
    for (at, block) in batch {
        write_at(disk, *at, block)?;
    }
    Ok(())
}

/// Writes a block at its byte address.
fn write_at<D: Disk>(disk: &mut D, at: Addr, block: &Block) -> Result<(), DiskFailed>
    requires { IsPlace (D.count disk.old) at }
    ensures size { D.count disk.new ≡ D.count disk.old }
    ensures seen { Changes (D.seen disk.old) (D.seen disk.new) (at.0 / 4096) block.now (is_ok result) }
    ensures lost { D.lost disk.new ≡ lost_after (at.0 / 4096) (is_ok result) (D.lost disk.old) }
    ensures told { Continues (D.told disk.old) (D.told disk.new) (is_ok result) (written (at.0 / 4096) block.now (is_ok result) (D.seen disk.new)) }
    ensures cause { HasCause (D.faults disk.old) (D.faults disk.new) result }
{
    let number = number_of(disk, at);
    disk.write(number, block)
}

/// The number of the block at a byte address.
fn number_of<D: Disk>(disk: &D, at: Addr) -> u32
    requires { at.0 / 4096 < D.count disk.now }
    ensures { result ≡ at.0 / 4096 }
{
    let number = at.0 / 4096;
    let blocks = u64::from(disk.blocks());
    prove!(number < blocks);
    number as u32
}
