//! Commits: their blocks, a flush, and their superblocks.
ghost use Rattle.std.specs.Prelude.{◌≡◌, ◌<◌, ◌⊎◌, ◌++◌, ◌∷◌, [], All, None, Ok, OnErr, OnOk, IsErrOf, Some, false, map, slice_get, true};
ghost use Rattle.std.specs.List.{flat_map};
ghost use Rattle.disk_model.specs.Disk.{EveryMoment, GoesOnUntil, HasCause, IfBoth, IfTold, IsCutOff, TellsMore};
ghost use Rattle.batch_write.specs.Batch.{HasBatch, HasBlock, HasWritten, IsOldOrNew, LeavesOnly, Regained, SameOutside, numbers_of, settle_calls, super_call, write_call};
ghost use Rattle.device_side.specs.Device.{IsNextFor, IsPart, after_done, after_tried, again_calls, rewritten, to_write, unwritten};
ghost use Rattle.device_side.specs.Finish.{IsFinishOf};
ghost use Rattle.device_side.specs.Written.{AreWritten, ChangesOnly, MayBeWritten};

use crate::blocks::write_blocks;
use crate::device::{DeviceSide, SLOTS, place_of};
use batch_write::write_super_again;
use block_table::{Batch, Part, Parts};
use disk_model::{DeviceFault, Disk, DiskFailed};

impl DeviceSide {
    /// Writes the superblock again whose write failed, if there is one.
    fn write_again<D: Disk>(&mut self, disk: &mut D) -> Result<(), DiskFailed>
        requires { 16 < D.count disk.old }
        ensures ok { OnOk result (self.new ≡ rewritten self.old) }
        ensures err { OnErr result (self.new ≡ self.old) }
        ensures none { self.old.failed ≡ None → (result ≡ Ok tt) × (disk.new ≡ disk.old) }
        ensures size { D.count disk.new ≡ D.count disk.old }
        ensures seen { IfBoth (D.seen disk.old) (D.seen disk.new) (SameOutside (16 ∷ [])) }
        ensures lost { D.lost disk.new ≡ D.lost disk.old }
        ensures calls { OnOk result (TellsMore (D.told disk.old) (D.told disk.new) (again_calls self.old.failed)) }
        ensures cut_off { OnErr result (IfBoth (D.told disk.old) (D.told disk.new) (λ old new. IsCutOff old new (again_calls self.old.failed))) }
        ensures cause { HasCause (D.faults disk.old) (D.faults disk.new) result }
    {
        if let Some(superblock) = &self.failed {
            disk.write_super(superblock)?;
        }
        self.failed = None;
        Ok(())
    }

    /// Writes a part's blocks, unless they are written.
    fn write_unwritten<D: Disk>(&self, disk: &mut D, part: &Part) -> Result<(), DiskFailed>
        requires part { IsPart part.now }
        requires places { MayBeWritten (D.count disk.old) (unwritten self.now part.now) }
        ensures changes { ChangesOnly
            (record { count = D.count disk.old; seen = D.seen disk.old; lost = D.lost disk.old; told = D.told disk.old })
            (record { count = D.count disk.new; seen = D.seen disk.new; lost = D.lost disk.new; told = D.told disk.new }) (unwritten self.now part.now) }
        ensures written { OnOk result (AreWritten
            (record { count = D.count disk.old; seen = D.seen disk.old; lost = D.lost disk.old; told = D.told disk.old })
            (record { count = D.count disk.new; seen = D.seen disk.new; lost = D.lost disk.new; told = D.told disk.new }) (unwritten self.now part.now)) }
        ensures cut_off { OnErr result (IfBoth (D.told disk.old) (D.told disk.new) (λ old new. IsCutOff old new (map write_call (unwritten self.now part.now)))) }
        ensures cause { HasCause (D.faults disk.old) (D.faults disk.new) result }
    {
        if self.is_kept(part) {
            return Ok(());
        }
        write_blocks(disk, &part.blocks)
    }

    /// Writes the blocks of parts that aren't written yet, part by part.
    fn write_parts<D: Disk>(&self, disk: &mut D, parts: &Parts) -> Result<(), DiskFailed>
        requires parts { All IsPart parts.now }
        requires places { MayBeWritten (D.count disk.old) (flat_map (unwritten self.now) parts.now) }
        ensures changes { ChangesOnly
            (record { count = D.count disk.old; seen = D.seen disk.old; lost = D.lost disk.old; told = D.told disk.old })
            (record { count = D.count disk.new; seen = D.seen disk.new; lost = D.lost disk.new; told = D.told disk.new }) (flat_map (unwritten self.now) parts.now) }
        ensures written { OnOk result (AreWritten
            (record { count = D.count disk.old; seen = D.seen disk.old; lost = D.lost disk.old; told = D.told disk.old })
            (record { count = D.count disk.new; seen = D.seen disk.new; lost = D.lost disk.new; told = D.told disk.new }) (flat_map (unwritten self.now) parts.now)) }
        ensures cut_off { OnErr result (IfBoth (D.told disk.old) (D.told disk.new)
            (λ old new. IsCutOff old new (map write_call (flat_map (unwritten self.now) parts.now)))) }
        ensures cause { HasCause (D.faults disk.old) (D.faults disk.new) result }
    {
        for place in 0..parts.len() {
            self.write_unwritten(disk, parts.get(place))?;
        }
        Ok(())
    }

    /// Writes all blocks of a commit that aren't written yet.
    fn write_all<D: Disk>(&self, disk: &mut D, batch: &Batch) -> Result<(), DiskFailed>
        requires parts { All IsPart batch.now.parts }
        requires places { MayBeWritten (D.count disk.old) (to_write self.now batch.now) }
        ensures changes { ChangesOnly
            (record { count = D.count disk.old; seen = D.seen disk.old; lost = D.lost disk.old; told = D.told disk.old })
            (record { count = D.count disk.new; seen = D.seen disk.new; lost = D.lost disk.new; told = D.told disk.new }) (to_write self.now batch.now) }
        ensures written { OnOk result (AreWritten
            (record { count = D.count disk.old; seen = D.seen disk.old; lost = D.lost disk.old; told = D.told disk.old })
            (record { count = D.count disk.new; seen = D.seen disk.new; lost = D.lost disk.new; told = D.told disk.new }) (to_write self.now batch.now)) }
        ensures cut_off { OnErr result (IfBoth (D.told disk.old) (D.told disk.new) (λ old new. IsCutOff old new (map write_call (to_write self.now batch.now)))) }
        ensures cause { HasCause (D.faults disk.old) (D.faults disk.new) result }
    {
        write_blocks(disk, &batch.blocks)?;
        self.write_parts(disk, &batch.parts)
    }

    /// Writes the blocks of a commit and makes them durable.
    fn settle<D: Disk>(&self, disk: &mut D, batch: &Batch) -> Result<(), DiskFailed>
        requires parts { All IsPart batch.now.parts }
        requires places { MayBeWritten (D.count disk.old) (to_write self.now batch.now) }
        ensures changes { ChangesOnly
            (record { count = D.count disk.old; seen = D.seen disk.old; lost = D.lost disk.old; told = D.told disk.old })
            (record { count = D.count disk.new; seen = D.seen disk.new; lost = D.lost disk.new; told = D.told disk.new }) (to_write self.now batch.now) }
        ensures written { OnOk result (IfTold (D.seen disk.new) (λ new. All (HasBlock new) (to_write self.now batch.now))) }
        ensures settled { OnOk result (IfTold (D.told disk.new) (λ new. LeavesOnly new (λ image. All (HasBlock image) (to_write self.now batch.now)))) }
        ensures lost { OnOk result (Regained (numbers_of (to_write self.now batch.now)) (D.lost disk.old) (D.lost disk.new)) }
        ensures calls { OnOk result (TellsMore (D.told disk.old) (D.told disk.new) (settle_calls (to_write self.now batch.now))) }
        ensures cut_off { OnErr result (IfBoth (D.told disk.old) (D.told disk.new) (λ old new. IsCutOff old new (settle_calls (to_write self.now batch.now)))) }
        ensures cause { HasCause (D.faults disk.old) (D.faults disk.new) result }
    {
        self.write_all(disk, batch)?;
        disk.flush()
    }

    /// Notes that a commit's superblock was written.
    fn note_done(&mut self, batch: &Batch)
        requires { All IsPart batch.now.parts }
        ensures { self.new ≡ after_done self.old batch.now }
    {
        for place in 0..batch.parts.len() {
            let part = batch.parts.get(place);
            let sub = place_of(part.sub);
            self.covered[sub] = self.covered[sub].max(part.number);
        }
        self.failed = None;
        self.marks.done = batch.seal;
        self.marks.tried = batch.seal;
        if batch.full {
            self.marks.full = batch.seal;
            self.written = [0; SLOTS];
        }
    }

    /// Notes that the write of a commit's superblock failed.
    fn note_tried(&mut self, batch: &Batch)
        ensures { self.new ≡ after_tried self.old batch.now }
    {
        self.failed = Some(*batch.superblock);
        self.marks.tried = batch.seal;
        if batch.full {
            self.marks.full = batch.seal;
        }
    }

    /// Writes the blocks of a commit, a flush and its superblock.
    fn commit<D: Disk>(&mut self, disk: &mut D, batch: &Batch) -> Result<(), DeviceFault>
        requires super_inside { 16 < D.count disk.old }
        requires parts { All IsPart batch.now.parts }
        requires places { MayBeWritten (D.count disk.old) (to_write self.old batch.now) }
        ensures size { D.count disk.new ≡ D.count disk.old }
        ensures ok { OnOk result (self.new ≡ after_done self.old batch.now) }
        ensures tried { IsErrOf result (DeviceFault.Disk true) → self.new ≡ after_tried self.old batch.now }
        ensures untried { IsErrOf result (DeviceFault.Disk false) → self.new ≡ self.old }
        ensures calls { OnOk result (TellsMore (D.told disk.old) (D.told disk.new)
            (settle_calls (to_write self.old batch.now) ++ super_call batch.now.superblock.value ∷ [])) }
        ensures cut_off { IsErrOf result (DeviceFault.Disk false) → IfBoth (D.told disk.old) (D.told disk.new)
            (λ old new. IsCutOff old new (settle_calls (to_write self.old batch.now))) }
        ensures cut_last { IsErrOf result (DeviceFault.Disk true) → IfBoth (D.told disk.old) (D.told disk.new)
            (λ old new. GoesOnUntil old new (settle_calls (to_write self.old batch.now)) (super_call batch.now.superblock.value)) }
        ensures seen { OnOk result (IfBoth (D.seen disk.old) (D.seen disk.new) (HasWritten (to_write self.old batch.now))) }
        ensures seen_super { OnOk result (IfTold (D.seen disk.new) (λ new. slice_get new 16 ≡ Some batch.now.superblock.value)) }
        ensures seen_tried { IsErrOf result (DeviceFault.Disk true) → IfBoth (D.seen disk.old) (D.seen disk.new) (HasWritten (to_write self.old batch.now)) }
        ensures seen_untried { IsErrOf result (DeviceFault.Disk false)
            → IfBoth (D.seen disk.old) (D.seen disk.new) (SameOutside (numbers_of (to_write self.old batch.now))) }
        ensures lost { OnOk result (Regained (numbers_of (to_write self.old batch.now)) (D.lost disk.old) (D.lost disk.new)) }
        ensures crash { IfBoth (D.told disk.old) (D.told disk.new)
            (λ old new. EveryMoment old new (IsOldOrNew old (to_write self.old batch.now) batch.now.superblock.value)) }
        ensures done { OnOk result (IfBoth (D.told disk.old) (D.told disk.new)
            (λ old new. LeavesOnly new (HasBatch old (to_write self.old batch.now) batch.now.superblock.value))) }
        ensures cause { HasCause (D.faults disk.old) (D.faults disk.new) result }
    {
        self.settle(disk, batch)
            .map_err(|_| DeviceFault::Disk { tried: false })?;
        match write_super_again(disk, &batch.superblock) {
            Ok(()) => {
                self.note_done(batch);
                Ok(())
            }
            Err(fault) => {
                self.note_tried(batch);
                Err(fault)
            }
        }
    }

    /// Finishes a commit: writes a superblock again whose write failed before, if there is one, writes the commit's blocks,
    /// those of its parts that aren't written yet too, makes them durable by a flush, and writes its superblock
    /// ("btrfs_write_and_wait_transaction" and "write_all_supers" of the kernel). No call is made behind one that failed.
    ///
    /// The fault is `tried` exactly where the write of the commit's own superblock was made: from it on a crash finds that
    /// superblock or the last one, until one more write answers Ok.
    pub fn finish<D: Disk>(&mut self, disk: &mut D, batch: &Batch) -> Result<(), DeviceFault>
        requires super_inside { 16 < D.count disk.old }
        requires parts { All IsPart batch.now.parts }
        requires places { MayBeWritten (D.count disk.old) (to_write self.old batch.now) }
        requires next { IsNextFor self.old batch.now }
        ensures size { D.count disk.new ≡ D.count disk.old }

        // Where the writes stand behind it.
        ensures ok { OnOk result (self.new ≡ after_done self.old batch.now) }
        ensures tried { IsErrOf result (DeviceFault.Disk true) → self.new ≡ after_tried self.old batch.now }
        ensures untried { IsErrOf result (DeviceFault.Disk false) → (self.new ≡ self.old) ⊎ (self.new ≡ rewritten self.old) }

        // Which calls it made.
        ensures calls { OnOk result (TellsMore (D.told disk.old) (D.told disk.new)
            (again_calls self.old.failed ++ settle_calls (to_write self.old batch.now) ++ super_call batch.now.superblock.value ∷ [])) }
        ensures cut_off { IsErrOf result (DeviceFault.Disk false) → IfBoth (D.told disk.old) (D.told disk.new)
            (λ old new. IsCutOff old new (again_calls self.old.failed ++ settle_calls (to_write self.old batch.now))) }
        ensures cut_last { IsErrOf result (DeviceFault.Disk true) → IfBoth (D.told disk.old) (D.told disk.new)
            (λ old new. GoesOnUntil old new (again_calls self.old.failed ++ settle_calls (to_write self.old batch.now)) (super_call batch.now.superblock.value)) }

        // Both together.
        ensures goes_on { IfBoth (D.told disk.old) (D.told disk.new) (IsFinishOf self.old self.new batch.now result) }

        // What a read gives.
        ensures seen { OnOk result (IfBoth (D.seen disk.old) (D.seen disk.new) (HasWritten (to_write self.old batch.now))) }
        ensures seen_super { OnOk result (IfTold (D.seen disk.new) (λ new. slice_get new 16 ≡ Some batch.now.superblock.value)) }
        ensures seen_tried { IsErrOf result (DeviceFault.Disk true) → IfBoth (D.seen disk.old) (D.seen disk.new) (HasWritten (to_write self.old batch.now)) }
        ensures seen_untried { IsErrOf result (DeviceFault.Disk false)
            → IfBoth (D.seen disk.old) (D.seen disk.new) (SameOutside (16 ∷ numbers_of (to_write self.old batch.now))) }
        ensures lost { OnOk result (Regained (numbers_of (to_write self.old batch.now)) (D.lost disk.old) (D.lost disk.new)) }

        // What a crash may leave, at every moment and behind it, where no superblock's write had failed before.
        ensures crash { self.old.failed ≡ None → IfBoth (D.told disk.old) (D.told disk.new)
            (λ old new. EveryMoment old new (IsOldOrNew old (to_write self.old batch.now) batch.now.superblock.value)) }
        ensures done { self.old.failed ≡ None → OnOk result (IfBoth (D.told disk.old) (D.told disk.new)
            (λ old new. LeavesOnly new (HasBatch old (to_write self.old batch.now) batch.now.superblock.value))) }

        ensures cause { HasCause (D.faults disk.old) (D.faults disk.new) result }
    {
        self.write_again(disk)
            .map_err(|_| DeviceFault::Disk { tried: false })?;
        self.commit(disk, batch)
    }
}
