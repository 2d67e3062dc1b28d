ghost use Rattle.std.specs.Prelude.{◌≡◌, ◌≢◌, ◌<◌, ◌≤◌, ◌↔◌, ◌⊎◌, length, replicate, Some, [], IfOk, IsErr, OnOk, IsErrOf, is_ok};
ghost use Rattle.disk_model.specs.Disk.{Call, Continues, Changes, ReadGives, HasCause, lost_after, written, super_written};

use crate::blocks::Blocks;
use crate::fault::{MemoryDiskFault, zeroed};
use crate::kept::Kept;
use crate::plan::Plan;
use blk_base::{Block, OutOfMemory};
use disk_model::{Disk, DiskFailed};
use std::alloc::Global;

/// A disk in memory that keeps the record of its calls, and fails at those that it is told. A flush that fails drops what
/// was pending: a read gives what was durable before, until the block is written again.
#[derive(Drop)]
pub struct MemoryDisk {
    pub(crate) kept: Kept,
    pub(crate) plan: Plan,
    ghost small: { length kept.image.items.items ≤ 65536 },
}

impl MemoryDisk {
    ghost use Rattle.disk_memory.specs.MemoryDisk.{IsFresh, told_of, reads_of, room_of, fails_of, stop_of, made_of, faults_of};

    /// A disk of so many blocks of zeros, from 4096 to 65,536. It has room for a record of `room` writes, writes of the
    /// superblock and flushes, and those past them fail. `fails` lists the numbers, from 1, of the calls that fail.
    pub fn new(
        alloc: Global,
        blocks: u32,
        room: u32,
        fails: &[u64],
    ) -> Result<MemoryDisk, MemoryDiskFault>
        requires { room ≤ 65536 }
        ensures small { IsErrOf result MemoryDiskFault.TooSmall ↔ (blocks < 4096) }
        ensures large { IsErrOf result MemoryDiskFault.TooLarge ↔ (65536 < blocks) }
        ensures fresh { IfOk result (λ disk. IsFresh disk (replicate blocks (replicate 4096 0)) room fails.now) }
    {
        Ok(Self::fresh(alloc, zeroed(alloc, blocks)?, room, fails)?)
    }

    /// The next `calls` calls go through, as far as they aren't told to fail, and every later one fails.
    pub fn stop_after(&mut self, calls: u64)
        ensures stop { stop_of self.new ≡ Some calls }
        ensures told { told_of self.new ≡ told_of self.old }
        ensures reads { reads_of self.new ≡ reads_of self.old }
        ensures room { room_of self.new ≡ room_of self.old }
        ensures fails { fails_of self.new ≡ fails_of self.old }
        ensures made { made_of self.new ≡ made_of self.old }
        ensures faults { faults_of self.new ≡ faults_of self.old }
    {
        self.plan.stop = Some(calls);
    }

    /// A disk with these blocks.
    pub(crate) fn fresh(
        alloc: Global,
        image: Blocks,
        room: u32,
        fails: &[u64],
    ) -> Result<MemoryDisk, OutOfMemory>
        requires has_super { 16 < length image.items.items }
        requires small { length image.items.items ≤ 65536 }
        ensures { IfOk result (λ disk. IsFresh disk image.items.items room fails.now) }
    {
        Ok(MemoryDisk {
            kept: Kept::new(alloc, image, room)?,
            plan: Plan::new(alloc, fails)?,
        })
    }
}

impl Disk for MemoryDisk {
    ghost use Rattle.std.specs.Prelude.{◌≡◌, ◌≢◌, ◌<◌, ◌↔◌, ◌⊎◌, length, Some, IsErr, OnOk, is_ok, refl};
    ghost use Rattle.std.proofs.Common.{◌∙◌, sym, ap, subst};
    ghost use Rattle.disk_model.specs.Disk.{Call, Image, IsImage, Continues, Changes, ReadGives, HasCause, lost_after, written, super_written};
    ghost use Rattle.disk_memory.specs.RecordLaws.{image_now-told, leaves_as_read};
    ghost use Rattle.disk_memory.specs.MemoryDisk.{told_of, lost_of, reads_of, used_of, faults_of, FailsNext, IsFull, IsCounted, KeepsPlan};

    ghost count = { λ disk. length (reads_of disk) };

    ghost seen = { λ disk. Some (reads_of disk) };

    ghost lost = { lost_of };

    ghost told = { λ disk. Some (told_of disk) };

    ghost faults = { faults_of };

    fn blocks(&self) -> u32
        ensures { result ≡ length (reads_of self.now) }
    {
        self.kept.image.items.len() as u32
    }

    fn read(&mut self, at: u32, into: &mut Block) -> Result<(), DiskFailed>
        requires { at < length (reads_of self.old) }
        ensures bytes { OnOk result (ReadGives (Some (reads_of self.old)) (lost_of self.old) at into.new) }
        ensures size { length (reads_of self.new) ≡ length (reads_of self.old) }
        ensures seen { Some (reads_of self.new) ≡ Some (reads_of self.old) }
        ensures lost { lost_of self.new ≡ lost_of self.old }
        ensures told { Some (told_of self.new) ≡ Some (told_of self.old) }
        ensures cause { HasCause (faults_of self.old) (faults_of self.new) result }

        ensures fails { IsErr result ↔ FailsNext self.old }
        ensures counted { IsCounted self.old self.new (is_ok result) }
        ensures plan { KeepsPlan self.old self.new }
    {
        let fails = self.plan.begin();
        if !fails {
            *into = self.kept.read(at);
        }
        self.plan.answer(!fails)
    }

    /// A write that fails leaves its block as it was.
    fn write(&mut self, at: u32, from: &Block) -> Result<(), DiskFailed>
        requires range { at < length (reads_of self.old) }
        requires not_super { at ≢ 16 }
        ensures size { length (reads_of self.new) ≡ length (reads_of self.old) }
        ensures seen { Changes (Some (reads_of self.old)) (Some (reads_of self.new)) at from.now (is_ok result) }
        ensures lost { lost_of self.new ≡ lost_after at (is_ok result) (lost_of self.old) }
        ensures told { Continues (Some (told_of self.old)) (Some (told_of self.new)) (is_ok result) (written at from.now (is_ok result) (Some (reads_of self.new))) }
        ensures cause { HasCause (faults_of self.old) (faults_of self.new) result }

        ensures same { IsErr result → reads_of self.new ≡ reads_of self.old }
        ensures fails { IsErr result ↔ (FailsNext self.old ⊎ IsFull self.old) }
        ensures counted { IsCounted self.old self.new (is_ok result) }
        ensures plan { KeepsPlan self.old self.new }
    {
        let fails = self.plan.begin();
        if self.kept.is_full() {
            return self.plan.answer(false);
        }
        self.kept.write(at, from, !fails);
        self.plan.answer(!fails)
    }

    /// A write that fails leaves the superblock as it was.
    fn write_super(&mut self, from: &Block) -> Result<(), DiskFailed>
        requires { 16 < length (reads_of self.old) }
        ensures size { length (reads_of self.new) ≡ length (reads_of self.old) }
        ensures seen { Changes (Some (reads_of self.old)) (Some (reads_of self.new)) 16 from.now (is_ok result) }
        ensures lost { lost_of self.new ≡ lost_of self.old }
        ensures told { Continues (Some (told_of self.old)) (Some (told_of self.new)) (is_ok result) (super_written from.now (is_ok result) (Some (reads_of self.new))) }
        ensures cause { HasCause (faults_of self.old) (faults_of self.new) result }

        ensures same { IsErr result → reads_of self.new ≡ reads_of self.old }
        ensures fails { IsErr result ↔ (FailsNext self.old ⊎ IsFull self.old) }
        ensures counted { IsCounted self.old self.new (is_ok result) }
        ensures plan { KeepsPlan self.old self.new }
    {
        let fails = self.plan.begin();
        if self.kept.is_full() {
            return self.plan.answer(false);
        }
        self.kept.write_super(from, !fails);
        self.plan.answer(!fails)
    }

    fn flush(&mut self) -> Result<(), DiskFailed>
        ensures size { length (reads_of self.new) ≡ length (reads_of self.old) }
        ensures seen { Some (reads_of self.new) ≡ Some (reads_of self.old) }
        ensures lost { OnOk result (lost_of self.new ≡ lost_of self.old) }
        ensures told { Continues (Some (told_of self.old)) (Some (told_of self.new)) (is_ok result) (Call.Flush (is_ok result)) }
        ensures cause { HasCause (faults_of self.old) (faults_of self.new) result }

        ensures fails { IsErr result ↔ (FailsNext self.old ⊎ IsFull self.old) }
        ensures counted { IsCounted self.old self.new (is_ok result) }
        ensures plan { KeepsPlan self.old self.new }
    {
        let fails = self.plan.begin();
        if self.kept.is_full() {
            return self.plan.answer(false);
        }
        self.kept.flush(!fails);
        self.plan.answer(!fails)
    }

    ghost reads_as_told = { λ disk. ap (λ (image : Image). Some image) (disk.kept.reads ∙ sym (image_now-told disk.kept.first.items.items disk.kept.entries.items)) };

    ghost lost_as_told = { λ disk. refl };

    ghost reads_blocks = { λ disk. disk.kept.image.are_blocks };

    ghost reads_all = { λ disk. refl };

    ghost reads_as_left = { λ disk. leaves_as_read disk.kept.first.items.items disk.kept.entries.items disk.kept.has_super (subst IsImage disk.kept.reads disk.kept.image.are_blocks) };
}
