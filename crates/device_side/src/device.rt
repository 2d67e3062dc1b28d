//! Where the writes of parts and batches stand.
ghost use Rattle.std.specs.Prelude.{◌≡◌, ◌≢◌, ◌<◌, ◌⊎◌, Ok, OnErr, OnOk, false, map, true};
ghost use Rattle.disk_model.specs.Disk.{HasCause, IfBoth, IsCutOff};
ghost use Rattle.batch_write.specs.Batch.{write_call};
ghost use Rattle.device_side.specs.Device.{IsPart, is_kept, is_passed, new_device, place_of, slot_of, with_covered, with_written};
ghost use Rattle.device_side.specs.Written.{AreWritten, ChangesOnly, MayBeWritten};

use crate::blocks::write_blocks;
use blk_base::format::FS_TREE;
use blk_base::{Block, Marks, SubId};
use block_table::{Batch, Part, Parts};
use disk_model::{DeviceFault, Disk};
use std::marker::Model;

/// How many subvolumes a volume may have.
const SUBVOLUMES: usize = 16;

/// How many slots they have, two each.
pub(crate) const SLOTS: usize = 32;

/// What is known of the writes to a disk: the marks of the superblocks that were tried, one whose write failed, which
/// numbers are covered, and which parts were written and aren't covered yet.
#[derive(Drop)]
pub struct DeviceSide {
    pub(crate) marks: Marks,
    pub(crate) failed: Option<Block>,
    pub(crate) covered: [u64; SUBVOLUMES],
    pub(crate) written: [u64; SLOTS],
}

impl Model for DeviceSide {
    ghost use Rattle.device_side.specs.Device.{Device};

    ghost Value = { Device };

    ghost view = { λ d. record { marks = d.marks; failed = d.failed; covered = d.covered; written = d.written } };
}

/// The place of a subvolume among those that a volume may have.
pub(crate) fn place_of(sub: SubId) -> usize
    ensures { result ≡ place_of sub.0 }
{
    if sub.0 == FS_TREE {
        return 0;
    }
    sub.0.saturating_sub(255) as usize
}

/// The slot of a part.
fn slot_of(part: &Part) -> usize
    requires { IsPart part.now }
    ensures slot { result ≡ slot_of part.now }
    ensures inside { result < 32 }
{
    2 * place_of(part.sub) + (part.number % 2) as usize
}

impl DeviceSide {
    /// The state of a disk on which no part and no superblock was written yet.
    pub fn new() -> DeviceSide
        ensures { result ≡ new_device }
    {
        DeviceSide {
            marks: Marks {
                done: 0,
                tried: 0,
                full: 0,
            },
            failed: None,
            covered: [0; SUBVOLUMES],
            written: [0; SLOTS],
        }
    }

    /// The marks of the superblocks that were tried.
    pub fn marks(&self) -> Marks
        ensures { result ≡ self.now.marks }
    {
        self.marks
    }

    /// Whether the part was written whole and isn't covered yet.
    pub(crate) fn is_kept(&self, part: &Part) -> bool
        requires { IsPart part.now }
        ensures { result ≡ is_kept self.now part.now }
    {
        self.written[slot_of(part)] == part.number && self.covered[place_of(part.sub)] < part.number
    }

    /// Whether the part comes too late.
    fn is_passed(&self, part: &Part) -> bool
        requires { IsPart part.now }
        ensures { result ≡ is_passed self.now part.now }
    {
        part.marks.full != self.marks.full || part.number <= self.covered[place_of(part.sub)]
    }

    /// Writes a part's blocks, each at its byte address ("btrfs_write_marked_extents" of fs/btrfs/transaction.c). One that
    /// comes too late, since a full commit was tried behind its seal or its number is covered, is passed over without a call
    /// (own). A part that was written whole isn't written again by its commit.
    pub fn write_part<D: Disk>(&mut self, disk: &mut D, part: &Part) -> Result<(), DeviceFault>
        requires part { IsPart part.now }
        requires places { MayBeWritten (D.count disk.old) part.now.blocks.pairs }
        ensures passed { is_passed self.old part.now ≡ true → (result ≡ Ok tt) × (disk.new ≡ disk.old) × (self.new ≡ self.old) }
        ensures kept { is_passed self.old part.now ≡ false → OnOk result (self.new ≡ with_written self.old part.now) }
        ensures err { OnErr result (self.new ≡ self.old) }
        ensures fault { OnErr result (result ≡ Err (DeviceFault.Disk false)) }
        ensures changes { ChangesOnly
            (record { count = D.count disk.old; seen = D.seen disk.old; lost = D.lost disk.old; told = D.told disk.old })
            (record { count = D.count disk.new; seen = D.seen disk.new; lost = D.lost disk.new; told = D.told disk.new }) part.now.blocks.pairs }
        ensures written { is_passed self.old part.now ≡ false → OnOk result (AreWritten
            (record { count = D.count disk.old; seen = D.seen disk.old; lost = D.lost disk.old; told = D.told disk.old })
            (record { count = D.count disk.new; seen = D.seen disk.new; lost = D.lost disk.new; told = D.told disk.new }) part.now.blocks.pairs) }
        ensures cut_off { OnErr result (IfBoth (D.told disk.old) (D.told disk.new) (λ old new. IsCutOff old new (map write_call part.now.blocks.pairs))) }
        ensures cause { HasCause (D.faults disk.old) (D.faults disk.new) result }
    {
        if self.is_passed(part) {
            return Ok(());
        }
        write_blocks(disk, &part.blocks).map_err(|_| DeviceFault::Disk { tried: false })?;
        self.written[slot_of(part)] = part.number;
        Ok(())
    }
}
