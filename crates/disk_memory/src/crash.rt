ghost use Rattle.std.specs.Prelude.{◌≡◌, ◌≤◌, ◌<◌, length, IfOk, []};
ghost use Rattle.disk_model.specs.Disk.{Leaves, held_now};
ghost use Rattle.disk_memory.specs.Record.{told_by};
ghost use Rattle.disk_memory.specs.MemoryDisk.{IsFresh, told_of, reads_of, room_of};

use crate::blocks::Blocks;
use crate::entry::{Entry, Place};
use crate::kept::Kept;
use crate::memory_disk::MemoryDisk;
use blk_base::{Block, OutOfMemory};
use rand_core::{Rng, SeedableRng};
use rand_pcg::Lcg64Xsh32;
use std::alloc::Global;

impl MemoryDisk {
    /// A disk with one of the images that a crash may leave now, chosen from `pick`. It has the same room, recorded no
    /// call, and all its calls go through.
    pub fn crash(&self, alloc: Global, pick: u64) -> Result<MemoryDisk, OutOfMemory>
        ensures left { IfOk result (λ disk. Leaves (held_now (told_of self.now)) (reads_of disk)) }
        ensures fresh { IfOk result (λ disk. IsFresh disk (reads_of disk) (room_of self.now) []) }
    {
        let mut rng = Lcg64Xsh32::seed_from_u64(pick);
        let mut image = self.kept.image.copy(alloc)?;
        tear(&self.kept, &mut rng, &mut image);
        choose_super(&self.kept, &mut rng, &mut image);
        MemoryDisk::fresh(alloc, image, self.kept.room, &[])
    }
}

/// Puts into each pending or lost block what was durable of it, what was written, a mixture or other bytes.
fn tear(kept: &Kept, rng: &mut Lcg64Xsh32, image: &mut Blocks)
    requires { Leaves (held_now (told_by kept.now.first.items.items kept.now.entries.items)) image.old.items.items }
    ensures { Leaves (held_now (told_by kept.now.first.items.items kept.now.entries.items)) image.new.items.items }
{
    for entry in &kept.entries {
        if let Entry::Write { place, bytes, .. } = entry {
            tear_block(kept, rng, image, place, bytes);
        }
    }
}

/// The same of one block, to which these bytes were written.
fn tear_block(kept: &Kept, rng: &mut Lcg64Xsh32, image: &mut Blocks, place: &Place, bytes: &Block)
    requires { Leaves (held_now (told_by kept.now.first.items.items kept.now.entries.items)) image.old.items.items }
    ensures { Leaves (held_now (told_by kept.now.first.items.items kept.now.entries.items)) image.new.items.items }
{
    let state = kept.state_of(place.at, bytes);
    if state.pending || state.lost {
        let block = torn(rng, &state.durable, bytes);
        image.set(place.at, &block);
    }
}

/// Puts into block 16 the superblock as it reads, or one whose write failed since.
fn choose_super(kept: &Kept, rng: &mut Lcg64Xsh32, image: &mut Blocks)
    requires { Leaves (held_now (told_by kept.now.first.items.items kept.now.entries.items)) image.old.items.items }
    ensures { Leaves (held_now (told_by kept.now.first.items.items kept.now.entries.items)) image.new.items.items }
{
    for entry in &kept.entries[kept.super_from..] {
        if let Entry::Super { bytes, .. } = entry {
            if rng.next_u32() % 2 == 0 {
                image.set(16, bytes);
            }
        }
    }
}

/// The old bytes, the new ones, the old ones and then the new, or other ones.
fn torn(rng: &mut Lcg64Xsh32, old: &Block, new: &Block) -> Block {
    let mut block = *old;
    match rng.next_u32() % 4 {
        0 => {}
        1 => block = *new,
        2 => {
            let cut = rng.next_u32() as usize % 4096;
            block[cut..].copy_from_slice(&new[cut..]);
        }
        _ => rng.fill_bytes(&mut block),
    }
    block
}
