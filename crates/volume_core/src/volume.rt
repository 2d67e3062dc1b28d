//! What a mounted volume keeps.
ghost use Rattle.std.specs.Prelude.{◌≡◌, IfOk, length, ℕ};
ghost use Rattle.blk_base.specs.Bytes.{Image};
ghost use Rattle.commit_blocks.specs.Mounting.{IsMountOf};
ghost use Rattle.commit_images.specs.Scene.{Commit, first_scene};
ghost use Rattle.disk_model.specs.Disk.{Held};
ghost use Rattle.flat_model.specs.Coherent.{IsCoherentVolume};
ghost use Rattle.flat_model.specs.Volume.{RunVolume, mounted as run_begun, volume_of};
ghost use Rattle.tree_mount.specs.Mounted.{IsReadyMount};
ghost use Rattle.volume_image.specs.Roots.{next_generation};
ghost use Rattle.volume_core.specs.Keeps.{IsVolume};

use blk_base::{Block, Marks, OutOfMemory};
use block_table::{BlockTable, Parts, SubState};
use commit_blocks::Kept;
use commit_callers::Callers;
use commit_core::Core;
use std::alloc::Global;
use tree_mount::Mounted;

/// What a batch takes along, so that a seal takes no memory: an empty list of parts, and the superblock's box (own).
#[derive(Drop)]
pub(crate) struct Spares {
    pub(crate) parts: Parts,
    pub(crate) superblock: Box<Block>,
}

/// A mounted volume: its blocks, what its callers wait for, and the numbers of its full commits (own; after
/// struct btrfs_fs_info of the kernel).
#[derive(Drop)]
pub struct Volume {
    pub(crate) kept: Kept,
    pub(crate) callers: Callers,
    /// How many full commits failed since the last one that was done.
    pub(crate) failures: u64,
    pub(crate) marks: Marks,
    /// How many seals came.
    pub(crate) seals: u64,
    /// The indexes of the names that the last operation made, 0 where there is none.
    pub(crate) made: [u64; 2],
    /// What the next batch takes along; none while one is out.
    pub(crate) spares: Option<Spares>,
}

impl Volume {
    /// The volume that was mounted, before any event.
    ///
    /// # Errors
    ///
    /// Out of memory.
    pub fn new(alloc: Global, mounted: Mounted) -> Result<Volume, OutOfMemory>
        requires ready { (count : ℕ) × IsReadyMount mounted count }
        ensures has { IfOk result (λ volume. (image : Image) (run : RunVolume) (held : Held) (commit : Commit) → IsMountOf image mounted run commit
            → IsCoherentVolume (volume_of run) → run ≡ run_begun (volume_of run)
            → IsVolume volume (record { volume = volume_of run; image = image }) (first_scene held commit)) }
        ensures size { IfOk result (λ volume. ⟦<Volume as Core>⟧.size volume ≡ length mounted.table.slots) }
        ensures fsid { IfOk result (λ volume. ⟦<Volume as Core>⟧.fsid volume ≡ mounted.superblock.fsid) }
        ensures generation { IfOk result (λ volume. ⟦<Volume as Core>⟧.generation volume ≡ next_generation mounted.superblock.generation) }
        ensures seals { IfOk result (λ volume. ⟦<Volume as Core>⟧.seals volume ≡ 0) }
        ensures marks { IfOk result (λ volume. ⟦<Volume as Core>⟧.marks volume ≡ record { done = 0; tried = 0; full = 0 }) }
    {
        let spares = Spares {
            parts: Parts::new(alloc)?,
            superblock: Box::new(alloc, [0; 4096])?,
        };
        let kept = Kept::mounted(alloc, mounted)?;
        Ok(Volume {
            kept,
            callers: Callers::new(),
            failures: 0,
            marks: Marks {
                done: 0,
                tried: 0,
                full: 0,
            },
            seals: 0,
            made: [0, 0],
            spares: Some(spares),
        })
    }

    /// Its blocks.
    pub fn table(&self) -> &BlockTable
        ensures { result.now ≡ self.now.kept.table }
    {
        &self.kept.table
    }

    /// Its subvolumes, by rising numbers.
    pub fn subs(&self) -> &[SubState]
        ensures { result.now ≡ self.now.kept.states.items }
    {
        &self.kept.states
    }
}
