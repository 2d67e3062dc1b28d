//! The blocks of a volume that was mounted.
ghost use Rattle.std.specs.Prelude.{◌≡◌, [], IfOk, None, length, ℕ};
ghost use Rattle.blk_base.specs.Bytes.{Image};
ghost use Rattle.commit_images.specs.Scene.{Commit, first_scene};
ghost use Rattle.disk_model.specs.Disk.{Held};
ghost use Rattle.flat_model.specs.Volume.{RunVolume};
ghost use Rattle.tree_mount.specs.Mounted.{IsReadyMount};
ghost use Rattle.volume_image.specs.Roots.{next_generation};
ghost use Rattle.commit_blocks.specs.Keeps.{KeepsBlocks};
ghost use Rattle.tree_range.specs.Shape.{tree_reach};
ghost use Rattle.commit_blocks.specs.Mounting.{IsMountOf};
ghost use Rattle.commit_blocks.specs.Steps.{AreLetGoBehind};

use crate::Kept;
use blk_base::OutOfMemory;
use std::alloc::Global;
use table_commit::let_go_tree;
use tree_mount::Mounted;

impl Kept {
    /// Keeps the blocks of a volume that was mounted. Its root tree is let go, since no current tree has it, and stays as
    /// long as its superblock does (own). There is room for the addresses of all blocks, so that a seal takes no memory.
    pub fn mounted(alloc: Global, mounted: Mounted) -> Result<Kept, OutOfMemory>
        requires ready { (count : ℕ) × IsReadyMount mounted count }
        ensures keeps { IfOk result (λ kept. (image : Image) (run : RunVolume) (held : Held) (commit : Commit) → IsMountOf image mounted run commit
            → KeepsBlocks kept image run (first_scene held commit)) }
        ensures size { IfOk result (λ kept. length kept.table.slots ≡ length mounted.table.slots) }
        ensures fsid { IfOk result (λ kept. kept.fsid ≡ mounted.superblock.fsid) }
        ensures generation { IfOk result (λ kept. kept.generation ≡ next_generation mounted.superblock.generation) }
        ensures let_go { IfOk result (λ kept. AreLetGoBehind mounted.table kept.table (tree_reach kept.table kept.last) []) }
        ensures quiet { IfOk result (λ kept. kept.sealed ≡ None) }
    {
        let Mounted {
            mut table,
            states,
            root,
            superblock,
        } = mounted;
        let fsid = superblock.fsid;
        let let_go = Vec::with_capacity(alloc, table.blocks() as usize)?;
        let_go_tree(&mut table, &root);
        Ok(Kept {
            table,
            states,
            fsid,
            generation: superblock.generation.wrapping_add(1),
            last: root,
            failed: None,
            sealed: None,
            let_go,
        })
    }
}
