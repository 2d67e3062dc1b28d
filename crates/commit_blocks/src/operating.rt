//! Operations on the blocks of a volume.
ghost use Rattle.std.specs.Prelude.{◌≡◌, IfOk, OnErr, length};
ghost use Rattle.blk_base.specs.Bytes.{Image};
ghost use Rattle.block_table.specs.Blocks.{BlockList};
ghost use Rattle.commit_images.specs.Scene.{Scene};
ghost use Rattle.flat_model.specs.Step.{IsInLimits};
ghost use Rattle.flat_model.specs.Volume.{RunVolume};
ghost use Rattle.commit_blocks.specs.Keeps.{KeepsBlocks};
ghost use Rattle.commit_blocks.specs.Operating.{HasRoomFor, IsKeptOperated};
ghost use Rattle.commit_blocks.specs.Steps.{IsListOut};

use crate::Kept;
use blk_base::OutOfMemory;
use flat_model::{Answer, Op};
use std::alloc::Global;
use volume_ops::operate;

impl Kept {
    /// Carries out an operation in its limits, where there is room for it, and says its answer. No superblock is led to by
    /// fewer blocks for that, whether one was written or tried, or is to be: a block that one reaches keeps its bytes until it
    /// is released (own).
    ///
    /// # Errors
    ///
    /// Out of memory for the bytes of an answer: then nothing changes.
    pub fn operate(&mut self, alloc: Global, op: &Op) -> Result<Answer, OutOfMemory>
        requires limits { IsInLimits op.now }
        requires given { (image : Image) × (run : RunVolume) × (scene : Scene) × KeepsBlocks self.old image run scene × HasRoomFor self.old.table run op.now }
        ensures done { (image : Image) (run : RunVolume) (scene : Scene) → KeepsBlocks self.old image run scene → HasRoomFor self.old.table run op.now
            → IfOk result (λ answer. IsKeptOperated self.old self.new image run scene op.now answer) }
        ensures memory { (image : Image) (run : RunVolume) (scene : Scene) → KeepsBlocks self.old image run scene
            → OnErr result (KeepsBlocks self.new image run scene) }
        ensures unchanged { OnErr result ((self.new.table ≡ self.old.table) × (self.new.states.items ≡ self.old.states.items)) }
        ensures list { (list : BlockList) → IsListOut self.old list → IsListOut self.new list }
        ensures size { length self.new.table.slots ≡ length self.old.table.slots }
        ensures lists { self.new.table.lists ≡ self.old.table.lists }
        ensures fsid { self.new.fsid ≡ self.old.fsid }
        ensures generation { self.new.generation ≡ self.old.generation }
        ensures last { self.new.last ≡ self.old.last }
        ensures failed { self.new.failed ≡ self.old.failed }
        ensures sealed { self.new.sealed ≡ self.old.sealed }
        ensures noted { self.new.let_go ≡ self.old.let_go }
    {
        operate(alloc, &mut self.table, &mut self.states, op)
    }
}
