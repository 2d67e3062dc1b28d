//! Buffers for what is to come.
ghost use Rattle.std.specs.Prelude.{◌≤◌, OnOk};
ghost use Rattle.blk_base.specs.Bytes.{Image};
ghost use Rattle.block_table.specs.Blocks.{BlockList};
ghost use Rattle.commit_images.specs.Scene.{Scene};
ghost use Rattle.flat_model.specs.Volume.{RunVolume};
ghost use Rattle.commit_blocks.specs.Keeps.{KeepsBlocks};
ghost use Rattle.commit_blocks.specs.Steps.{HasMoreSpare, IsListOut};

use crate::Kept;
use blk_base::OutOfMemory;
use std::alloc::Global;

impl Kept {
    /// Makes at least so many buffers spare, for blocks that are edited or sealed later on.
    pub fn reserve(&mut self, alloc: Global, buffers: u32) -> Result<(), OutOfMemory>
        ensures keeps { (image : Image) (run : RunVolume) (scene : Scene) → KeepsBlocks self.old image run scene → KeepsBlocks self.new image run scene }
        ensures ok { OnOk result (buffers ≤ self.new.table.spare) }
        ensures more { HasMoreSpare self.old self.new }
        ensures list { (list : BlockList) → IsListOut self.old list → IsListOut self.new list }
    {
        self.table.reserve(alloc, buffers)
    }
}
