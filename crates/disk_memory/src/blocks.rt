ghost use Rattle.std.specs.Prelude.{◌≡◌, ◌<◌, ℕ, length, replicate, slice_index_or, slice_set, IfOk, []};
ghost use Rattle.disk_model.specs.Disk.{IsBlock, IsImage};

use blk_base::{Block, OutOfMemory};
use std::alloc::Global;

/// The blocks of a disk.
#[derive(Drop)]
pub struct Blocks {
    pub items: Vec<Block>,
    ghost are_blocks: { IsImage items.items },
}

impl Blocks {
    /// So many blocks of zeros.
    pub fn zeros(alloc: Global, count: u32) -> Result<Blocks, OutOfMemory>
        ensures { IfOk result (λ blocks. blocks.items.items ≡ replicate count (replicate 4096 0)) }
    {
        let mut items = Vec::with_capacity(alloc, count as usize)?;
        for index in 0..count {
            let _ = index;
            items.push_reserved([0; 4096]);
        }
        Ok(Blocks { items })
    }

    pub fn copy(&self, alloc: Global) -> Result<Blocks, OutOfMemory>
        ensures { IfOk result (λ blocks. blocks.items.items ≡ self.now.items.items) }
    {
        Ok(Blocks {
            items: Vec::from_slice(alloc, &self.items)?,
        })
    }

    /// The block with this number.
    pub fn get(&self, at: u32) -> &Block
        requires { at < length self.now.items.items }
        ensures { result.now ≡ slice_index_or self.now.items.items at [] }
    {
        &self.items[at as usize]
    }

    /// Puts other bytes into the block with this number, if there is one.
    pub fn set(&mut self, at: u32, block: &Block)
        ensures { self.new.items.items ≡ slice_set self.old.items.items at block.now }
    {
        if let Some(place) = self.items.get_mut(at as usize) {
            *place = *block;
        }
    }
}
