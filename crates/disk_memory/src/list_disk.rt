ghost use Rattle.std.specs.Prelude.{◌≡◌};
ghost use Rattle.disk_model.specs.Disk.{HasCause};

use blk_base::{Block, OutOfMemory};
use disk_model::{Disk, DiskFailed};
use std::alloc::Global;

/// A disk of `BLOCKS` blocks that keeps the calls made on it and what they wrote, and fails at one of them. It tells
/// nothing.
#[derive(Drop)]
pub struct ListDisk<const BLOCKS: u32> {
    calls: Vec<u32>,
    blocks: Vec<(u32, Box<Block>)>,
    fails: usize,
    faults: u64,
}

impl<const BLOCKS: u32> ListDisk<BLOCKS> {
    /// A disk of zeros. `fails`: the number of the call that fails, from 1; none for 0.
    pub fn new(alloc: Global, fails: usize) -> ListDisk<BLOCKS> {
        ListDisk {
            calls: Vec::new(alloc),
            blocks: Vec::new(alloc),
            fails,
            faults: 0,
        }
    }

    /// The calls so far, by the block that each read or wrote, and 0 for a flush.
    pub fn calls(&self) -> &[u32] {
        &self.calls
    }

    /// The bytes last put into this block, if any were.
    pub fn block(&self, at: u32) -> Option<&Block> {
        for (place, block) in self.blocks.iter().rev() {
            if *place == at {
                return Some(block);
            }
        }
        None
    }

    /// Puts bytes into a block, without a call.
    pub fn put(&mut self, at: u32, block: &Block) -> Result<(), OutOfMemory> {
        self.keep(at, block)
    }

    fn keep(&mut self, at: u32, block: &Block) -> Result<(), OutOfMemory>
        ensures { self.new.faults ≡ self.old.faults }
    {
        let alloc = *self.blocks.allocator();
        let copy = Box::new(alloc, *block)?;
        self.blocks.push((at, copy))?;
        Ok(())
    }

    fn call(&mut self, at: u32) -> Result<(), DiskFailed>
        ensures { HasCause self.old.faults self.new.faults result }
    {
        let kept = self.calls.push(at).is_ok();
        if kept && self.calls.len() != self.fails {
            return Ok(());
        }
        self.fail()
    }

    fn fail(&mut self) -> Result<(), DiskFailed>
        ensures { HasCause self.old.faults self.new.faults result }
    {
        self.faults = self.faults.saturating_add(1);
        Err(DiskFailed)
    }

    fn write_at(&mut self, at: u32, block: &Block) -> Result<(), DiskFailed>
        ensures { HasCause self.old.faults self.new.faults result }
    {
        self.call(at)?;
        if self.keep(at, block).is_err() {
            return self.fail();
        }
        Ok(())
    }
}

impl<const BLOCKS: u32> Disk for ListDisk<BLOCKS> {
    ghost use Rattle.std.specs.Prelude.{None, []};

    ghost count = { λ _. BLOCKS };

    ghost seen = { λ _. None };

    ghost lost = { λ _. [] };

    ghost told = { λ _. None };

    ghost faults = { λ disk. disk.faults };

    fn blocks(&self) -> u32 {
        BLOCKS
    }

    fn read(&mut self, at: u32, into: &mut Block) -> Result<(), DiskFailed> {
        self.call(at)?;
        *into = match self.block(at) {
            Some(block) => *block,
            None => [0; 4096],
        };
        Ok(())
    }

    fn write(&mut self, at: u32, from: &Block) -> Result<(), DiskFailed> {
        self.write_at(at, from)
    }

    fn write_super(&mut self, from: &Block) -> Result<(), DiskFailed> {
        self.write_at(16, from)
    }

    fn flush(&mut self) -> Result<(), DiskFailed> {
        self.call(0)
    }

    ghost reads_as_told = { λ _. tt };

    ghost lost_as_told = { λ _. tt };

    ghost reads_blocks = { λ _. tt };

    ghost reads_all = { λ _. tt };

    ghost reads_as_left = { λ _. tt };
}
