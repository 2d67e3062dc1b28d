//! A file: its size and its blocks.
ghost use Rattle.std.specs.Prelude.{◌≡◌, ◌<◌, ◌≤◌, ◌+◌, ◌↔◌, ℕ, List, length, slice_index_or, IsTrue, IfOk, OnOk, OnErr};
ghost use Rattle.std.specs.FinMap.{entries, insert};
ghost use Rattle.flat_model.specs.Records.{Attributes};
ghost use Rattle.flat_model.specs.Contents.{most_file_bytes, bytes_read, written, truncated};
ghost use Rattle.flat_model.specs.Coherent.{KeepsFileLimits};

use crate::block::FileBlock;
use crate::block_limits::{are_same, copy_blocks, do_keep_limits};
use crate::blocks::{cut_block_at, keep_below, put_blocks, read_block, written_blocks};
use crate::table::put_entry;
use blk_base::limits::MOST_FILE_BYTES;
use blk_base::{Block, OutOfMemory, Text};
use std::alloc::Global;
use std::marker::Model;

/// A file: its size in bytes, and the blocks that are no holes, by their numbers in rising order.
#[derive(Drop)]
pub(crate) struct File {
    size: u64,
    blocks: Vec<(u64, FileBlock)>,
}

impl Model for File {
    ghost use Rattle.std.specs.Prelude.{IsTrue};
    ghost use Rattle.std.specs.Ordering.{nat_cmp};
    ghost use Rattle.std.specs.FinMap.{from_entries, is_sorted};
    ghost use Rattle.flat_record.specs.SizedBlocks.{SizedBlocks, sized_code};

    ghost Value = { SizedBlocks };

    ghost coded = { sized_code };

    ghost view = { λ file. record { size = file.size; blocks = from_entries file.blocks.items } };

    ghost invariant = { λ file. IsTrue (is_sorted nat_cmp file.blocks.items) };
}

impl File {
    ghost use Rattle.flat_record.specs.SizedBlocks.{file_of};
    ghost use Rattle.std.specs.FinMap.{empty};

    /// A file of this size, in bytes, that is a hole.
    pub(crate) fn new(alloc: Global, size: u64) -> File
        ensures { result ≡ record { size = size; blocks = empty } }
    {
        File {
            size,
            blocks: Vec::new(alloc),
        }
    }

    /// The size in bytes.
    pub(crate) fn size(&self) -> u64
        ensures { result ≡ self.now.size }
    {
        self.size
    }

    /// Writes a text from an offset on.
    pub(crate) fn write(
        &mut self,
        alloc: Global,
        offset: u64,
        text: &Text,
    ) -> Result<(), OutOfMemory>
        requires { offset + length text.now ≤ most_file_bytes }
        ensures ok { (attributes : Attributes) → OnOk result (file_of attributes self.new ≡ written (file_of attributes self.old) offset text.now) }
        ensures err { OnErr result (self.new ≡ self.old) }
    {
        let made = written_blocks(alloc, &self.blocks, offset, text)?;
        self.blocks.reserve(made.len())?;
        put_blocks(&mut self.blocks, made);
        self.size = self.size.max(offset + text.len() as u64);
        Ok(())
    }

    /// Cuts or grows the file to a size in bytes. Takes no memory.
    pub(crate) fn truncate(&mut self, size: u64)
        requires { size ≤ most_file_bytes }
        ensures { (attributes : Attributes) → file_of attributes self.new ≡ truncated (file_of attributes self.old) size }
    {
        keep_below(&mut self.blocks, size);
        cut_block_at(&mut self.blocks, size);
        self.size = size;
    }

    /// The bytes from an offset on, so many of them and none past the size. Fails only for want of memory.
    pub(crate) fn read(&self, alloc: Global, offset: u64, count: u64) -> Result<Text, OutOfMemory>
        ensures { (attributes : Attributes) → IfOk result (λ text. text ≡ bytes_read (file_of attributes self.now) offset count) }
    {
        let end = self.size.min(offset.saturating_add(count));
        let mut bytes = Vec::new(alloc);
        let mut at = offset;
        while at < end {
            let stop = at + (4096 - at % 4096).min(end - at);
            read_block(&self.blocks, at, stop, &mut bytes)?;
            at = stop;
        }
        Text::new(alloc, bytes.as_slice())
    }

    /// Puts a block of 4096 bytes in, in place of the one of this number.
    pub(crate) fn put_block(
        &mut self,
        alloc: Global,
        number: u64,
        bytes: &Block,
    ) -> Result<(), OutOfMemory>
        ensures ok { OnOk result (self.new ≡ record { size = self.old.size; blocks = insert self.old.blocks number bytes.now }) }
        ensures err { OnErr result (self.new ≡ self.old) }
    {
        let block = FileBlock::copy_of(alloc, bytes)?;
        self.blocks.reserve(1)?;
        put_entry(&mut self.blocks, number, block);
        Ok(())
    }

    /// Whether the file keeps its limits.
    pub(crate) fn keeps_limits(&self) -> bool
        ensures { (attributes : Attributes) → IsTrue result ↔ KeepsFileLimits (file_of attributes self.now) }
    {
        if self.size > MOST_FILE_BYTES {
            return false;
        }
        do_keep_limits(&self.blocks, self.size)
    }

    /// Whether another file has the same size and blocks.
    pub(crate) fn is_same(&self, other: &File) -> bool
        ensures { IsTrue result ↔ (self.now ≡ other.now) }
    {
        if self.size != other.size {
            return false;
        }
        are_same(&self.blocks, &other.blocks)
    }

    /// The same file once more. Fails only for want of memory.
    pub(crate) fn copy(&self, alloc: Global) -> Result<File, OutOfMemory>
        ensures { IfOk result (λ file. file ≡ self.now) }
    {
        let blocks = copy_blocks(alloc, &self.blocks)?;
        Ok(File {
            size: self.size,
            blocks,
        })
    }

    /// How many blocks are no holes.
    pub(crate) fn block_count(&self) -> usize
        ensures { result ≡ length (entries self.now.blocks) }
    {
        self.blocks.len()
    }

    /// The number and the bytes of the block at this place, counted from 0 in the order of the numbers.
    pub(crate) fn block(&self, place: usize) -> (u64, &[u8])
        requires { place < length (entries self.now.blocks) }
        ensures { (result.0, result.1.now) ≡ slice_index_or (entries self.now.blocks) place (result.0, result.1.now) }
    {
        let entry = &self.blocks[place];
        (entry.0, entry.1.as_bytes())
    }
}
