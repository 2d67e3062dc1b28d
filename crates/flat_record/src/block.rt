//! A block of a file.
ghost use Rattle.std.specs.Prelude.{◌≡◌, ◌<◌, ◌≤◌, ℕ, List, All, length, slice_index, vec_len, bytes_eq, IfOk};
ghost use Rattle.flat_model.specs.Contents.{cut_block};

use blk_base::OutOfMemory;
use std::alloc::Global;
use std::marker::Model;

/// The bytes of a block ("Superblock" of the on-disk format: sectorsize).
const BLOCK_BYTES: usize = 4096;

/// A block of a file, seen as its 4096 bytes.
#[derive(Drop)]
pub(crate) struct FileBlock {
    bytes: Vec<u8>,
}

impl Model for FileBlock {
    ghost use Rattle.std.specs.Prelude.{◌≡◌, ◌<◌, ℕ, List, All, length};

    ghost Value = { List ℕ };

    ghost view = { λ block. block.bytes.items };

    ghost invariant = { λ block. (length block.bytes.items ≡ 4096) × All (λ byte. byte < 256) block.bytes.items };
}

impl FileBlock {
    /// A block of these 4096 bytes.
    pub(crate) fn new(bytes: Vec<u8>) -> FileBlock
        requires { vec_len bytes ≡ 4096 }
        ensures { result ≡ bytes.items }
    {
        FileBlock { bytes }
    }

    /// The bytes of the block.
    pub(crate) fn as_bytes(&self) -> &[u8]
        ensures value { result.now ≡ self.now }
        ensures whole { length self.now ≡ 4096 }
        ensures bytes { All (λ byte. byte < 256) self.now }
    {
        self.bytes.as_slice()
    }

    /// The byte at this place, counted from 0.
    pub(crate) fn byte(&self, at: usize) -> u8
        requires { at < 4096 }
        ensures { result ≡ slice_index self.now at }
    {
        self.as_bytes()[at]
    }

    /// Makes zeros of the bytes from this place on.
    pub(crate) fn cut(&mut self, from: usize)
        requires { from ≤ 4096 }
        ensures { self.new ≡ cut_block self.old from }
    {
        for past in 0..BLOCK_BYTES - from {
            self.bytes[from + past] = 0;
        }
    }

    /// A block of its own with these 4096 bytes. Fails only for want of memory.
    pub(crate) fn copy_of(alloc: Global, bytes: &[u8]) -> Result<FileBlock, OutOfMemory>
        requires { length bytes.now ≡ 4096 }
        ensures { IfOk result (λ block. block ≡ bytes.now) }
    {
        let bytes = Vec::from_slice(alloc, bytes)?;
        Ok(FileBlock { bytes })
    }

    /// The same block once more. Fails only for want of memory.
    pub(crate) fn copy(&self, alloc: Global) -> Result<FileBlock, OutOfMemory>
        ensures { IfOk result (λ block. block ≡ self.now) }
    {
        let bytes = Vec::from_slice(alloc, self.as_bytes())?;
        Ok(FileBlock { bytes })
    }
}
