ghost use Rattle.std.specs.Prelude.{◌≡◌};
ghost use Rattle.disk_model.specs.Disk.{HasCause};

use blk_base::Block;
use blk_base::format::{BLOCK_SIZE, SUPER_BLOCK};
use disk_model::{Disk, DiskFailed};
use std::fs::File;
use std::io;
use std::io::{Seek, SeekFrom};
use std::os::unix::fs::FileExt;

/// The disk in a file or a block device: as many blocks as it has whole pieces of 4096 bytes, at most 2^32 - 1. It tells
/// nothing of its content, and holds an advisory lock until it is dropped.
#[derive(Drop)]
pub struct FileDisk {
    file: File,
    blocks: u32,
    faults: u64,
}

impl FileDisk {
    /// The disk in an open file, which is read and written. An error is also that another program holds a lock on it
    /// (`WouldBlock`).
    pub fn new(file: File) -> io::Result<FileDisk> {
        file.try_lock()?;
        FileDisk::sized(file)
    }

    /// The disk in an open file, which is only read. An error is also that another program writes it (`WouldBlock`).
    pub fn read_only(file: File) -> io::Result<FileDisk> {
        file.try_lock_shared()?;
        FileDisk::sized(file)
    }

    // The end of a block device is found by a seek, as that of a file is; `metadata` tells that of a file alone.
    fn sized(mut file: File) -> io::Result<FileDisk> {
        let pieces = file.seek(SeekFrom::End(0))? / BLOCK_SIZE;
        Ok(FileDisk {
            file,
            blocks: u32::try_from(pieces).unwrap_or(u32::MAX),
            faults: 0,
        })
    }

    // The outcome of a call on the file: an error counts as a fault.
    fn outcome(&mut self, done: io::Result<()>) -> Result<(), DiskFailed>
        ensures blocks { self.new.blocks ≡ self.old.blocks }
        ensures cause { HasCause self.old.faults self.new.faults result }
    {
        if done.is_ok() {
            return Ok(());
        }
        self.faults = self.faults.saturating_add(1);
        Err(DiskFailed)
    }
}

impl Disk for FileDisk {
    ghost use Rattle.std.specs.Prelude.{[], None};

    ghost count = { λ disk. disk.blocks };

    ghost seen = { λ _. None };

    ghost lost = { λ _. [] };

    ghost told = { λ _. None };

    ghost faults = { λ disk. disk.faults };

    ghost reads_as_told = { λ _. tt };

    ghost lost_as_told = { λ _. tt };

    ghost reads_blocks = { λ _. tt };

    ghost reads_all = { λ _. tt };

    ghost reads_as_left = { λ _. tt };

    fn blocks(&self) -> u32 {
        self.blocks
    }

    fn read(&mut self, at: u32, into: &mut Block) -> Result<(), DiskFailed> {
        let done = self.file.read_exact_at(into, u64::from(at) * BLOCK_SIZE);
        self.outcome(done)
    }

    fn write(&mut self, at: u32, from: &Block) -> Result<(), DiskFailed> {
        let done = self.file.write_all_at(from, u64::from(at) * BLOCK_SIZE);
        self.outcome(done)
    }

    // Durable at Ok: written, and then synced.
    fn write_super(&mut self, from: &Block) -> Result<(), DiskFailed> {
        let done = self
            .file
            .write_all_at(from, u64::from(SUPER_BLOCK) * BLOCK_SIZE);
        self.outcome(done)?;
        self.flush()
    }

    // The data alone: no call changes the file's size.
    fn flush(&mut self) -> Result<(), DiskFailed> {
        let done = self.file.sync_data();
        self.outcome(done)
    }
}
