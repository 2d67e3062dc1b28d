//! The commands on a disk in memory.
use blk_base::OutOfMemory;
use disk_memory::MemoryDisk;
use io_edge::{MemorySink, MemorySource};
use script_runner::{Run, drive};
use std::alloc::Global;

/// How many calls a disk keeps in its record.
const ROOM: u32 = 65536;

/// Does a command on the disk, with a script as its source, and gives its text.
fn command(
    alloc: Global,
    words: &[&str],
    script: &str,
    disk: &mut MemoryDisk,
) -> Result<MemorySink, OutOfMemory> {
    let mut all = Vec::new(alloc);
    for &word in words {
        all.push(String::from_str(alloc, word)?)?;
    }
    let mut from = MemorySource::new(alloc, script.as_bytes(), &[])?;
    let mut to = MemorySink::new(alloc, &[])?;
    let mut run = Run::new(alloc);
    drive(alloc, &all, &mut from, &mut to, disk, &mut run);
    Ok(to)
}

/// A disk with a new volume of 4096 blocks and so many subvolumes, of which the calls with these numbers fail.
pub fn made(alloc: Global, subvolumes: &str, fails: &[u64]) -> anyhow::Result<MemoryDisk> {
    let mut disk = MemoryDisk::new(alloc, 4096, ROOM, fails)?;
    let words = [
        "mkfs",
        "00000000-0000-0000-0000-000000000001",
        "4096",
        subvolumes,
    ];
    command(alloc, &words, "", &mut disk)?;
    Ok(disk)
}

/// Runs a script on the disk, and gives its text.
pub fn run_script(
    alloc: Global,
    script: &str,
    disk: &mut MemoryDisk,
) -> Result<MemorySink, OutOfMemory> {
    command(alloc, &["run"], script, disk)
}

/// Lists the volume on the disk.
pub fn list(alloc: Global, disk: &mut MemoryDisk) -> Result<MemorySink, OutOfMemory> {
    command(alloc, &["list"], "", disk)
}
