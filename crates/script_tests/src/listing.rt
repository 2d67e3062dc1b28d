use crate::making::{FSID, run};
use blk_base::{Block, crc32c, put_u32, put_u64};
use disk_memory::{ListDisk, NeverFails};
use disk_model::{Disk, DiskFailed};
use io_edge::MemorySink;
use std::alloc::Global;
use std::test::Fail;

/// A disk with an empty volume of 4096 blocks and so many subvolumes.
fn made(alloc: Global, subs: &str) -> Result<NeverFails, Fail> {
    let mut disk = NeverFails::new(alloc, 4096)?;
    let mut to = MemorySink::new(alloc, &[])?;
    run(alloc, &["mkfs", FSID, "4096", subs], &mut disk, &mut to)?;
    Ok(disk)
}

/// Changes one byte of block 18.
fn change<D: Disk>(disk: &mut D) -> Result<(), DiskFailed> {
    if disk.blocks() <= 18 {
        return Err(DiskFailed);
    }
    let mut block = [0; 4096];
    disk.read(18, &mut block)?;
    block[200] ^= 1;
    disk.write(18, &block)
}

/// The exit status of a `list` of a disk, and its text, where the sink fails at this write.
fn list<D: Disk>(alloc: Global, disk: &mut D, fails: u64) -> Result<(u8, MemorySink), Fail> {
    let mut to = MemorySink::new(alloc, &[fails])?;
    let code = run(alloc, &["list"], disk, &mut to)?;
    Ok((code, to))
}

#[test]
fn a_made_volume_has_its_root_directory(rt: HostRuntime) -> Result<(), Fail> {
    let mut disk = made(rt.alloc(), "1")?;
    let (code, to) = list(rt.alloc(), &mut disk, 0)?;
    assert_eq!(rt; code, 0);
    assert_eq!(rt; to.bytes(), b"sub 5\n256 dir 1 0 - /\ndone 1\n".as_slice());
    let (code, to) = list(rt.alloc(), &mut disk, 1)?;
    assert_eq!(rt; code, 6);
    assert_eq!(rt; to.bytes().len(), 0);
    let mut disk = made(rt.alloc(), "2")?;
    let (code, to) = list(rt.alloc(), &mut disk, 0)?;
    assert_eq!(rt; code, 0);
    assert_eq!(rt;
        to.bytes(),
        b"sub 5\n256 dir 1 0 - /\nsub 256\n256 dir 1 0 - /\ndone 2\n".as_slice()
    );
    Ok(())
}

/// What a `list` writes about a disk with this superblock, whose sum is made anew.
fn listed(alloc: Global, superblock: &mut Block) -> Result<MemorySink, Fail> {
    let sum = crc32c(&superblock[32..]);
    put_u32(superblock, 0, sum);
    let mut disk = made(alloc, "1")?;
    if disk.blocks() <= 16 || disk.write_super(superblock).is_err() {
        return Err(Fail::from("no superblock"));
    }
    Ok(list(alloc, &mut disk, 0)?.1)
}

/// The superblock of an empty volume of 4096 blocks.
fn superblock(alloc: Global) -> Result<Block, Fail> {
    let mut disk = made(alloc, "1")?;
    let mut block = [0; 4096];
    if disk.blocks() <= 16 || disk.read(16, &mut block).is_err() {
        return Err(Fail::from("no superblock"));
    }
    Ok(block)
}

#[test]
fn other_images_are_named(rt: HostRuntime) -> Result<(), Fail> {
    let alloc = rt.alloc();
    let mut noise = [0; 4096];
    for place in 0..4096 {
        noise[place] = (place * place % 251) as u8;
    }
    assert_eq!(rt;
        listed(alloc, &mut noise)?.bytes(),
        b"volume super magic\n".as_slice()
    );

    // As `mkfs.btrfs` has it: without the mark of the profile, bit 63 of the incompatible features.
    let mut foreign = superblock(alloc)?;
    foreign[0xc3] = 0;
    assert_eq!(rt;
        listed(alloc, &mut foreign)?.bytes(),
        b"volume super foreign\n".as_slice()
    );

    // Of 8192 blocks, on a disk of 4096.
    let mut short = superblock(alloc)?;
    put_u64(&mut short, 0x70, 8192 * 4096);
    assert_eq!(rt;
        listed(alloc, &mut short)?.bytes(),
        b"volume super size\n".as_slice()
    );

    // With a byte of the subvolume's leaf changed.
    let mut changed = made(alloc, "1")?;
    change(&mut changed)?;
    let (code, to) = list(alloc, &mut changed, 0)?;
    assert_eq!(rt; code, 3);
    assert_eq!(rt; to.bytes(), b"volume block 73728 checksum\n".as_slice());

    // A disk of zeros, and one that fails.
    for (fails, wanted, text) in [(0, 3, "volume super magic\n"), (1, 4, "disk\n")] {
        let mut disk = ListDisk::<4096>::new(alloc, fails);
        let (code, to) = list(alloc, &mut disk, 0)?;
        assert_eq!(rt; code, wanted);
        assert_eq!(rt; to.bytes(), text.as_bytes());
    }
    Ok(())
}

#[test]
fn each_fault_of_a_superblock_is_named(rt: HostRuntime) -> Result<(), Fail> {
    let alloc = rt.alloc();
    for (place, value, text) in [
        (0x30, 0, "volume super foreign\n"),
        (0x58, 69632, "volume super foreign\n"),
        (0x88, 2, "volume super foreign\n"),
        (0xa0, 1, "volume super foreign\n"),
        (0x70, 4095 * 4096, "volume super size\n"),
        (0x70, 4096 * 4096 + 1, "volume super size\n"),
        (0x50, 4096, "volume super root\n"),
        (0x50, 69633, "volume super root\n"),
        (0x60, 77824, "volume log\n"),
    ] {
        let mut block = superblock(alloc)?;
        put_u64(&mut block, place, value);
        assert_eq!(rt; listed(alloc, &mut block)?.bytes(), text.as_bytes());
    }
    for (place, value, text) in [
        (0xc4, 1, "volume super foreign\n"),
        (0xc6, 8, "volume super level\n"),
        (0xc8, 1, "volume super loglevel\n"),
    ] {
        let mut block = superblock(alloc)?;
        block[place] = value;
        assert_eq!(rt; listed(alloc, &mut block)?.bytes(), text.as_bytes());
    }
    Ok(())
}
