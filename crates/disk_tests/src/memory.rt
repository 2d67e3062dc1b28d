ghost use Rattle.std.specs.Prelude.{◌≡◌, ◌≢◌, ◌<◌, ◌∷◌, [], true, OnOk};
ghost use Rattle.disk_model.specs.Disk.{Call, HasCause, TellsMore};

use blk_base::Block;
use disk_memory::{ListDisk, MemoryDisk, MemoryDiskFault, NeverFails};
use disk_model::{Disk, DiskFailed};
use std::alloc::Global;
use std::test::Fail;

/// The way of every commit: the blocks, a flush, the superblock.
fn publish<D: Disk>(
    disk: &mut D,
    at: u32,
    leaf: &Block,
    superblock: &Block,
) -> Result<(), DiskFailed>
    requires big { 16 < D.count disk.old }
    requires range { at < D.count disk.old }
    requires not_super { at ≢ 16 }
    ensures told { OnOk result (TellsMore (D.told disk.old) (D.told disk.new)
        (Call.Write at leaf.now true leaf.now ∷ Call.Flush true ∷ Call.Super superblock.now true superblock.now ∷ [])) }
    ensures cause { HasCause (D.faults disk.old) (D.faults disk.new) result }
{
    disk.write(at, leaf)?;
    disk.flush()?;
    disk.write_super(superblock)?;
    Ok(())
}

fn commit<D: Disk>(disk: &mut D, byte: u8) -> Result<(), DiskFailed> {
    if disk.blocks() <= 100 {
        return Err(DiskFailed);
    }
    publish(disk, 100, &[byte; 4096], &[byte; 4096])
}

fn put<D: Disk>(disk: &mut D, at: u32, byte: u8) -> Result<(), DiskFailed> {
    if at >= disk.blocks() {
        return Err(DiskFailed);
    }
    if at == 16 {
        return disk.write_super(&[byte; 4096]);
    }
    disk.write(at, &[byte; 4096])
}

fn get<D: Disk>(disk: &mut D, at: u32) -> Result<Block, DiskFailed> {
    let mut block = [0; 4096];
    if at >= disk.blocks() {
        return Err(DiskFailed);
    }
    disk.read(at, &mut block)?;
    Ok(block)
}

#[test]
fn sizes(rt: HostRuntime) {
    let rows = [
        (4095, Some(MemoryDiskFault::TooSmall)),
        (4096, None),
        (65536, None),
        (65537, Some(MemoryDiskFault::TooLarge)),
    ];
    for (blocks, fault) in rows {
        assert_eq!(rt;
            MemoryDisk::new(rt.alloc(), blocks, 4, &[]).err(),
            fault,
            "{blocks}"
        );
        assert_eq!(rt;
            NeverFails::new(rt.alloc(), blocks).err(),
            fault,
            "{blocks}"
        );
    }
}

#[test]
fn calls_fail_as_told(rt: HostRuntime) -> Result<(), Fail> {
    let mut disk = MemoryDisk::new(rt.alloc(), 4096, 5, &[2, 4])?;
    assert_eq!(rt; put(&mut disk, 100, 1), Ok(()));
    assert_eq!(rt; put(&mut disk, 100, 2), Err(DiskFailed));
    assert_eq!(rt; get(&mut disk, 100)?[0], 1);
    assert_eq!(rt; disk.flush(), Err(DiskFailed));
    assert_eq!(rt; put(&mut disk, 16, 3), Ok(()));
    assert_eq!(rt; get(&mut disk, 16)?[4095], 3);

    // The record has room for one call more.
    assert_eq!(rt; disk.flush(), Ok(()));
    assert_eq!(rt; disk.flush(), Err(DiskFailed));

    let mut disk = MemoryDisk::new(rt.alloc(), 4096, 5, &[])?;
    disk.stop_after(2);
    assert_eq!(rt; commit(&mut disk, 7), Err(DiskFailed));
    assert_eq!(rt; get(&mut disk, 100).err(), Some(DiskFailed));
    Ok(())
}

#[test]
fn other_disks(rt: HostRuntime) -> Result<(), Fail> {
    let mut disk = NeverFails::new(rt.alloc(), 4096)?;
    assert_eq!(rt; commit(&mut disk, 9), Ok(()));
    assert_eq!(rt; get(&mut disk, 16)?[17], 9);
    assert_eq!(rt; get(&mut disk, 101)?[17], 0);

    let mut disk = ListDisk::<4096>::new(rt.alloc(), 3);
    assert_eq!(rt; commit(&mut disk, 9), Err(DiskFailed));
    assert_eq!(rt; get(&mut disk, 100)?[17], 9);
    assert_eq!(rt; get(&mut disk, 16)?[17], 0);
    assert_eq!(rt; disk.calls(), [100, 0, 16, 100, 16].as_slice());
    Ok(())
}

/// Whether the bytes are all old, all new, old and then new, or others.
fn kind(block: &Block, old: u8, new: u8) -> usize
    ensures { result < 4 }
{
    if block.iter().all(|byte| *byte == old) {
        0
    } else if block.iter().all(|byte| *byte == new) {
        1
    } else if block.iter().all(|byte| *byte == old || *byte == new) {
        2
    } else {
        3
    }
}

/// Which kinds of block 100 and of block 16 forty crashes leave.
fn kinds(
    alloc: Global,
    disk: &MemoryDisk,
    old: u8,
    new: u8,
) -> Result<([bool; 4], [bool; 4]), Fail> {
    let mut blocks = [false; 4];
    let mut supers = [false; 4];
    for pick in 0..40 {
        let mut left = disk.crash(alloc, pick)?;
        blocks[kind(&get(&mut left, 100)?, old, new)] = true;
        supers[kind(&get(&mut left, 16)?, old, new)] = true;
    }
    Ok((blocks, supers))
}

#[test]
fn a_crash_leaves_what_it_may(rt: HostRuntime) -> Result<(), Fail> {
    // The fifth call, a write of the superblock, fails.
    let mut disk = MemoryDisk::new(rt.alloc(), 4096, 8, &[5])?;
    assert_eq!(rt; commit(&mut disk, 1), Ok(()));
    let (blocks, supers) = kinds(rt.alloc(), &disk, 1, 2)?;
    assert_eq!(rt; blocks, [true, false, false, false]);
    assert_eq!(rt; supers, [true, false, false, false]);

    assert_eq!(rt; put(&mut disk, 100, 2), Ok(()));
    assert_eq!(rt; put(&mut disk, 16, 2), Err(DiskFailed));
    let (blocks, supers) = kinds(rt.alloc(), &disk, 1, 2)?;
    assert_eq!(rt; blocks, [true, true, true, true]);
    assert_eq!(rt; supers, [true, true, false, false]);
    Ok(())
}

#[test]
fn a_failed_flush_loses_what_was_pending(rt: HostRuntime) -> Result<(), Fail> {
    // The sixth call, the second flush, fails: reads count.
    let mut disk = MemoryDisk::new(rt.alloc(), 4096, 9, &[6])?;
    assert_eq!(rt; commit(&mut disk, 1), Ok(()));
    assert_eq!(rt; put(&mut disk, 100, 2), Ok(()));
    assert_eq!(rt; get(&mut disk, 100)?[0], 2);
    assert_eq!(rt; disk.flush(), Err(DiskFailed));
    assert_eq!(rt; get(&mut disk, 100)?[0], 1);

    // The next flush settles nothing of it.
    assert_eq!(rt; disk.flush(), Ok(()));
    assert_eq!(rt; get(&mut disk, 100)?[0], 1);
    assert_eq!(rt; kinds(rt.alloc(), &disk, 1, 2)?.0, [true, true, true, true]);

    // Written again, it is durable.
    assert_eq!(rt; commit(&mut disk, 2), Ok(()));
    assert_eq!(rt; get(&mut disk, 100)?[0], 2);
    assert_eq!(rt;
        kinds(rt.alloc(), &disk, 1, 2)?.0,
        [false, true, false, false]
    );
    Ok(())
}
