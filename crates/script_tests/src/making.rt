use disk_memory::ListDisk;
use disk_model::Disk;
use io_edge::{MemorySink, MemorySource};
use script_runner::{Run, drive};
use std::alloc::Global;
use std::test::Fail;

/// The uuid of the first worked volume.
pub const FSID: &str = "00000000-0000-0000-0000-000000000001";

/// Runs a command, and gives its exit status.
pub fn run<D: Disk>(
    alloc: Global,
    words: &[&str],
    disk: &mut D,
    to: &mut MemorySink,
) -> Result<u8, Fail> {
    let mut command = Vec::new(alloc);
    for word in words {
        command.push(String::from_str(alloc, word)?)?;
    }
    let mut from = MemorySource::new(alloc, b"", &[])?;
    let mut run = Run::new(alloc);
    Ok(drive(alloc, &command, &mut from, to, disk, &mut run).code())
}

/// The exit status of a command on a disk of so many blocks that doesn't fail, and the number of its device calls.
fn code<const BLOCKS: u32>(alloc: Global, words: &[&str]) -> Result<(u8, usize), Fail> {
    let mut disk = ListDisk::<BLOCKS>::new(alloc, 0);
    let mut to = MemorySink::new(alloc, &[])?;
    let code = run(alloc, words, &mut disk, &mut to)?;
    Ok((code, disk.calls().len()))
}

#[test]
fn makes_the_first_volume(rt: HostRuntime) -> Result<(), Fail> {
    let mut disk = ListDisk::<4096>::new(rt.alloc(), 0);
    let mut to = MemorySink::new(rt.alloc(), &[])?;
    assert_eq!(rt;
        run(rt.alloc(), &["mkfs", FSID, "4096", "1"], &mut disk, &mut to)?,
        0
    );
    assert_eq!(rt; to.bytes(), b"made 4096 1\n".as_slice());
    assert_eq!(rt; disk.calls(), [18, 17, 0, 16].as_slice());
    let Some(superblock) = disk.block(16) else {
        return Err(Fail::from("no superblock"));
    };
    let rows = [
        (0x20, 0x28, [0, 0, 0, 0, 0, 0, 0, 0]),
        (0x28, 0x30, [0, 0, 0, 0, 0, 0, 0, 1]),
        (0x38, 0x40, [1, 0, 0, 0, 0, 0, 0, 0]),
        (0x40, 0x48, [0x5f, 0x42, 0x48, 0x52, 0x66, 0x53, 0x5f, 0x4d]),
        (0x48, 0x50, [1, 0, 0, 0, 0, 0, 0, 0]),
        (0x50, 0x58, [0, 0x10, 1, 0, 0, 0, 0, 0]),
        (0x60, 0x68, [0, 0, 0, 0, 0, 0, 0, 0]),
        (0x70, 0x78, [0, 0, 0, 1, 0, 0, 0, 0]),
        (0x78, 0x80, [0, 0x20, 0, 0, 0, 0, 0, 0]),
        (0xbc, 0xc4, [0, 0, 0, 0, 0, 0, 0, 0x80]),
    ];
    for (at, end, bytes) in rows {
        assert!(rt; superblock.get(at..end) == Some(bytes.as_slice()), "{at}");
    }
    Ok(())
}

#[test]
fn words_and_numbers_have_one_form(rt: HostRuntime) -> Result<(), Fail> {
    for (blocks, wanted) in [("4095", (8, 0)), ("65536", (0, 4)), ("65537", (8, 0))] {
        assert_eq!(rt;
            code::<65537>(rt.alloc(), &["mkfs", FSID, blocks, "1"])?,
            wanted
        );
    }
    for blocks in [
        "",
        "0",
        "+4096",
        "-4096",
        "04096",
        "4096 ",
        "0x1000",
        "4O96",
        "18446744073709551616",
        "18446744073709555712",
        "4294971392",
    ] {
        assert_eq!(rt;
            code::<65537>(rt.alloc(), &["mkfs", FSID, blocks, "1"])?,
            (8, 0)
        );
    }
    // A leaf for each subvolume, and the root tree: one leaf, or two below a node.
    for (subs, wanted) in [("2", (0, 5)), ("16", (0, 21))] {
        assert_eq!(rt;
            code::<4096>(rt.alloc(), &["mkfs", FSID, "4096", subs])?,
            wanted
        );
    }
    for subs in [
        "0",
        "17",
        "",
        "01",
        "+1",
        "-1",
        "257",
        "4294967297",
        "18446744073709551617",
    ] {
        assert_eq!(rt;
            code::<4096>(rt.alloc(), &["mkfs", FSID, "4096", subs])?,
            (8, 0)
        );
    }
    for (fsid, wanted) in [
        ("", (8, 0)),
        ("1", (8, 0)),
        ("00000000000000000000000000000001", (8, 0)),
        ("{00000000-0000-0000-0000-000000000001}", (8, 0)),
        ("urn:uuid:00000000-0000-0000-0000-000000000001", (8, 0)),
        ("0000000-00000-0000-0000-000000000001", (8, 0)),
        ("00000000-0000-0000-0000-00000000000g", (8, 0)),
        ("ABCDEF01-2345-6789-abcd-ef0123456789", (0, 4)),
    ] {
        assert_eq!(rt;
            code::<4096>(rt.alloc(), &["mkfs", fsid, "4096", "1"])?,
            wanted
        );
    }
    assert_eq!(rt;
        code::<4095>(rt.alloc(), &["mkfs", FSID, "4096", "1"])?,
        (8, 0)
    );
    for (word, last) in [("MKFS", "1"), ("list", "1")] {
        assert_eq!(rt;
            code::<4096>(rt.alloc(), &[word, FSID, "4096", last])?,
            (1, 0)
        );
    }
    assert_eq!(rt; code::<4096>(rt.alloc(), &[])?, (1, 0));
    assert_eq!(rt; code::<4096>(rt.alloc(), &["mkfs"])?, (1, 0));
    assert_eq!(rt; code::<4096>(rt.alloc(), &["mkfs", FSID, "4096"])?, (1, 0));
    assert_eq!(rt;
        code::<4096>(rt.alloc(), &["mkfs", FSID, "4096", "1", "1"])?,
        (1, 0)
    );
    Ok(())
}

/// What a `mkfs` of so many subvolumes comes to where the disk and the sink fail at these calls: the exit status, the number
/// of device calls, and whether the text is this one.
fn made(
    alloc: Global,
    subs: &str,
    disk_fails: usize,
    sink_fails: u64,
    text: &str,
) -> Result<(u8, usize, bool), Fail> {
    let mut disk = ListDisk::<4096>::new(alloc, disk_fails);
    let mut to = MemorySink::new(alloc, &[sink_fails])?;
    let code = run(alloc, &["mkfs", FSID, "4096", subs], &mut disk, &mut to)?;
    Ok((code, disk.calls().len(), to.bytes() == text.as_bytes()))
}

#[test]
fn each_fault_has_its_answer(rt: HostRuntime) -> Result<(), Fail> {
    let rows = [
        ("1", 1, 0, "disk\n", (4, 1, true)),
        ("1", 2, 0, "disk\n", (4, 2, true)),
        ("1", 3, 0, "disk\n", (4, 3, true)),
        ("1", 4, 0, "disk\n", (4, 4, true)),
        ("1", 0, 3, "made 4096", (6, 4, true)),
        ("17", 0, 1, "", (8, 0, true)),
        ("17", 0, 0, "range\n", (8, 0, true)),
    ];
    for (subs, disk_fails, sink_fails, text, wanted) in rows {
        assert_eq!(rt;
            made(rt.alloc(), subs, disk_fails, sink_fails, text)?,
            wanted
        );
    }
    let mut disk = ListDisk::<4096>::new(rt.alloc(), 0);
    let mut to = MemorySink::new(rt.alloc(), &[])?;
    assert_eq!(rt; run(rt.alloc(), &[], &mut disk, &mut to)?, 1);
    assert_eq!(rt; to.bytes(), b"usage\n".as_slice());
    Ok(())
}
