//! What `foreign` answers of the volume with changes.
use crate::maker::{Change, METADATA_BLOCK, SUPER_BLOCK, SYSTEM_BLOCK, TREE_BLOCK, made};
use foreign_read::{ForeignStatus, drive_foreign};
use io_edge::MemorySink;
use std::alloc::Global;

/// A row: its name, and one change, by the block, the offset and the bytes there.
type Row<'a> = (&'a str, u32, usize, &'a [u8]);

/// Makes the volume with these changes, and prints what `foreign` writes of it, and its exit status.
fn show(rt: &impl Print, alloc: Global, name: &str, changes: &[Change]) -> anyhow::Result<()> {
    let mut disk = made(alloc, changes)?;
    let mut sink = MemorySink::new(alloc, &[])?;
    let words = vec![in alloc; String::from_str(alloc, "foreign")?]?;
    let code = drive_foreign(alloc, &words, &mut sink, &mut disk).code();
    let text = String::from_utf8_lossy(alloc, sink.bytes())?;
    println!(rt; "{name}: {code}\n{text}")?;
    Ok(())
}

/// Shows the volume with each of these changes alone.
fn show_each(rt: &impl Print, alloc: Global, rows: &[Row]) -> anyhow::Result<()> {
    for row in rows {
        let (name, block, offset, bytes) = *row;
        let changes = [Change {
            block,
            offset,
            bytes,
        }];
        show(rt, alloc, name, &changes)?;
    }
    Ok(())
}

/// Volumes that are listed. The items of the subvolume's leaf begin at 4000, 4700, 5400 and 6100.
pub fn listings(rt: &impl Print, alloc: Global) -> anyhow::Result<()> {
    show(rt, alloc, "as made", &[])?;
    let rows: [Row; 10] = [
        ("compressed", TREE_BLOCK, 6116, &[1]),
        ("encrypted", TREE_BLOCK, 6117, &[1]),
        ("other encoding", TREE_BLOCK, 6118, &[1]),
        ("both", TREE_BLOCK, 6116, &[1, 1]),
        (
            "subvolume",
            TREE_BLOCK,
            4700,
            &[0, 2, 0, 0, 0, 0, 0, 0, 132],
        ),
        ("symlink", TREE_BLOCK, 4729, &[7]),
        ("fifo", TREE_BLOCK, 4729, &[5]),
        ("odd name", TREE_BLOCK, 4730, &[0xff]),
        // The size is 4 bytes, of which the last two are in no extent.
        ("longer", TREE_BLOCK, 5416, &[4]),
        // The size is one byte more than 1 GiB.
        ("large", TREE_BLOCK, 5416, &[1, 0, 0, 64]),
    ];
    show_each(rt, alloc, &rows)?;
    // The size is one byte less than the extent has.
    let changes = [of_tree(4729, &[7]), of_tree(5416, &[1])];
    show(rt, alloc, "shorter symlink", &changes)
}

/// Faults of the superblock and of the chunks, whose items begin at 4000, 4700 and 5400.
pub fn super_faults(rt: &impl Print, alloc: Global) -> anyhow::Result<()> {
    let rows: [Row; 14] = [
        ("magic", SUPER_BLOCK, 0x40, b"X"),
        ("kind", SUPER_BLOCK, 0xc4, &[1, 1]),
        ("place", SUPER_BLOCK, 0x30, &[1]),
        ("sector size", SUPER_BLOCK, 0x90, &[0, 32]),
        ("node size", SUPER_BLOCK, 0x94, &[0, 48]),
        ("long array", SUPER_BLOCK, 0xa0, &[1, 8]),
        ("log", SUPER_BLOCK, 0x60, &[0, 0, 0xd0, 1]),
        ("devices", SUPER_BLOCK, 0x88, &[2]),
        ("array", SUPER_BLOCK, 0x333, &[229]),
        ("RAID1", SYSTEM_BLOCK, 5424, &[17]),
        ("copies", SYSTEM_BLOCK, 5444, &[2]),
        ("empty chunk", SYSTEM_BLOCK, 5400, &[0, 0, 0]),
        // The data chunk begins at the metadata chunk's second tree block.
        ("over another", SYSTEM_BLOCK, 160, &[0, 0x40, 0x20, 0]),
        // The data chunk begins at the last 32 KiB of the disk.
        ("past the disk", SYSTEM_BLOCK, 5456, &[0, 0x80, 7, 0]),
    ];
    show_each(rt, alloc, &rows)
}

/// Faults of trees and their roots, of which the root item begins at 4000.
pub fn tree_faults(rt: &impl Print, alloc: Global) -> anyhow::Result<()> {
    let rows: [Row; 13] = [
        ("chunk root level", SUPER_BLOCK, 0xc7, &[8]),
        ("root level", SUPER_BLOCK, 0xc6, &[8]),
        ("tree level", METADATA_BLOCK, 4238, &[8]),
        // The root of the chunk tree is where no chunk of the superblock is.
        ("outside", SUPER_BLOCK, 0x58, &[0, 0, 0xd0, 0]),
        ("root item", METADATA_BLOCK, 122, &[238, 0]),
        ("file system", TREE_BLOCK, 32, &[8]),
        ("address", TREE_BLOCK, 48, &[1]),
        ("generation", TREE_BLOCK, 80, &[8]),
        ("level", TREE_BLOCK, 100, &[1]),
        // 652 items, where 651 have room.
        ("count", TREE_BLOCK, 96, &[140, 2]),
        ("order", TREE_BLOCK, 101, &[2, 1]),
        ("bounds", TREE_BLOCK, 118, &[99, 0]),
        ("overlap", TREE_BLOCK, 118, &[147, 17]),
    ];
    show_each(rt, alloc, &rows)
}

/// A change of the root tree's leaf.
fn of_roots(offset: usize, bytes: &[u8]) -> Change {
    Change {
        block: METADATA_BLOCK,
        offset,
        bytes,
    }
}

/// A change of the subvolume's leaf.
fn of_tree(offset: usize, bytes: &[u8]) -> Change {
    Change {
        block: TREE_BLOCK,
        offset,
        bytes,
    }
}

/// A tree whose root is a node of one pointer, to itself.
pub fn circle(rt: &impl Print, alloc: Global) -> anyhow::Result<()> {
    let changes = [
        of_roots(4238, &[1]),
        of_tree(96, &[1, 0, 0, 0, 1]),
        of_tree(118, &[0, 0x40, 0x20, 0, 0, 0, 0, 0]),
        of_tree(126, &[9, 0, 0, 0, 0, 0, 0, 0]),
    ];
    show(rt, alloc, "circle", &changes)
}

/// Faults of inodes, names and extents.
pub fn item_faults(rt: &impl Print, alloc: Global) -> anyhow::Result<()> {
    let rows: [Row; 13] = [
        ("inode of 159 bytes", TREE_BLOCK, 172, &[159]),
        ("root directory of 161", TREE_BLOCK, 122, &[161]),
        ("entry of no type", TREE_BLOCK, 4729, &[8]),
        ("empty entry", TREE_BLOCK, 147, &[0]),
        ("cut entry", TREE_BLOCK, 4727, &[2]),
        ("bytes behind", TREE_BLOCK, 147, &[32]),
        ("no name", TREE_BLOCK, 4730, b"/"),
        ("no inode", TREE_BLOCK, 159, &[2]),
        ("no root directory", TREE_BLOCK, 109, &[2]),
        ("extent of 20 bytes", TREE_BLOCK, 197, &[20]),
        ("empty extent", TREE_BLOCK, 197, &[21]),
        ("extent of no type", TREE_BLOCK, 6120, &[3]),
        ("short regular", TREE_BLOCK, 6120, &[1]),
    ];
    show_each(rt, alloc, &rows)?;
    let changes = [of_tree(4700, &[0]), of_tree(4729, &[2])];
    show(rt, alloc, "into itself", &changes)
}

/// A further extent of two bytes in the place of a leaf's fifth item, at 1 and at 2.
pub fn two_extents(rt: &impl Print, alloc: Global) -> anyhow::Result<()> {
    for (name, offset) in [("over another", 1), ("behind another", 2)] {
        let header = [
            1, 1, 0, 0, 0, 0, 0, 0, 108, offset, 0, 0, 0, 0, 0, 0, 0, 43, 26, 0, 0, 23, 0, 0, 0,
        ];
        let changes = [
            of_tree(96, &[5]),
            of_tree(201, &header),
            of_tree(5416, &[4]),
        ];
        show(rt, alloc, name, &changes)?;
    }
    Ok(())
}

/// A regular extent of two blocks: the file's size, where the extent begins, and the type of the directory's entry.
pub fn blocks(rt: &impl Print, alloc: Global) -> anyhow::Result<()> {
    let first: &[u8] = &[0, 0, 0xd0, 0];
    // The data chunk has one block from here on.
    let last: &[u8] = &[0, 0xf0, 0xd0, 0];
    let none: &[u8] = &[0, 0];
    for (name, size, at, kind) in [
        ("two blocks", 32, first, 1),
        ("past its chunk", 32, last, 1),
        ("past it behind the size", 16, last, 1),
        ("hole", 32, none, 1),
        ("symlink of blocks", 32, first, 7),
    ] {
        let (entry, bytes) = ([kind], [0, size]);
        let changes = [
            of_tree(197, &[53]),
            of_tree(4729, &entry),
            of_tree(5416, &bytes),
            of_tree(6120, &[1]),
            of_tree(6121, at),
            of_tree(6145, &[0, 32]),
        ];
        show(rt, alloc, name, &changes)?;
    }
    Ok(())
}

/// The listing of the volume as it is made.
const LISTING: &[u8] = b"sub 5\n256 dir 1 2 - /\n257 file 1 2 f59dd9c2 /a\ndone 2\n";

/// Whether each byte of some bytes of the disk, changed alone, leaves the listing or gives a fault.
fn holds_for(
    rt: &impl Print,
    alloc: Global,
    block: u32,
    from: usize,
    to: usize,
) -> anyhow::Result<()> {
    let words = vec![in alloc; String::from_str(alloc, "foreign")?]?;
    for offset in from..to {
        let changes = [Change {
            block,
            offset,
            bytes: &[0xa5],
        }];
        let mut disk = made(alloc, &changes)?;
        let mut sink = MemorySink::new(alloc, &[])?;
        let status = drive_foreign(alloc, &words, &mut sink, &mut disk);
        let as_made = sink.bytes() == LISTING;
        let refused = matches!(status, ForeignStatus::NoVolume(_))
            && sink.bytes().starts_with(b"foreign ");
        if !(status == ForeignStatus::Done && as_made) && !refused {
            println!(rt; "block {block} byte {offset}")?;
        }
    }
    println!(rt; "block {block} bytes {from} to {to}: as made, or a fault")?;
    Ok(())
}

/// Each byte of the superblock and of the chunk items.
pub fn each_byte(rt: &impl Print, alloc: Global) -> anyhow::Result<()> {
    holds_for(rt, alloc, SUPER_BLOCK, 0, 4096)?;
    holds_for(rt, alloc, SYSTEM_BLOCK, 4000, 5480)
}
