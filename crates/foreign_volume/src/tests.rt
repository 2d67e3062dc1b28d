ghost use Rattle.std.specs.Prelude.{◌≡◌, ◌≤◌, length};

use super::{open, subvolumes};
use blk_base::{Block, ItemFault, Key, crc32c, put_bytes, put_u8, put_u16, put_u32, put_u64};
use disk_memory::ListDisk;
use foreign_format::{ForeignFault, ReadFault};
use std::alloc::Global;
use std::process::Abort;
use std::test::Fail;

const FSID: [u8; 16] = [7; 16];

/// A tree block of four blocks of the disk.
type Node = [u8; 16384];

/// The logical addresses of the three chunks, each of 64 KiB: system, metadata and data.
const SYSTEM: u64 = 1_048_576;

const METADATA: u64 = 2_097_152;

const DATA: u64 = 13_631_488;

/// The blocks of the disk where the first copies of the chunks begin.
const SYSTEM_BLOCK: u32 = 32;

const METADATA_BLOCK: u32 = 48;

const DATA_BLOCK: u32 = 64;

/// Puts an item into a leaf.
fn put_item(node: &mut Node, i: usize, key: &Key, data: &[u8]) -> Result<(), Fail> {
    if i >= 12 || data.len() > 1000 {
        return Err(Fail::from("no room"));
    }
    let header = 101 + 25 * i;
    let place = 4000 + 1000 * i;
    put_u64(node, header, key.objectid);
    put_u8(node, header + 8, key.kind);
    put_u64(node, header + 9, key.offset);
    put_u32(node, header + 17, place as u32 - 101);
    put_u32(node, header + 21, data.len() as u32);
    put_bytes(node, place, data);
    Ok(())
}

/// An empty leaf of generation 9 at a logical address, for so many items.
fn leaf_at(at: u64, count: u32) -> Node {
    let mut node = [0; 16384];
    put_bytes(&mut node, 32, &FSID);
    put_u64(&mut node, 48, at);
    put_u64(&mut node, 80, 9);
    put_u32(&mut node, 96, count);
    node
}

/// Writes a chunk item of 64 KiB whose first copy begins at a block of the disk.
fn put_chunk(item: &mut [u8], kind: u64, stripes: u16, block: u32)
    requires { 80 ≤ length item.old }
{
    put_u64(item, 0, 65_536);
    put_u64(item, 24, kind);
    put_u16(item, 44, stripes);
    put_u64(item, 56, block as u64 * 4096);
}

/// The item of a chunk that stands twice.
fn chunk_item(kind: u64, block: u32) -> [u8; 112] {
    let mut item = [0; 112];
    put_chunk(&mut item, kind, 2, block);
    item
}

/// The key of a chunk item.
fn chunk_key(logical: u64) -> Key {
    Key {
        objectid: 256,
        kind: 228,
        offset: logical,
    }
}

/// The leaf of the chunk tree.
fn chunk_leaf() -> Result<Node, Fail> {
    let mut node = leaf_at(SYSTEM, 3);
    put_item(
        &mut node,
        0,
        &chunk_key(SYSTEM),
        &chunk_item(34, SYSTEM_BLOCK),
    )?;
    put_item(
        &mut node,
        1,
        &chunk_key(METADATA),
        &chunk_item(36, METADATA_BLOCK),
    )?;
    let mut data = [0; 80];
    put_chunk(&mut data, 1, 1, DATA_BLOCK);
    put_item(&mut node, 2, &chunk_key(DATA), &data)?;
    Ok(node)
}

/// A root item of 439 bytes whose tree's root is at this address.
fn root_item(at: u64, refs: u32) -> [u8; 439] {
    let mut item = [0; 439];
    put_u64(&mut item, 160, 9);
    put_u64(&mut item, 176, at);
    put_u32(&mut item, 216, refs);
    item
}

/// The key of a root item.
fn root_key(id: u64, offset: u64) -> Key {
    Key {
        objectid: id,
        kind: 132,
        offset,
    }
}

/// The leaf of the root tree: of 256 there are two, of which the later counts, and nothing refers to 257.
fn root_leaf() -> Result<Node, Fail> {
    let mut node = leaf_at(METADATA, 5);
    put_item(&mut node, 0, &root_key(4, 0), &[0; 2])?;
    put_item(
        &mut node,
        1,
        &root_key(5, 0),
        &root_item(METADATA + 16_384, 1),
    )?;
    put_item(&mut node, 2, &root_key(256, 7), &root_item(1, 1))?;
    put_item(&mut node, 3, &root_key(256, 8), &root_item(2, 1))?;
    put_item(&mut node, 4, &root_key(257, 0), &root_item(3, 0))?;
    Ok(node)
}

/// The superblock's block.
fn super_block() -> Block {
    let mut block = [0; 4096];
    put_bytes(&mut block, 32, &FSID);
    put_u64(&mut block, 0x30, 65_536);
    put_bytes(&mut block, 0x40, b"_BHRfS_M");
    put_u64(&mut block, 0x48, 9);
    put_u64(&mut block, 0x50, METADATA);
    put_u64(&mut block, 0x58, SYSTEM);
    put_u64(&mut block, 0x88, 1);
    put_u32(&mut block, 0x90, 4096);
    put_u32(&mut block, 0x94, 16_384);
    put_u32(&mut block, 0xa0, 129);
    put_u64(&mut block, 0x32b, 256);
    put_u8(&mut block, 0x333, 228);
    put_u64(&mut block, 0x334, SYSTEM);
    put_bytes(&mut block, 0x33c, &chunk_item(34, SYSTEM_BLOCK));
    block
}

/// What is changed in the image: a byte of the superblock, of the chunk tree's leaf or of the root tree's, after which the
/// sum is right; and the fault.
#[derive(Clone, Copy)]
struct Change {
    block: u32,
    offset: usize,
    value: u8,
    fault: ForeignFault,
}

/// Puts a tree block on the disk from this block on, with the change where it is that block's.
fn put_node(
    disk: &mut ListDisk<128>,
    at: u32,
    node: &mut Node,
    change: &Change,
) -> Result<(), Fail> {
    if at > 100 {
        return Err(Fail::from("no place"));
    }
    if change.block == at && change.offset < 16_384 {
        node[change.offset] = change.value;
    }
    let sum = crc32c(&node[32..]);
    put_u32(node, 0, sum);
    for (number, part) in node.chunks_exact(4096).enumerate() {
        let mut block = [0; 4096];
        if number < 4 && part.len() == 4096 {
            block.copy_from_slice(part);
            disk.put(at + number as u32, &block)?;
        }
    }
    Ok(())
}

/// The numbers and roots of the subvolumes of the image with a change.
fn read_changed(
    alloc: Global,
    change: &Change,
) -> Result<Result<Vec<(u64, u64)>, ReadFault>, Fail> {
    let mut disk = ListDisk::new(alloc, 0);
    let mut block = super_block();
    if change.block == 16 && change.offset < 4096 {
        block[change.offset] = change.value;
    }
    let sum = crc32c(&block[32..]);
    put_u32(&mut block, 0, sum);
    disk.put(16, &block)?;
    put_node(&mut disk, SYSTEM_BLOCK, &mut chunk_leaf()?, change)?;
    put_node(&mut disk, METADATA_BLOCK, &mut root_leaf()?, change)?;
    let opened = match open(alloc, &mut disk) {
        Ok(opened) => opened,
        Err(fault) => return Ok(Err(fault)),
    };
    let subs = match subvolumes(alloc, &mut disk, &opened.volume, &opened.superblock) {
        Ok(subs) => subs,
        Err(fault) => return Ok(Err(fault)),
    };
    let mut roots = Vec::new(alloc);
    for sub in &subs {
        roots.push((sub.id, sub.root.at))?;
    }
    Ok(Ok(roots))
}

/// The subvolumes of an image that a maker wrote after the definition.
#[test]
fn made_image(rt: HostRuntime) -> Result<(), Fail> {
    let none = Change {
        block: 0,
        offset: 0,
        value: 0,
        fault: ForeignFault::Magic,
    };
    let Ok(roots) = read_changed(rt.alloc(), &none)? else {
        return Err(Fail::from("refused"));
    };
    assert!(rt; roots.as_slice() == [(5, METADATA + 16_384), (256, 2)].as_slice());
    Ok(())
}

/// The image with a byte changed: each fault by its name.
#[test]
fn changed_images(rt: HostRuntime) -> Result<(), Fail> {
    for (block, offset, value, fault) in [
        (16, 0x40, 0, ForeignFault::Magic),
        (16, 0xc4, 1, ForeignFault::Kind(1)),
        (16, 0x95, 0x41, ForeignFault::Size),
        (16, 0x63, 1, ForeignFault::HasLog(16_777_216)),
        (16, 0x88, 2, ForeignFault::Devices(2)),
        (16, 0x333, 229, ForeignFault::Array),
        (16, 0x33e, 0, ForeignFault::Chunk(SYSTEM)),
        (16, 0xc7, 8, ForeignFault::Level(SYSTEM)),
        (16, 0x5a, 0x11, ForeignFault::Unmapped(1_114_112)),
        // Of the data chunk the type has bit 16, which is RAID1.
        (32, 6024, 17, ForeignFault::Profile(DATA)),
        // The metadata chunk's item lacks the second copy.
        (32, 147, 80, ForeignFault::Chunk(METADATA)),
        // The system chunk passes the end of the disk.
        (32, 4002, 0x11, ForeignFault::Chunk(SYSTEM)),
        (16, 0xc6, 8, ForeignFault::Level(METADATA)),
        (
            48,
            148,
            0,
            ForeignFault::Item(METADATA, root_key(5, 0), ItemFault::Size),
        ),
    ] {
        let change = Change {
            block,
            offset,
            value,
            fault,
        };
        let answer = read_changed(rt.alloc(), &change)?;
        let Err(ReadFault::Foreign(found)) = answer else {
            return Err(Fail::from("accepted"));
        };
        assert_eq!(rt; found, change.fault);
    }
    Ok(())
}
