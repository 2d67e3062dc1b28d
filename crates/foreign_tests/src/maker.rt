//! A volume on a disk of 128 blocks: tree blocks of 16384 bytes, a system and a metadata chunk that stand twice, a data chunk
//! that stands once. It has `/a` with the bytes `hi`.
ghost use Rattle.std.specs.Prelude.{◌≡◌, ◌≤◌, ◌+◌, ◌*◌, length};

use blk_base::{Block, Key, OutOfMemory, crc32c, put_bytes, put_u8, put_u16, put_u32, put_u64};
use disk_memory::ListDisk;
use std::alloc::Global;

const FSID: [u8; 16] = [7; 16];

/// The logical addresses of the three chunks, each of 64 KiB, and of the tree of subvolume 5.
const SYSTEM: u64 = 1_048_576;

const METADATA: u64 = 2_097_152;

const DATA: u64 = 13_631_488;

const TREE: u64 = METADATA + 16_384;

/// The blocks of the disk where the first copies of the chunks begin, and where the tree blocks stand.
pub const SUPER_BLOCK: u32 = 16;

pub const SYSTEM_BLOCK: u32 = 32;

pub const METADATA_BLOCK: u32 = 48;

pub const TREE_BLOCK: u32 = 52;

const DATA_BLOCK: u32 = 64;

/// The blocks where the second copies begin.
const SYSTEM_COPY: u32 = 80;

const METADATA_COPY: u32 = 96;

/// A tree block.
type Node = [u8; 16384];

/// Where the data of item `i` of a leaf begin.
fn item_place(i: usize) -> usize
    requires { i ≤ 16 }
    ensures { result ≡ 4000 + 700 * i }
{
    4000 + 700 * i
}

/// Bytes that are changed, of the superblock or of the tree block that begins at a block of the disk.
#[derive(Clone, Copy)]
pub struct Change<'a> {
    pub block: u32,
    pub offset: usize,
    pub bytes: &'a [u8],
}

/// Writes the changes of what begins at this block.
fn write_changes(bytes: &mut [u8], block: u32, changes: &[Change]) {
    for change in changes {
        if change.block == block && change.offset < bytes.len() {
            for (place, byte) in bytes[change.offset..].iter_mut().zip(change.bytes) {
                *place = *byte;
            }
        }
    }
}

/// Puts an item into a leaf.
fn put_item(node: &mut Node, i: usize, key: &Key, data: &[u8]) {
    if i > 16 || data.len() > 700 {
        return;
    }
    let header = 101 + 25 * i;
    let place = item_place(i);
    put_u64(node, header, key.objectid);
    put_u8(node, header + 8, key.kind);
    put_u64(node, header + 9, key.offset);
    put_u32(node, header + 17, place as u32 - 101);
    put_u32(node, header + 21, data.len() as u32);
    put_bytes(node, place, data);
}

/// An empty leaf of generation 9 at a logical address, for so many items.
fn leaf_at(at: u64, count: u32) -> Node {
    let mut node = [0; 16384];
    put_bytes(&mut node, 32, &FSID);
    put_u64(&mut node, 48, at);
    put_u64(&mut node, 80, 9);
    put_u32(&mut node, 96, count);
    node
}

fn key(objectid: u64, kind: u8, offset: u64) -> Key {
    Key {
        objectid,
        kind,
        offset,
    }
}

/// Writes a chunk item of 64 KiB and its first stripe.
fn put_chunk(item: &mut [u8], kind: u64, stripes: u16, block: u32)
    requires { 80 ≤ length item.old }
{
    put_u64(item, 0, 65_536);
    put_u64(item, 8, 2);
    put_u64(item, 16, 65_536);
    put_u64(item, 24, kind);
    put_u32(item, 40, 4096);
    put_u16(item, 44, stripes);
    put_u64(item, 48, 1);
    put_u64(item, 56, u64::from(block) * 4096);
}

/// The item of a chunk that stands twice.
fn double_chunk(kind: u64, block: u32, copy: u32) -> [u8; 112] {
    let mut item = [0; 112];
    put_chunk(&mut item, kind, 2, block);
    put_u64(&mut item, 80, 1);
    put_u64(&mut item, 88, u64::from(copy) * 4096);
    item
}

/// The leaf of the chunk tree.
fn chunk_leaf() -> Node {
    let mut node = leaf_at(SYSTEM, 3);
    let system = double_chunk(34, SYSTEM_BLOCK, SYSTEM_COPY);
    let metadata = double_chunk(36, METADATA_BLOCK, METADATA_COPY);
    let mut data = [0; 80];
    put_chunk(&mut data, 1, 1, DATA_BLOCK);
    put_item(&mut node, 0, &key(256, 228, SYSTEM), &system);
    put_item(&mut node, 1, &key(256, 228, METADATA), &metadata);
    put_item(&mut node, 2, &key(256, 228, DATA), &data);
    node
}

/// The leaf of the root tree: the root item of subvolume 5.
fn root_leaf() -> Node {
    let mut item = [0; 439];
    put_u64(&mut item, 160, 9);
    put_u64(&mut item, 168, 256);
    put_u64(&mut item, 176, TREE);
    put_u32(&mut item, 216, 1);
    let mut node = leaf_at(METADATA, 1);
    put_item(&mut node, 0, &key(5, 132, 0), &item);
    node
}

/// An inode item.
fn inode_item(size: u64, mode: u32) -> [u8; 160] {
    let mut item = [0; 160];
    put_u64(&mut item, 0, 9);
    put_u64(&mut item, 16, size);
    put_u32(&mut item, 40, 1);
    put_u32(&mut item, 52, mode);
    item
}

/// The leaf of subvolume 5: directory 256 with the name `a`, and file 257 with its bytes in the item.
fn tree_leaf() -> Node {
    let mut entry = [0; 31];
    put_u64(&mut entry, 0, 257);
    put_u8(&mut entry, 8, 1);
    put_u16(&mut entry, 27, 1);
    put_u8(&mut entry, 29, 1);
    put_u8(&mut entry, 30, b'a');
    let mut extent = [0; 23];
    put_u64(&mut extent, 8, 2);
    put_bytes(&mut extent, 21, b"hi");
    let mut node = leaf_at(TREE, 4);
    put_item(&mut node, 0, &key(256, 1, 0), &inode_item(2, 0o40755));
    put_item(&mut node, 1, &key(256, 96, 2), &entry);
    put_item(&mut node, 2, &key(257, 1, 0), &inode_item(2, 0o100644));
    put_item(&mut node, 3, &key(257, 108, 0), &extent);
    node
}

/// The superblock.
fn super_block() -> Block {
    let mut block = [0; 4096];
    put_bytes(&mut block, 32, &FSID);
    put_u64(&mut block, 0x30, 65_536);
    put_bytes(&mut block, 0x40, b"_BHRfS_M");
    put_u64(&mut block, 0x48, 9);
    put_u64(&mut block, 0x50, METADATA);
    put_u64(&mut block, 0x58, SYSTEM);
    put_u64(&mut block, 0x70, 128 * 4096);
    put_u64(&mut block, 0x88, 1);
    put_u32(&mut block, 0x90, 4096);
    put_u32(&mut block, 0x94, 16_384);
    put_u32(&mut block, 0xa0, 129);
    put_u64(&mut block, 0x32b, 256);
    put_u8(&mut block, 0x333, 228);
    put_u64(&mut block, 0x334, SYSTEM);
    let system = double_chunk(34, SYSTEM_BLOCK, SYSTEM_COPY);
    put_bytes(&mut block, 0x33c, &system);
    block
}

/// Puts a tree block on the disk from this block on, with its changes, and its sum made right.
fn put_node(
    disk: &mut ListDisk<128>,
    at: u32,
    leaf: Node,
    changes: &[Change],
) -> Result<(), OutOfMemory> {
    let mut node = leaf;
    write_changes(&mut node, at, changes);
    let sum = crc32c(&node[32..]);
    put_u32(&mut node, 0, sum);
    let mut block = at;
    for part in node.chunks_exact(4096) {
        if let Some(bytes) = part.first_chunk::<4096>() {
            disk.put(block, bytes)?;
        }
        block = block.saturating_add(1);
    }
    Ok(())
}

/// The disk with the volume and these changes.
pub fn made(alloc: Global, changes: &[Change]) -> Result<ListDisk<128>, OutOfMemory> {
    let mut disk = ListDisk::new(alloc, 0);
    let mut block = super_block();
    write_changes(&mut block, SUPER_BLOCK, changes);
    let sum = crc32c(&block[32..]);
    put_u32(&mut block, 0, sum);
    disk.put(SUPER_BLOCK, &block)?;
    put_node(&mut disk, SYSTEM_BLOCK, chunk_leaf(), changes)?;
    put_node(&mut disk, METADATA_BLOCK, root_leaf(), changes)?;
    put_node(&mut disk, TREE_BLOCK, tree_leaf(), changes)?;
    Ok(disk)
}
