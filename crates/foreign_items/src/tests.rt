ghost use Rattle.std.specs.Prelude.{◌≡◌};

use super::{SubvolumeItems, read_items};
use blk_base::{Block, ItemFault, Key, crc32c, put_bytes, put_u8, put_u16, put_u32, put_u64};
use disk_memory::ListDisk;
use foreign_format::{Chunk, Coding, EntryKind, Extent, Inode, Root, Source};
use foreign_tree::Volume;
use foreign_volume::Subvolume;
use std::alloc::Global;
use std::process::Abort;
use std::test::Fail;

const FSID: [u8; 16] = [7; 16];

/// The logical address of the one leaf, which is block 5 of the disk.
const LEAF: u64 = 1_048_576;

/// A key by its numbers.
fn key(objectid: u64, kind: u8, offset: u64) -> Key {
    Key {
        objectid,
        kind,
        offset,
    }
}

/// Puts an item into the leaf, with its data 500 bytes behind those of the one before it.
fn put_item(node: &mut Block, i: usize, key: &Key, data: &[u8]) -> Result<(), Fail> {
    if i >= 6 || data.len() > 500 {
        return Err(Fail::from("no room"));
    }
    let header = 101 + 25 * i;
    let place = 1000 + 500 * i;
    put_u64(node, header, key.objectid);
    put_u8(node, header + 8, key.kind);
    put_u64(node, header + 9, key.offset);
    put_u32(node, header + 17, place as u32 - 101);
    put_u32(node, header + 21, data.len() as u32);
    put_bytes(node, place, data);
    Ok(())
}

/// An inode item.
fn inode_item(links: u32, size: u64) -> [u8; 160] {
    let mut item = [0; 160];
    put_u64(&mut item, 16, size);
    put_u32(&mut item, 40, links);
    item
}

/// The entry of the name `a`, which leads to inode 257, in a directory.
fn entry_item(kind: u8) -> [u8; 31] {
    let mut item = [0; 31];
    put_u64(&mut item, 0, 257);
    put_u8(&mut item, 8, 1);
    put_u16(&mut item, 27, 1);
    put_u8(&mut item, 29, kind);
    put_u8(&mut item, 30, b'a');
    item
}

/// The leaf: directory 256 with the file `a`, whose bytes `hi` stand in its item, and an entry of an unknown type.
fn leaf() -> Result<Block, Fail> {
    let mut node = [0; 4096];
    put_bytes(&mut node, 32, &FSID);
    put_u64(&mut node, 48, LEAF);
    put_u64(&mut node, 80, 9);
    put_u32(&mut node, 96, 6);
    let mut inline = [0; 23];
    put_bytes(&mut inline, 21, b"hi");
    put_item(&mut node, 0, &key(256, 1, 0), &inode_item(1, 2))?;
    put_item(&mut node, 1, &key(256, 84, 99), &entry_item(1))?;
    put_item(&mut node, 2, &key(256, 96, 2), &entry_item(1))?;
    put_item(&mut node, 3, &key(256, 96, 3), &entry_item(8))?;
    put_item(&mut node, 4, &key(257, 1, 0), &[0; 159])?;
    put_item(&mut node, 5, &key(257, 108, 0), &inline)?;
    let sum = crc32c(&node[32..]);
    put_u32(&mut node, 0, sum);
    Ok(node)
}

/// The items of a subvolume of the one leaf.
fn items_of_leaf(alloc: Global) -> Result<SubvolumeItems, Fail> {
    let mut disk = ListDisk::<16>::new(alloc, 0);
    disk.put(5, &leaf()?)?;
    let mut chunks = Vec::new(alloc);
    chunks.push(Chunk {
        logical: LEAF,
        length: 4096,
        physical: 20_480,
    })?;
    let volume = Volume {
        fsid: FSID,
        node_size: 4096,
        chunks,
    };
    let root = Root {
        offset: 0,
        at: LEAF,
        generation: 9,
        level: 0,
        refs: 1,
    };
    let Ok(items) = read_items(alloc, &mut disk, &volume, &Subvolume { id: 5, root }) else {
        return Err(Fail::from("refused"));
    };
    Ok(items)
}

/// Each item of the three types is a row, with its own fault where it has one; other items are passed over.
#[test]
fn rows_of_a_leaf(rt: HostRuntime) -> Result<(), Fail> {
    let items = items_of_leaf(rt.alloc())?;
    assert_eq!(rt; items.inodes.len(), 2);
    assert!(rt; items.inodes[0].inode == Ok(Inode { links: 1, size: 2 }));
    assert!(rt; items.inodes[1].key == key(257, 1, 0));
    assert!(rt; items.inodes[1].inode == Err(ItemFault::Size));
    assert_eq!(rt; items.names.len(), 2);
    let Ok(name) = &items.names[0].name else {
        return Err(Fail::from("no name"));
    };
    assert_eq!(rt; name.to, 257);
    assert!(rt; name.kind == EntryKind::File);
    assert!(rt; name.bytes.as_slice() == b"a".as_slice());
    assert!(rt; matches!(items.names[1].name, Err(ItemFault::Kind)));
    assert_eq!(rt; items.extents.len(), 1);
    let inline = Extent {
        offset: 0,
        coding: Coding::Plain,
        source: Source::Inline {
            at: 20_480 + 3500 + 21,
            length: 2,
        },
    };
    assert!(rt; items.extents[0].extent == Ok(inline));
    Ok(())
}
