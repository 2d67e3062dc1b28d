use blk_base::{
    Addr, Block, BlockFault, Ino, ItemFault, Key, SubId, SuperFault, crc32c, name_hash, put_bytes,
    put_u16, put_u32, put_u64,
};
use disk_memory::ListDisk;
use item_inode::InodeItem;
use std::alloc::Global;
use std::test::Fail;
use tree_mount::{MountFault, mount};
use volume_format::{RootItem, Super};
use volume_image::LoadFault;

/// Puts the header of an item into a block, and its data before those of the items before it; answers where they begin,
/// counted from the end of the block's header.
fn put_item(
    block: &mut Block,
    place: usize,
    key: (u64, u8, u64),
    bytes: &[u8],
    end: usize,
) -> Result<usize, Fail> {
    if place >= 20 || end > 3995 || bytes.len() > end {
        return Err(Fail::from("no place"));
    }
    let at = 101 + 25 * place;
    let from = end - bytes.len();
    put_u64(block, at, key.0);
    block[at + 8] = key.1;
    put_u64(block, at + 9, key.2);
    put_u32(block, at + 17, from as u32);
    put_u32(block, at + 21, bytes.len() as u32);
    put_bytes(block, 101 + from, bytes);
    Ok(from)
}

/// The 160 bytes of an inode item.
fn inode(size: u64, nbytes: u64, mode: u32) -> [u8; 160] {
    let mut bytes = [0; 160];
    let item = InodeItem {
        generation: 7,
        transid: 7,
        size,
        nbytes,
        nlink: 1,
        mode,
    };
    item.encode(&mut bytes);
    bytes
}

/// The 31 bytes of the entry of the file 257, which is named `a`.
fn entry() -> [u8; 31] {
    let mut bytes = [0; 31];
    put_u64(&mut bytes, 0, 257);
    bytes[8] = 1;
    put_u64(&mut bytes, 17, 7);
    put_u16(&mut bytes, 27, 1);
    bytes[29] = 1;
    bytes[30] = b'a';
    bytes
}

/// The 53 bytes of an extent of one block at byte address 81920.
fn extent() -> [u8; 53] {
    let mut bytes = [0; 53];
    put_u64(&mut bytes, 0, 7);
    put_u64(&mut bytes, 8, 4096);
    bytes[20] = 1;
    put_u64(&mut bytes, 21, 81920);
    put_u64(&mut bytes, 29, 4096);
    put_u64(&mut bytes, 45, 4096);
    bytes
}

/// Puts the items of the root directory, which has the name `a`.
fn put_directory(block: &mut Block) -> Result<usize, Fail> {
    let hash = u64::from(name_hash(b"a"));
    let dots = [0, 0, 0, 0, 0, 0, 0, 0, 2, 0, b'.', b'.'];
    let end = put_item(block, 0, (256, 1, 0), &inode(2, 0, 16877), 3995)?;
    let end = put_item(block, 1, (256, 12, 256), &dots, end)?;
    let end = put_item(block, 2, (256, 84, hash), &entry(), end)?;
    put_item(block, 3, (256, 96, 2), &entry(), end)
}

/// Puts the items of a leaf of the file `a`, of 5 bytes and one block.
fn put_sub(block: &mut Block) -> Result<(), Fail> {
    let name = [2, 0, 0, 0, 0, 0, 0, 0, 1, 0, b'a'];
    let end = put_directory(block)?;
    let end = put_item(block, 4, (257, 1, 0), &inode(5, 4096, 33188), end)?;
    let end = put_item(block, 5, (257, 12, 256), &name, end)?;
    put_item(block, 6, (257, 108, 0), &extent(), end)?;
    seal(block, 73728, 5, 7);
    Ok(())
}

/// Puts the root item of subvolume 5, whose leaf is at byte address 73728.
fn put_root(block: &mut Block) -> Result<(), Fail> {
    let mut bytes = [0; 439];
    let item = RootItem {
        generation: 7,
        at: Addr(73728),
        level: 0,
    };
    item.encode(&mut bytes);
    put_item(block, 0, (5, 132, 0), &bytes, 3995)?;
    seal(block, 69632, 1, 1);
    Ok(())
}

/// Puts the header of a leaf with so many items.
fn seal(block: &mut Block, at: u64, owner: u64, count: u32) {
    put_u64(block, 48, at);
    put_u64(block, 80, 7);
    put_u64(block, 88, owner);
    put_u32(block, 96, count);
    let sum = crc32c(&block[32..]);
    put_u32(block, 0, sum);
}

/// Puts the superblock, with a log at this byte address.
fn put_super(block: &mut Block, log_root: Addr) {
    let superblock = Super {
        fsid: [0; 16],
        generation: 7,
        root: Addr(69632),
        root_level: 0,
        log_root,
        log_root_level: 0,
        blocks: 4096,
        used: 3,
    };
    superblock.encode(block);
}

/// What is wrong with a volume or its disk.
#[derive(Clone, Copy)]
enum Wrong {
    Nothing,
    Log,
    Root,
    NoRoots,
    Sub,
    Super,
    Disk,
}

/// A disk with a volume of the file `a`, and this wrong with it.
fn disk(alloc: Global, wrong: Wrong) -> Result<ListDisk<4096>, Fail> {
    let fails = if matches!(wrong, Wrong::Disk) { 1 } else { 0 };
    let mut disk = ListDisk::<4096>::new(alloc, fails);
    let mut block = [0; 4096];
    match wrong {
        Wrong::Super => {}
        Wrong::Log => put_super(&mut block, Addr(77824)),
        _ => put_super(&mut block, Addr(0)),
    }
    disk.put(16, &block)?;
    block = [0; 4096];
    put_root(&mut block)?;
    if matches!(wrong, Wrong::Root) {
        put_u64(&mut block, 101, 6);
        seal(&mut block, 69632, 1, 1);
    }
    if matches!(wrong, Wrong::NoRoots) {
        seal(&mut block, 69632, 1, 0);
    }
    disk.put(17, &block)?;
    block = [0; 4096];
    put_sub(&mut block)?;
    if matches!(wrong, Wrong::Sub) {
        block[4000] = 9;
    }
    disk.put(18, &block)?;
    Ok(disk)
}

#[test]
fn mounts_a_file_of_one_block(rt: HostRuntime) -> Result<(), Fail> {
    let mut disk = disk(rt.alloc(), Wrong::Nothing)?;
    match mount(rt.alloc(), &mut disk) {
        Ok(mounted) => {
            assert_eq!(rt; mounted.states.len(), 1);
            assert_eq!(rt; mounted.root.root, Addr(69632));
            assert_eq!(rt; mounted.superblock.generation, 7);
        }
        Err(_) => assert!(rt; false),
    }
    Ok(())
}

#[test]
fn names_what_is_wrong(rt: HostRuntime) -> Result<(), Fail> {
    let other = Key {
        objectid: 6,
        kind: 132,
        offset: 0,
    };
    let broken = LoadFault::Block(Addr(73728), BlockFault::Checksum);
    let rows = [
        (Wrong::Log, MountFault::Log),
        (
            Wrong::Root,
            MountFault::Item(Addr(69632), other, ItemFault::Kind),
        ),
        (Wrong::NoRoots, MountFault::Incoherent(SubId(5), Ino(256))),
        (Wrong::Sub, MountFault::Load(broken)),
        (Wrong::Super, MountFault::Super(SuperFault::Magic)),
        (Wrong::Disk, MountFault::Disk),
    ];
    for (wrong, fault) in rows {
        let mut disk = disk(rt.alloc(), wrong)?;
        assert_eq!(rt; mount(rt.alloc(), &mut disk).err(), Some(fault));
    }
    Ok(())
}

/// The id of a subvolume by its place among root items, from 0.
fn id_at(place: u64) -> u64 {
    match place {
        0 => 5,
        _ => place.saturating_add(255),
    }
}

/// Puts a leaf of root items, those of so many subvolumes from a place on, at this byte address.
fn put_roots(block: &mut Block, first: u64, count: u32, at: u64) -> Result<(), Fail> {
    let mut end = 3995;
    for place in 0..count {
        let id = id_at(first.saturating_add(u64::from(place)));
        end = put_item(block, place as usize, (id, 132, 0), &[0; 439], end)?;
    }
    seal(block, at, 1, count);
    Ok(())
}

/// Puts a pointer to a block of root items, which begins with this subvolume's, into a node.
fn put_pointer(block: &mut Block, place: usize, id: u64, at: u64) -> Result<(), Fail> {
    if place >= 3 {
        return Err(Fail::from("no place"));
    }
    let from = 101 + 33 * place;
    put_u64(block, from, id);
    block[from + 8] = 132;
    put_u64(block, from + 17, at);
    put_u64(block, from + 25, 7);
    Ok(())
}

/// A disk whose root tree has the items of 17 subvolumes, in three leaves.
fn disk_of_17(alloc: Global) -> Result<ListDisk<4096>, Fail> {
    let mut disk = ListDisk::<4096>::new(alloc, 0);
    let mut block = [0; 4096];
    put_super(&mut block, Addr(0));
    block[0xc6] = 1;
    let sum = crc32c(&block[32..]);
    put_u32(&mut block, 0, sum);
    disk.put(16, &block)?;
    let mut node = [0; 4096];
    for (place, first, count, at) in [(0, 0, 8, 94208), (1, 8, 8, 98304), (2, 16, 1, 102400)] {
        let mut leaf = [0; 4096];
        put_roots(&mut leaf, first, count, at)?;
        disk.put(23 + place, &leaf)?;
        put_pointer(&mut node, place as usize, id_at(first), at)?;
    }
    node[100] = 1;
    seal(&mut node, 69632, 1, 3);
    disk.put(17, &node)?;
    Ok(disk)
}

#[test]
fn a_17th_subvolume_is_none(rt: HostRuntime) -> Result<(), Fail> {
    let mut disk = disk_of_17(rt.alloc())?;
    let key = Key {
        objectid: 271,
        kind: 132,
        offset: 0,
    };
    let fault = MountFault::Item(Addr(102400), key, ItemFault::Kind);
    assert_eq!(rt; mount(rt.alloc(), &mut disk).err(), Some(fault));
    Ok(())
}
