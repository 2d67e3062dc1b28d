use super::{TreeFault, data, items, once};
use blk_base::format::{EXTENT_DATA, INODE_ITEM, INODE_REF, XATTR_ITEM};
use blk_base::{Addr, Block, ItemFault, Key, put_u8, put_u16, put_u32, put_u64};
use block_table::{BlockTable, SlotState, Tree};
use disk_memory::ListDisk;
use std::alloc::Global;
use std::test::Fail;
use tree_load::stand;
use tree_range::is_tree;

/// What the three checks answer for the worked tree with one byte changed: its items, its data blocks read, and its
/// extents' blocks named once. Where the items have a fault the others aren't called.
#[derive(Clone, Copy)]
struct Row {
    offset: usize,
    value: u8,
    items: Result<(), TreeFault>,
    data: Result<(), TreeFault>,
    once: Result<(), TreeFault>,
}

/// The tree's one leaf is block 30.
const LEAF: Addr = Addr(122_880);

/// The first byte of the first extent's first block.
const FIRST: Addr = Addr(81_920);

/// The header of item `place` (0 to 4) of inode 257, whose data begin at this byte of the block.
fn put_header(
    block: &mut Block,
    place: usize,
    kind: u8,
    offset: u64,
    data: u32,
    size: u32,
) -> Result<(), Fail> {
    if place > 4 || data < 101 {
        return Err(Fail::from("no place"));
    }
    let at = 101 + 25 * place;
    put_u64(block, at, 257);
    put_u8(block, at + 8, kind);
    put_u64(block, at + 9, offset);
    put_u32(block, at + 17, data - 101);
    put_u32(block, at + 21, size);
    Ok(())
}

/// A run of so many bytes at an address, as an extent at byte `at` of the block.
fn put_extent(block: &mut Block, at: usize, bytes: u64, address: u64) -> Result<(), Fail> {
    if at > 4000 {
        return Err(Fail::from("no place"));
    }
    put_u64(block, at + 8, bytes);
    put_u8(block, at + 20, 1);
    put_u64(block, at + 21, address);
    put_u64(block, at + 29, bytes);
    put_u64(block, at + 45, bytes);
    Ok(())
}

/// The body of a leaf: a file's inode item, its name `f`, its attributes `a` and `b`, two blocks from 81920 on and one at
/// 90112.
fn leaf() -> Result<Block, Fail> {
    let mut block = [0; 4096];
    put_u32(&mut block, 96, 5);
    put_header(&mut block, 0, INODE_ITEM, 0, 3936, 160)?;
    put_u32(&mut block, 3988, 33_188);
    put_header(&mut block, 1, INODE_REF, 256, 3925, 11)?;
    put_u64(&mut block, 3925, 2);
    put_u16(&mut block, 3933, 1);
    put_u8(&mut block, 3935, b'f');
    put_header(&mut block, 2, XATTR_ITEM, 5, 3863, 62)?;
    put_u16(&mut block, 3890, 1);
    put_u8(&mut block, 3892, 8);
    put_u8(&mut block, 3893, b'a');
    put_u16(&mut block, 3921, 1);
    put_u8(&mut block, 3923, 8);
    put_u8(&mut block, 3924, b'b');
    put_header(&mut block, 3, EXTENT_DATA, 0, 3810, 53)?;
    put_extent(&mut block, 3810, 8192, FIRST.0)?;
    put_header(&mut block, 4, EXTENT_DATA, 8192, 3757, 53)?;
    put_extent(&mut block, 3757, 4096, 90_112)?;
    Ok(block)
}

/// A table with the leaf, in which one byte is changed.
fn table_with(alloc: Global, offset: usize, value: u8) -> Result<BlockTable, Fail> {
    let mut block = leaf()?;
    if offset < 4096 {
        block[offset] = value;
    }
    let mut table = BlockTable::new(alloc, 4096)?;
    if !table.is_allowed(LEAF) || table.state(LEAF) != SlotState::Free {
        return Err(Fail::from("no place"));
    }
    stand(alloc, &mut table, LEAF, &block, false)?;
    Ok(table)
}

/// A row whose items have this fault under this key.
fn faulty(offset: usize, value: u8, kind: u8, place: u64, fault: ItemFault) -> Row {
    let key = Key {
        objectid: 257,
        kind,
        offset: place,
    };
    Row {
        offset,
        value,
        items: Err(TreeFault::Item(LEAF, key, fault)),
        data: Ok(()),
        once: Ok(()),
    }
}

/// A row whose data blocks have this fault, and so where each is to be named once.
fn shared(offset: usize, value: u8, fault: TreeFault, once: Result<(), TreeFault>) -> Row {
    Row {
        offset,
        value,
        items: Ok(()),
        data: Err(fault),
        once,
    }
}

#[test]
fn each_fault_is_named(rt: HostRuntime) -> Result<(), Fail> {
    let outside = TreeFault::Outside(Addr(81_921));
    let again = TreeFault::Twice(Addr(86_016));
    let tree = Tree {
        root: LEAF,
        level: 0,
        owner: 5,
    };
    for row in [
        Row {
            offset: 4096,
            value: 0,
            items: Ok(()),
            data: Ok(()),
            once: Ok(()),
        },
        faulty(122, 159, INODE_ITEM, 0, ItemFault::Size),
        faulty(3988, 0, INODE_ITEM, 0, ItemFault::Kind),
        faulty(3933, 9, INODE_REF, 256, ItemFault::Cut),
        faulty(3935, b'/', INODE_REF, 256, ItemFault::NameLen),
        faulty(3924, b'a', XATTR_ITEM, 5, ItemFault::Twice),
        faulty(3826, 1, EXTENT_DATA, 0, ItemFault::Compressed),
        faulty(3827, 1, EXTENT_DATA, 0, ItemFault::Encrypted),
        faulty(3830, 2, EXTENT_DATA, 0, ItemFault::Preallocated),
        faulty(3819, 16, EXTENT_DATA, 0, ItemFault::Align),
        faulty(211, 16, EXTENT_DATA, 4096, ItemFault::Overlap),
        shared(3831, 1, outside, Err(outside)),
        shared(3779, 0xe0, TreeFault::Twice(LEAF), Ok(())),
        shared(3779, 0x50, again, Err(again)),
    ] {
        let mut table = table_with(rt.alloc(), row.offset, row.value)?;
        if !is_tree(&table, &tree) {
            return Err(Fail::from("no tree"));
        }
        assert_eq!(rt; items(&table, &tree), row.items);
        if row.items.is_ok() {
            assert_eq!(rt; once(rt.alloc(), &table, &[tree]), row.once);
            let mut disk = ListDisk::<4096>::new(rt.alloc(), 0);
            if table.blocks() > 4096 {
                return Err(Fail::from("too many blocks"));
            }
            assert_eq!(rt; data(rt.alloc(), &mut disk, &mut table, &tree), row.data);
        }
    }
    Ok(())
}

#[test]
fn data_is_read_once(rt: HostRuntime) -> Result<(), Fail> {
    let tree = Tree {
        root: LEAF,
        level: 0,
        owner: 5,
    };
    for (fails, answer) in [(0, Ok(())), (2, Err(TreeFault::Disk))] {
        let mut table = table_with(rt.alloc(), 4096, 0)?;
        let mut disk = ListDisk::<4096>::new(rt.alloc(), fails);
        disk.put(21, &[7; 4096])?;
        if !is_tree(&table, &tree) || table.blocks() > 4096 {
            return Err(Fail::from("no tree"));
        }
        assert_eq!(rt;
            once(rt.alloc(), &table, &[tree, tree]),
            Err(TreeFault::Twice(FIRST))
        );
        assert_eq!(rt; data(rt.alloc(), &mut disk, &mut table, &tree), answer);
        if answer.is_ok() {
            assert_eq!(rt; disk.calls(), [20, 21, 22].as_slice());
            assert!(rt; table.state(Addr(86_016)) != SlotState::Free);
            assert_eq!(rt; table.block(Addr(86_016))[9], 7);
        }
    }
    Ok(())
}
