use super::{
    Ref, has_inode_item, has_own_ref, has_right_key, is_ino_number, is_right_ref, kind_at,
};
use blk_base::format::{DIR_INDEX, DIR_ITEM, EXTENT_DATA, INODE_ITEM, INODE_REF};
use blk_base::{Addr, Block, Ino, Key, put_bytes, put_u8, put_u16, put_u32, put_u64};
use block_table::{BlockTable, SlotState, Tree};
use flat_model::Kind;
use std::alloc::Global;
use std::test::Fail;
use tree_range::is_tree;

/// The tree's one leaf is block 30.
const LEAF: Addr = Addr(122_880);

/// The header of item `place` (0 to 4), whose data begin at this byte of the block.
fn put_header(
    block: &mut Block,
    place: usize,
    key: &Key,
    data: u32,
    size: u32,
) -> Result<(), Fail> {
    if place > 4 || data < 101 {
        return Err(Fail::from("no place"));
    }
    let at = 101 + 25 * place;
    put_u64(block, at, key.objectid);
    put_u8(block, at + 8, key.kind);
    put_u64(block, at + 9, key.offset);
    put_u32(block, at + 17, data - 101);
    put_u32(block, at + 21, size);
    Ok(())
}

fn key_of(objectid: u64, kind: u8, offset: u64) -> Key {
    Key {
        objectid,
        kind,
        offset,
    }
}

/// The entry of the file 257 under the name `f`, at byte `at` of the block.
fn put_entry(block: &mut Block, at: usize) -> Result<(), Fail> {
    if at > 4000 {
        return Err(Fail::from("no place"));
    }
    put_u64(block, at, 257);
    put_u8(block, at + 8, INODE_ITEM);
    put_u16(block, at + 27, 1);
    put_u8(block, at + 29, 1);
    put_u8(block, at + 30, b'f');
    Ok(())
}

/// The root directory with its name for itself, and the file 257 under the name `f` at index 2, whose hash is 411982631.
fn leaf() -> Result<Block, Fail> {
    let mut block = [0; 4096];
    put_u32(&mut block, 96, 5);
    put_header(&mut block, 0, &key_of(256, INODE_ITEM, 0), 3936, 160)?;
    put_u32(&mut block, 3988, 16_877);
    put_header(&mut block, 1, &key_of(256, INODE_REF, 256), 3924, 12)?;
    put_u16(&mut block, 3932, 2);
    put_bytes(&mut block, 3934, b"..");
    put_header(&mut block, 2, &key_of(256, DIR_ITEM, 411_982_631), 3893, 31)?;
    put_entry(&mut block, 3893)?;
    put_header(&mut block, 3, &key_of(256, DIR_INDEX, 2), 3862, 31)?;
    put_entry(&mut block, 3862)?;
    put_header(&mut block, 4, &key_of(257, INODE_ITEM, 0), 3702, 160)?;
    put_u32(&mut block, 3754, 33_188);
    Ok(block)
}

/// A table with the leaf.
fn table_of(alloc: Global) -> Result<BlockTable, Fail> {
    let block = leaf()?;
    let mut table = BlockTable::new(alloc, 4096)?;
    table.reserve(alloc, 1)?;
    if !table.is_allowed(LEAF) || table.state(LEAF) != SlotState::Free || table.spare() == 0 {
        return Err(Fail::from("no place"));
    }
    table.stand(LEAF, &block, false);
    Ok(table)
}

#[test]
fn lines_are_told(rt: HostRuntime) -> Result<(), Fail> {
    let tree = Tree {
        root: LEAF,
        level: 0,
        owner: 5,
    };
    let table = table_of(rt.alloc())?;
    if !is_tree(&table, &tree) {
        return Err(Fail::from("no tree"));
    }
    for (ino, kind) in [(256, Some(Kind::Dir)), (257, Some(Kind::File)), (258, None)] {
        assert!(rt; kind_at(&table, &tree, Ino(ino)) == kind);
        assert!(rt; has_inode_item(&table, &tree, Ino(ino)) == kind.is_some());
    }
    assert!(rt; has_own_ref(&table, &tree));
    for (ino, answer) in [
        (255, false),
        (256, true),
        ((1 << 62) + 1, true),
        ((1 << 62) + 2, false),
    ] {
        assert_eq!(rt; is_ino_number(Ino(ino)), answer);
    }
    let block = leaf()?;
    let entry = &block[3893..3924];
    let mut run = [0; 53];
    put_u64(&mut run, 8, 4096);
    put_u8(&mut run, 20, 1);
    put_u64(&mut run, 21, 81_920);
    put_u64(&mut run, 29, 4096);
    put_u64(&mut run, 45, 4096);
    let rows: [(Key, &[u8], bool); 4] = [
        (key_of(256, DIR_INDEX, 2), entry, true),
        (key_of(257, DIR_INDEX, 2), entry, false),
        (key_of(257, EXTENT_DATA, 0), &run, true),
        (key_of(256, EXTENT_DATA, 0), &run, false),
    ];
    for (key, bytes, answer) in rows {
        assert_eq!(rt; has_right_key(&table, &tree, &key, bytes), answer);
    }
    let right = Ref {
        ino: Ino(257),
        dir: Ino(256),
        index: 2,
        name: b"f",
    };
    for (found, answer) in [
        (right, true),
        (Ref { index: 3, ..right }, false),
        (
            Ref {
                name: b"g",
                ..right
            },
            false,
        ),
        (
            Ref {
                dir: Ino(257),
                ..right
            },
            false,
        ),
    ] {
        assert_eq!(rt; is_right_ref(&table, &tree, found), answer);
    }
    Ok(())
}
