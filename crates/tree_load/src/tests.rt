ghost use Rattle.std.specs.Prelude.{◌≡◌};

use super::{LoadFault, load};
use blk_base::{Addr, Block, BlockFault, Want, crc32c, put_bytes, put_u8, put_u32, put_u64};
use block_table::{BlockTable, Tree};
use disk_memory::NeverFails;
use disk_model::Disk;
use std::alloc::Global;
use std::process::Abort;
use std::test::Fail;

const FSID: [u8; 16] = [7; 16];

/// What a byte of a block of the tree is changed to, whether the block's sum is made right then, and what the load answers.
#[derive(Clone, Copy)]
struct Change {
    block: u32,
    offset: usize,
    value: u8,
    is_summed: bool,
    answer: Option<LoadFault>,
}

/// The byte address of a block.
fn address(number: u32) -> Addr {
    Addr(number as u64 * 4096)
}

/// A block with the header that a tree of owner 5 and generation 9 asks for, and so many items or pointers.
fn headed(number: u32, level: u8, count: u32) -> Block {
    let mut block = [0; 4096];
    put_bytes(&mut block, 32, &FSID);
    put_u64(&mut block, 48, address(number).0);
    put_u64(&mut block, 80, 9);
    put_u64(&mut block, 88, 5);
    put_u32(&mut block, 96, count);
    put_u8(&mut block, 100, level);
    block
}

/// The key (`objectid`, 1, 0) at a place.
fn put_key(block: &mut Block, at: usize, objectid: u64) -> Result<(), Fail> {
    if at > 4000 {
        return Err(Fail::from("no place"));
    }
    put_u64(block, at, objectid);
    put_u8(block, at + 8, 1);
    Ok(())
}

/// A leaf with one item without data.
fn leaf(number: u32, objectid: u64) -> Result<Block, Fail> {
    let mut block = headed(number, 0, 1);
    put_key(&mut block, 101, objectid)?;
    put_u32(&mut block, 118, 3995);
    Ok(block)
}

/// Block 20: a node over the leaves 21 and 22.
fn node() -> Result<Block, Fail> {
    let mut block = headed(20, 1, 2);
    put_key(&mut block, 101, 256)?;
    put_u64(&mut block, 118, address(21).0);
    put_u64(&mut block, 126, 9);
    put_key(&mut block, 134, 257)?;
    put_u64(&mut block, 151, address(22).0);
    put_u64(&mut block, 159, 9);
    Ok(block)
}

/// The tree's block with this number.
fn block_of(number: u32) -> Result<Block, Fail> {
    match number {
        20 => node(),
        21 => leaf(21, 256),
        _ => leaf(22, 257),
    }
}

/// Writes a block, with the change where it is that block's.
fn put_block(disk: &mut NeverFails, number: u32, change: &Change) -> Result<(), Fail> {
    let mut block = block_of(number)?;
    let sum = crc32c(&block[32..]);
    put_u32(&mut block, 0, sum);
    if change.block == number && change.offset < 4096 {
        block[change.offset] = change.value;
        if change.is_summed {
            let sum = crc32c(&block[32..]);
            put_u32(&mut block, 0, sum);
        }
    }
    if number >= disk.blocks() || number == 16 || disk.write(number, &block).is_err() {
        return Err(Fail::from("disk"));
    }
    Ok(())
}

/// Loads the tree with a change.
fn load_changed(alloc: Global, change: &Change) -> Result<Result<Tree, LoadFault>, Fail> {
    let Ok(mut disk) = NeverFails::new(alloc, 4096) else {
        return Err(Fail::from("no disk"));
    };
    for number in 20..23 {
        put_block(&mut disk, number, change)?;
    }
    let mut table = BlockTable::new(alloc, 4096)?;
    if table.blocks() > disk.blocks() {
        return Err(Fail::from("too few blocks"));
    }
    let want = Want {
        fsid: FSID,
        at: address(20),
        generation: 9,
        owner: 5,
        level: 1,
    };
    Ok(load(alloc, &mut disk, &mut table, &want))
}

/// A change of a byte, after which the block's sum is right.
fn changed(block: u32, offset: usize, value: u8, fault: LoadFault) -> Change {
    Change {
        block,
        offset,
        value,
        is_summed: true,
        answer: Some(fault),
    }
}

/// A tree of a node and two leaves is loaded, and with one byte changed each check in its turn refuses it.
#[test]
fn changed_trees(rt: HostRuntime) -> Result<(), Fail> {
    let whole = Change {
        block: 0,
        offset: 0,
        value: 0,
        is_summed: true,
        answer: None,
    };
    let broken = |number, fault| LoadFault::Block(address(number), fault);
    for change in [
        whole,
        Change {
            is_summed: false,
            ..changed(21, 4095, 1, broken(21, BlockFault::Checksum))
        },
        changed(20, 32, 1, broken(20, BlockFault::Fsid)),
        changed(21, 49, 1, broken(21, BlockFault::Address)),
        changed(22, 80, 8, broken(22, BlockFault::Generation)),
        changed(20, 126, 8, broken(21, BlockFault::Generation)),
        changed(21, 88, 6, broken(21, BlockFault::Owner)),
        changed(22, 100, 1, broken(22, BlockFault::Level)),
        changed(20, 96, 0, broken(20, BlockFault::Count)),
        changed(20, 134, 0, broken(20, BlockFault::Order)),
        changed(21, 119, 16, broken(21, BlockFault::Bounds)),
        changed(22, 101, 2, broken(22, BlockFault::Order)),
        changed(20, 96, 1, LoadFault::Thin(address(20))),
        changed(22, 96, 0, LoadFault::Thin(address(22))),
        changed(20, 151, 1, LoadFault::Outside(Addr(22 * 4096 + 1))),
        changed(
            20,
            154,
            4,
            LoadFault::Outside(Addr(22 * 4096 + 4 * 16_777_216)),
        ),
        changed(20, 152, 80, LoadFault::Twice(address(21))),
        changed(20, 119, 64, LoadFault::Twice(address(20))),
    ] {
        let answer = load_changed(rt.alloc(), &change)?;
        match change.answer {
            Some(fault) => assert!(rt; answer == Err(fault)),
            None => assert!(rt; answer.is_ok()),
        }
    }
    Ok(())
}
