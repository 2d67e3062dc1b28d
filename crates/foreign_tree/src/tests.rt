ghost use Rattle.std.specs.Prelude.{◌≡◌};

use super::{Visit, Volume, Wanted, walk};
use blk_base::{BlockFault, Key, OutOfMemory, crc32c, put_bytes, put_u8, put_u32, put_u64};
use disk_memory::ListDisk;
use foreign_format::{Chunk, ForeignFault, ReadFault};
use std::alloc::Global;
use std::process::Abort;
use std::test::Fail;

const FSID: [u8; 16] = [7; 16];

/// A tree block of two blocks of the disk.
type Node = [u8; 8192];

/// The items that were shown: the leaf of each, where its data begin on the disk, and the first number of its key.
#[derive(Drop)]
struct Shown {
    items: Vec<(u64, u64, u64)>,
}

impl Visit for Shown {
    ghost has_met = { λ _ _. Unit {0} };

    fn meet(&mut self, leaf: u64, place: u64, key: &Key, _data: &[u8]) -> Result<(), OutOfMemory> {
        self.items.push((leaf, place, key.objectid))?;
        Ok(())
    }
}

/// What a byte of a block of the tree is changed to, whether the block's sum is made right then, and the walk's fault.
#[derive(Clone, Copy)]
struct Change {
    node: u64,
    offset: usize,
    value: u8,
    is_summed: bool,
    fault: Option<ForeignFault>,
}

/// The logical address of a tree block.
fn address(number: u64) -> u64 {
    1_048_576 + 8192 * (number % 8)
}

/// A tree block of generation 9 with so many items or pointers.
fn headed(number: u64, level: u8, count: u32) -> Node {
    let mut node = [0; 8192];
    put_bytes(&mut node, 32, &FSID);
    put_u64(&mut node, 48, address(number));
    put_u64(&mut node, 80, 9);
    put_u32(&mut node, 96, count);
    put_u8(&mut node, 100, level);
    node
}

/// A leaf with one item without data, whose key is (`objectid`, 0, 0).
fn leaf(number: u64, objectid: u64) -> Node {
    let mut node = headed(number, 0, 1);
    put_u64(&mut node, 101, objectid);
    put_u32(&mut node, 118, 8091);
    node
}

/// Block 0: a node over the leaves 1 and 2.
fn root() -> Node {
    let mut node = headed(0, 1, 2);
    put_u64(&mut node, 101, 256);
    put_u64(&mut node, 118, address(1));
    put_u64(&mut node, 126, 9);
    put_u64(&mut node, 134, 257);
    put_u64(&mut node, 151, address(2));
    put_u64(&mut node, 159, 9);
    node
}

/// Makes the sum of a tree block right.
fn put_sum(node: &mut Node) {
    let sum = crc32c(&node[32..]);
    put_u32(node, 0, sum);
}

/// The tree's block with this number, with the change where it is that block's.
fn node_of(number: u64, change: &Change) -> Node {
    let mut node = match number {
        0 => root(),
        1 => leaf(1, 256),
        _ => leaf(2, 257),
    };
    put_sum(&mut node);
    if change.node == number && change.offset < 8192 {
        node[change.offset] = change.value;
        if change.is_summed {
            put_sum(&mut node);
        }
    }
    node
}

/// Puts a tree block on the disk from this block on.
fn put_node(disk: &mut ListDisk<16>, at: u32, node: &Node) -> Result<(), Fail> {
    if at > 14 {
        return Err(Fail::from("no place"));
    }
    let mut half = [0; 4096];
    half.copy_from_slice(&node[..4096]);
    disk.put(at, &half)?;
    half.copy_from_slice(&node[4096..]);
    disk.put(at + 1, &half)?;
    Ok(())
}

/// Walks the tree with a change, from a root on this level.
fn walk_changed(
    alloc: Global,
    level: u8,
    change: &Change,
) -> Result<(Result<(), ReadFault>, Shown), Fail> {
    let mut disk = ListDisk::new(alloc, 0);
    for (number, at) in [(0, 5), (1, 7), (2, 9)] {
        put_node(&mut disk, at, &node_of(number, change))?;
    }
    let mut chunks = Vec::new(alloc);
    chunks.push(Chunk {
        logical: address(0),
        length: 24_576,
        physical: 20_480,
    })?;
    let volume = Volume {
        fsid: FSID,
        node_size: 8192,
        chunks,
    };
    let wanted = Wanted {
        at: address(0),
        generation: Some(9),
        level,
    };
    let mut shown = Shown {
        items: Vec::new(alloc),
    };
    let answer = walk(alloc, &mut disk, &volume, &wanted, &mut shown);
    Ok((answer, shown))
}

/// A change of a byte, after which the block's sum is right.
fn changed(node: u64, offset: usize, value: u8, fault: Option<ForeignFault>) -> Change {
    Change {
        node,
        offset,
        value,
        is_summed: true,
        fault,
    }
}

/// A tree of a node and two leaves is walked, also with other owners and first keys; with another byte changed each check in
/// its turn refuses it.
#[test]
fn changed_trees(rt: HostRuntime) -> Result<(), Fail> {
    let broken = |number, fault| Some(ForeignFault::Block(address(number), fault));
    for change in [
        changed(1, 88, 6, None),
        changed(0, 102, 0, None),
        Change {
            is_summed: false,
            ..changed(1, 8191, 1, broken(1, BlockFault::Checksum))
        },
        changed(0, 32, 1, broken(0, BlockFault::Fsid)),
        changed(1, 49, 1, broken(1, BlockFault::Address)),
        changed(2, 80, 8, broken(2, BlockFault::Generation)),
        changed(0, 126, 8, broken(1, BlockFault::Generation)),
        changed(2, 100, 1, broken(2, BlockFault::Level)),
        changed(0, 96, 0, broken(0, BlockFault::Count)),
        changed(0, 134, 0, broken(0, BlockFault::Order)),
        changed(1, 119, 32, broken(1, BlockFault::Bounds)),
        changed(0, 153, 17, Some(ForeignFault::Unmapped(1_130_496))),
        changed(0, 152, 32, Some(ForeignFault::Twice(address(1)))),
        changed(0, 119, 0, Some(ForeignFault::Twice(address(0)))),
    ] {
        let (answer, shown) = walk_changed(rt.alloc(), 1, &change)?;
        match change.fault {
            Some(fault) => assert!(rt; answer == Err(ReadFault::Foreign(fault))),
            None => {
                assert!(rt; answer.is_ok());
                let items = [(address(1), 36_864, 256), (address(2), 45_056, 257)];
                assert!(rt; shown.items.as_slice() == items.as_slice());
            }
        }
    }
    Ok(())
}

/// A root above level 7 is refused before its block is looked at.
#[test]
fn high_root(rt: HostRuntime) -> Result<(), Fail> {
    let (answer, _) = walk_changed(rt.alloc(), 8, &changed(0, 32, 1, None))?;
    assert!(rt; answer == Err(ReadFault::Foreign(ForeignFault::Level(address(0)))));
    Ok(())
}
