ghost use Rattle.std.specs.Prelude.{◌≤◌, ◌<◌, ◌+◌};
ghost use Rattle.tree_range.specs.Shape.{IsTree};

use blk_base::{Addr, Block, Key, put_u32, put_u64};
use block_table::{BlockTable, SlotState, Tree};
use std::process::Abort;
use std::test::Fail;
use tree_range::{get, is_tree, leaf_at, range};

/// A byte of a block of the table: the block's number, where it stands in the block, and the byte.
type Change = (u64, usize, u8);

/// The tree of the tests: a root of 2 nodes of 30 leaves each, with 120 items in all.
const TREE: Tree = Tree {
    root: Addr(17 * 4096),
    level: 2,
    owner: 5,
};

/// The key of the item with a number.
fn key_of(number: u64) -> Key {
    key_at(number.wrapping_mul(10))
}

fn key_at(offset: u64) -> Key {
    Key {
        objectid: 256,
        kind: 1,
        offset,
    }
}

fn put_key(block: &mut Block, at: usize, key: &Key)
    requires { at + 17 ≤ 4096 }
{
    put_u64(block, at, key.objectid);
    block[at + 8] = key.kind;
    put_u64(block, at + 9, key.offset);
}

/// The body of a leaf: items `2 number` and the next one, each with its number for data.
fn leaf_of(number: u8) -> Block {
    let mut block = [0; 4096];
    put_u32(&mut block, 96, 2);
    for i in 0..2u8 {
        let item = number.wrapping_mul(2).wrapping_add(i);
        let at = 101 + 25 * i as usize;
        put_key(&mut block, at, &key_of(item as u64));
        put_u32(&mut block, at + 17, 3994 - i as u32);
        put_u32(&mut block, at + 21, 1);
        block[4095 - i as usize] = item;
    }
    block
}

/// The body of a node: children in the blocks from `child` on, whose first items are `step` apart from `item` on.
fn node_of(count: u8, child: u64, item: u64, step: u64) -> Block
    requires { count ≤ 30 }
{
    let mut block = [0; 4096];
    put_u32(&mut block, 96, count as u32);
    for i in 0..count {
        let at = 101 + 33 * i as usize;
        let first = item.wrapping_add(step.wrapping_mul(i as u64));
        put_key(&mut block, at, &key_of(first));
        put_u64(
            &mut block,
            at + 17,
            child.wrapping_add(i as u64).wrapping_mul(4096),
        );
        put_u64(&mut block, at + 25, 7);
    }
    block
}

/// The block of the tests' tree with a number from 17 to 79.
fn block_of(number: u64) -> Block {
    match number {
        17 => node_of(2, 18, 0, 60),
        18 => node_of(30, 20, 0, 2),
        19 => node_of(30, 50, 60, 2),
        20..80 => leaf_of((number - 20) as u8),
        _ => [0; 4096],
    }
}

/// Puts the tests' tree into a table, with a byte changed.
fn build(rt: &impl Abort, table: &mut BlockTable, change: Option<Change>) {
    for number in 17..80 {
        let at = Addr(number * 4096);
        assert!(rt; table.is_allowed(at));
        assert!(rt; table.state(at) == SlotState::Free);
        assert!(rt; table.spare() >= 1);
        table.stand(at, &changed(block_of(number), number, change), false);
    }
}

/// The block with a number, with the change of it.
fn changed(mut block: Block, number: u64, change: Option<Change>) -> Block {
    if let Some((other, place, byte)) = change {
        if other == number && place < 4096 {
            block[place] = byte;
        }
    }
    block
}

fn byte(found: Option<&[u8]>) -> Option<u8> {
    found?.first().copied()
}

/// The bytes of the items in a range, the first one and the last, and how many there are.
type Ends = (Option<u8>, Option<u8>, usize);

fn ends(table: &BlockTable, tree: &Tree, first: &Key, last: &Key) -> Ends
    requires { IsTree table.now tree.now }
{
    let mut ends = (None, None, 0usize);
    for (_, data) in range(table, tree, first, last) {
        ends = (
            ends.0.or(byte(Some(data))),
            byte(Some(data)),
            ends.2.wrapping_add(1),
        );
    }
    ends
}

/// First and last keys, and the ends of the range between them.
fn range_rows() -> [(u64, u64, Ends); 8] {
    [
        (0, 2000, (Some(0), Some(119), 120)),
        (550, 650, (Some(55), Some(65), 11)),
        (541, 659, (Some(55), Some(65), 11)),
        (30, 30, (Some(3), Some(3), 1)),
        (1190, 5000, (Some(119), Some(119), 1)),
        (31, 39, (None, None, 0)),
        (40, 30, (None, None, 0)),
        (1191, 5000, (None, None, 0)),
    ]
}

#[test]
fn items_are_found(rt: HostRuntime) -> Result<(), Fail> {
    let mut table = BlockTable::new(rt.alloc(), 96)?;
    table.reserve(rt.alloc(), 63)?;
    build(&rt, &mut table, None);
    assert!(rt; is_tree(&table, &TREE));
    for number in 0..120u8 {
        let key = key_of(number as u64);
        assert_eq!(rt; byte(get(&table, &TREE, &key)), Some(number));
        let leaf = Addr((20 + number as u64 / 2) * 4096);
        assert_eq!(rt; leaf_at(&table, &TREE, &key), Some(leaf));
        let between = key_at(number as u64 * 10 + 5);
        assert_eq!(rt; leaf_at(&table, &TREE, &between), None);
    }
    for (first, last, wanted) in range_rows() {
        assert_eq!(rt; ends(&table, &TREE, &key_at(first), &key_at(last)), wanted);
    }
    Ok(())
}

/// Changes after which the tests' tree is none: a root of one child; a leaf without items; a first key that isn't the
/// pointer's; a key above the next leaf's first; a child outside the volume; a leaf under two pointers; a node with too
/// few children.
fn faults() -> [Change; 7] {
    [
        (17, 96, 1),
        (20, 96, 0),
        (18, 110, 1),
        (20, 137, 1),
        (19, 119, 0xff),
        (18, 152, 0x40),
        (18, 96, 29),
    ]
}

#[test]
fn other_blocks_are_no_tree(rt: HostRuntime) -> Result<(), Fail> {
    for change in faults() {
        let mut table = BlockTable::new(rt.alloc(), 96)?;
        table.reserve(rt.alloc(), 63)?;
        build(&rt, &mut table, Some(change));
        assert!(rt; !is_tree(&table, &TREE), "{change:?}");
    }
    Ok(())
}
