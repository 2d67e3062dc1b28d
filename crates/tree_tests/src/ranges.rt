ghost use Rattle.std.specs.Prelude.{◌≢◌, ◌≤◌, ◌+◌, ◌*◌, ℕ, IsTrue, length};
ghost use Rattle.block_table.specs.declared.state.SlotState.{SlotState};
ghost use Rattle.block_table.specs.Table.{free_blocks};
ghost use Rattle.block_table.specs.TreeIn.{block_at};
ghost use Rattle.tree_range.specs.Between.{items_between};
ghost use Rattle.tree_range.specs.Shape.{IsTree, tree_items, tree_reach};
ghost use Rattle.tree_frame.specs.Frame.{AreCurrent};

use blk_base::{Addr, Block, Key, put_u32, put_u64};
use block_table::{BlockTable, SlotState, Tree};
use cow_tree::delete_range;
use std::process::Abort;
use std::test::Fail;
use tree_range::{get, is_tree, range};

/// A tree of 4 such leaves.
const TREE: Tree = Tree {
    root: Addr(17 * 4096),
    level: 1,
    owner: 5,
};

/// The key of the item with a number.
fn key_of(number: u64) -> Key {
    Key {
        objectid: 256,
        kind: 96,
        offset: number,
    }
}

fn put_key(block: &mut Block, at: usize, key: &Key)
    requires { at + 17 ≤ 4096 }
{
    put_u64(block, at, key.objectid);
    block[at + 8] = key.kind;
    put_u64(block, at + 9, key.offset);
}

/// The body of a leaf: the 50 items from a number on, each with a byte of data.
fn leaf_from(number: u64) -> Block {
    let mut block = [0; 4096];
    put_u32(&mut block, 96, 50);
    for i in 0..50u8 {
        let at = 101 + 25 * i as usize;
        put_key(&mut block, at, &key_of(number.wrapping_add(i as u64)));
        put_u32(&mut block, at + 17, 3994 - i as u32);
        put_u32(&mut block, at + 21, 1);
    }
    block
}

/// The body of the root, whose children stand in the blocks from 18 on.
fn root() -> Block {
    let mut block = [0; 4096];
    put_u32(&mut block, 96, 4);
    for i in 0..4u8 {
        let at = 101 + 33 * i as usize;
        put_key(&mut block, at, &key_of(50 * i as u64));
        put_u64(&mut block, at + 17, (18 + i as u64) * 4096);
    }
    block
}

/// Puts the blocks of both trees into a table.
fn build(rt: &impl Abort, table: &mut BlockTable) {
    for number in 17..22u64 {
        let at = Addr(number * 4096);
        assert!(rt; table.is_allowed(at));
        assert!(rt; table.state(at) == SlotState::Free);
        assert!(rt; table.spare() >= 1);
        let block = if number == 17 {
            root()
        } else {
            leaf_from((number - 18) * 50)
        };
        table.stand(at, &block, false);
    }
}

/// Whether no block of the table was let go.
fn none_let_go(table: &BlockTable) -> bool
    ensures { IsTrue result → (at : ℕ) → (block_at table.now at).state ≢ SlotState.LetGo }
{
    for number in 0..table.blocks() {
        if table.state(Addr(number as u64 * 4096)) == SlotState::LetGo {
            return false;
        }
    }
    true
}

/// Whether a table has what it takes to take a range out.
fn has_room(table: &BlockTable, tree: &Tree, first: &Key, last: &Key) -> bool
    requires { IsTree table.now tree.now }
    ensures spare { IsTrue result → 2 * length (items_between first.now last.now (tree_items table.now tree.now)) + 34 ≤ table.now.spare }
    ensures free { IsTrue result → 2 * length (items_between first.now last.now (tree_items table.now tree.now)) + 34 ≤ free_blocks table.now }
{
    let mut needed = 34u64;
    for _ in range(table, tree, first, last) {
        needed = needed.saturating_add(2);
    }
    needed <= table.spare() as u64 && needed <= table.free_count() as u64
}

/// Takes the items from one number to another out of a tree.
fn take_out(rt: &impl Abort, table: &mut BlockTable, tree: &mut Tree, first: u64, last: u64)
    requires tree { IsTree table.old tree.old }
    requires current { AreCurrent table.old (tree_reach table.old tree.old) }
    ensures tree { IsTree table.new tree.new }
    ensures current { AreCurrent table.new (tree_reach table.new tree.new) }
{
    let (first, last) = (key_of(first), key_of(last));
    assert!(rt; has_room(table, tree, &first, &last));
    delete_range(table, tree, &first, &last);
}

/// How many items a tree has, and the numbers of its first and last one.
fn ends(table: &BlockTable, tree: &Tree) -> (u64, Option<u64>, Option<u64>)
    requires { IsTree table.now tree.now }
{
    let mut ends = (0u64, None, None);
    for (key, _) in range(table, tree, &key_of(0), &key_of(u64::MAX)) {
        ends = (
            ends.0.wrapping_add(1),
            ends.1.or(Some(key.offset)),
            Some(key.offset),
        );
    }
    ends
}

/// Whether a tree has an item with a number.
fn has(table: &BlockTable, tree: &Tree, number: u64) -> bool
    requires { IsTree table.now tree.now }
{
    get(table, tree, &key_of(number)).is_some()
}

#[test]
fn ranges_go_from_leaves(rt: HostRuntime) -> Result<(), Fail> {
    let mut table = BlockTable::new(rt.alloc(), 512)?;
    table.reserve(rt.alloc(), 490)?;
    build(&rt, &mut table);
    let mut tree = TREE;
    assert!(rt; is_tree(&table, &tree) && none_let_go(&table));
    take_out(&rt, &mut table, &mut tree, 200, 300);
    take_out(&rt, &mut table, &mut tree, 169, 30);
    assert_eq!(rt; ends(&table, &tree), (200, Some(0), Some(199)));
    take_out(&rt, &mut table, &mut tree, 30, 169);
    assert_eq!(rt; ends(&table, &tree), (60, Some(0), Some(199)));
    assert!(rt; has(&table, &tree, 29) && !has(&table, &tree, 30));
    assert!(rt; has(&table, &tree, 170) && !has(&table, &tree, 169));
    take_out(&rt, &mut table, &mut tree, 0, u64::MAX);
    assert_eq!(rt; ends(&table, &tree), (0, None, None));
    assert_eq!(rt; tree.level, 0);
    Ok(())
}
