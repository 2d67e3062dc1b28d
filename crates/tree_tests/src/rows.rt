ghost use Rattle.std.specs.Prelude.{◌<◌};
ghost use Rattle.tree_frame.specs.Frame.{AreCurrent};
ghost use Rattle.tree_range.specs.Shape.{IsTree, tree_reach};

use crate::writing::{empty_tree, has_room, key_of, put_one};
use block_table::{BlockTable, Tree};
use cow_tree::delete;
use std::process::Abort;
use std::test::Fail;
use tree_range::{get, range};

/// The number of items of a row, whose keys are 0 up to this number.
const ITEMS: u64 = 10_000;

/// In which order a row's keys come.
#[derive(Clone, Copy)]
enum Order {
    Rising,
    Falling,
    Mixed,
}

/// The key that comes in a place, from 0, of an order.
fn offset_of(order: Order, place: u64) -> u64
    requires { place < 10000 }
{
    match order {
        Order::Rising => place,
        Order::Falling => ITEMS - 1 - place,
        Order::Mixed => place * 7919 % ITEMS,
    }
}

/// The data of an item.
fn data_of(offset: u64) -> [u8; 100] {
    [(offset % 251) as u8; 100]
}

/// That so many blocks at most are taken, of a table of 4096, as a tree with so many items may have.
fn is_small(rt: &impl Abort, table: &BlockTable, items: u64) {
    let taken = 4079_u64.saturating_sub(table.free_count() as u64);
    assert!(rt;
        taken <= items.saturating_mul(2).saturating_add(1),
        "{taken} blocks for {items} items"
    );
}

/// Takes an item out that the tree has.
fn delete_one(rt: &impl Abort, table: &mut BlockTable, tree: &mut Tree, offset: u64)
    requires tree { IsTree table.old tree.old }
    requires current { AreCurrent table.old (tree_reach table.old tree.old) }
    ensures tree { IsTree table.new tree.new }
    ensures current { AreCurrent table.new (tree_reach table.new tree.new) }
{
    let key = key_of(offset);
    assert!(rt; get(table, tree, &key).is_some());
    assert!(rt; has_room(table));
    delete(table, tree, &key);
}

/// Puts the row's items in.
fn put_row(rt: &impl Abort, table: &mut BlockTable, tree: &mut Tree, order: Order)
    requires tree { IsTree table.old tree.old }
    requires current { AreCurrent table.old (tree_reach table.old tree.old) }
    ensures tree { IsTree table.new tree.new }
    ensures current { AreCurrent table.new (tree_reach table.new tree.new) }
{
    for place in 0..ITEMS {
        let offset = offset_of(order, place);
        put_one(rt, table, tree, offset, &data_of(offset));
        is_small(rt, table, place + 1);
    }
}

/// Takes every second item out.
fn delete_half(rt: &impl Abort, table: &mut BlockTable, tree: &mut Tree, order: Order)
    requires tree { IsTree table.old tree.old }
    requires current { AreCurrent table.old (tree_reach table.old tree.old) }
    ensures tree { IsTree table.new tree.new }
    ensures current { AreCurrent table.new (tree_reach table.new tree.new) }
{
    let mut left = ITEMS;
    for place in 0..ITEMS {
        let offset = offset_of(order, place);
        if offset % 2 == 1 {
            delete_one(rt, table, tree, offset);
            left = left.saturating_sub(1);
            is_small(rt, table, left);
        }
    }
}

/// That the tree has the items of each key that is a multiple of `step`, and no other.
fn has_each(rt: &impl Abort, table: &BlockTable, tree: &Tree, step: u64)
    requires tree { IsTree table.now tree.now }
    requires step { 0 < step }
{
    let mut items = range(table, tree, &key_of(0), &key_of(u64::MAX));
    for offset in 0..ITEMS {
        if offset % step == 0 {
            match items.next() {
                Some((key, data)) => {
                    assert_eq!(rt; key, key_of(offset));
                    assert_eq!(rt; data, data_of(offset).as_slice());
                }
                None => assert!(rt; false),
            }
        }
    }
    assert!(rt; items.next().is_none());
}

/// A row put in, and then every second item taken out.
fn runs(rt: &impl Abort, table: &mut BlockTable, order: Order) {
    let mut tree = empty_tree(rt, table);
    put_row(rt, table, &mut tree, order);
    has_each(rt, table, &tree, 1);
    delete_half(rt, table, &mut tree, order);
    has_each(rt, table, &tree, 2);
}

/// Ten thousand items are put in by rising, by falling and by mixed keys, and half of them are taken out.
#[test]
fn rows(rt: HostRuntime) -> Result<(), Fail> {
    for order in [Order::Rising, Order::Falling, Order::Mixed] {
        let mut table = BlockTable::new(rt.alloc(), 4096)?;
        table.reserve(rt.alloc(), 1000)?;
        runs(&rt, &mut table, order);
    }
    Ok(())
}
