ghost use Rattle.std.specs.Prelude.{◌≡◌, ◌≤◌, IsTrue, length};
ghost use Rattle.block_table.specs.Table.{free_blocks};
ghost use Rattle.tree_range.specs.Shape.{IsTree, tree_items, tree_reach};
ghost use Rattle.tree_frame.specs.Frame.{AreCurrent};
ghost use Rattle.item_edit.specs.ItemEdit.{bytes_under};

use super::*;
use crate::item::item_len;
use blk_base::Key;
use block_table::{BlockTable, Tree};
use cow_tree::get;
use std::process::Abort;
use std::test::Fail;
use tree_blocks::new_leaf;
use tree_range::is_tree;

/// The key of the item that the tests edit.
fn key() -> Key {
    Key {
        objectid: 257,
        kind: 12,
        offset: 256,
    }
}

/// A tree of one leaf without items.
fn empty_tree(rt: &impl Abort, table: &mut BlockTable) -> Tree
    ensures tree { IsTree table.new result }
    ensures current { AreCurrent table.new (tree_reach table.new result) }
{
    assert!(rt; table.spare() >= 1);
    assert!(rt; table.free_count() >= 1);
    let tree = Tree {
        root: new_leaf(table),
        level: 0,
        owner: 5,
    };
    assert!(rt; is_tree(table, &tree));
    tree
}

/// Whether the table has what an edit needs.
fn has_room(table: &BlockTable) -> bool
    ensures spare { IsTrue result → 17 ≤ table.now.spare }
    ensures free { IsTrue result → 17 ≤ free_blocks table.now }
{
    table.spare() >= 17 && table.free_count() >= 17
}

/// Puts bytes behind those of the item.
fn append(rt: &impl Abort, table: &mut BlockTable, tree: &mut Tree, bytes: &[u8])
    requires tree { IsTree table.old tree.old }
    requires current { AreCurrent table.old (tree_reach table.old tree.old) }
    ensures tree { IsTree table.new tree.new }
    ensures current { AreCurrent table.new (tree_reach table.new tree.new) }
{
    assert!(rt; has_room(table));
    assert!(rt; bytes.len() <= 1000);
    let key = key();
    assert!(rt; item_len(table, tree, &key) <= 1000);
    append_bytes(table, tree, key, bytes);
}

/// Takes some of the item's bytes out.
fn cut(rt: &impl Abort, table: &mut BlockTable, tree: &mut Tree, from: usize, to: usize)
    requires tree { IsTree table.old tree.old }
    requires current { AreCurrent table.old (tree_reach table.old tree.old) }
    ensures tree { IsTree table.new tree.new }
    ensures current { AreCurrent table.new (tree_reach table.new tree.new) }
{
    assert!(rt; has_room(table));
    assert!(rt; from <= to);
    let key = key();
    assert!(rt; get(table, tree, &key).is_some());
    let len = item_len(table, tree, &key);
    assert!(rt; to <= len);
    assert!(rt; len <= 1000);
    cut_bytes(table, tree, key, from, to);
}

/// That these bytes stand under the key, or that no item does where they are none.
fn has(rt: &impl Abort, table: &BlockTable, tree: &Tree, bytes: &[u8])
    requires { IsTree table.now tree.now }
{
    match get(table, tree, &key()) {
        Some(data) => assert_eq!(rt; data, bytes),
        None => assert!(rt; bytes.is_empty()),
    }
}

/// Bytes are put behind others, some are taken out, and the item goes with the last of them.
#[test]
fn appends_and_cuts(rt: HostRuntime) -> Result<(), Fail> {
    let mut table = BlockTable::new(rt.alloc(), 4096)?;
    table.reserve(rt.alloc(), 100)?;
    let mut tree = empty_tree(&rt, &mut table);
    append(&rt, &mut table, &mut tree, &[1, 2, 3]);
    append(&rt, &mut table, &mut tree, &[4, 5]);
    has(&rt, &table, &tree, &[1, 2, 3, 4, 5]);
    cut(&rt, &mut table, &mut tree, 1, 4);
    has(&rt, &table, &tree, &[1, 5]);
    cut(&rt, &mut table, &mut tree, 0, 2);
    has(&rt, &table, &tree, &[]);
    Ok(())
}
