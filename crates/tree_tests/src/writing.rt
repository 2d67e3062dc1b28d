ghost use Rattle.std.specs.Prelude.{◌≤◌, ◌<◌, IsTrue};
ghost use Rattle.block_table.specs.Table.{free_blocks};
ghost use Rattle.tree_frame.specs.Frame.{AreCurrent};
ghost use Rattle.tree_range.specs.Shape.{IsTree, tree_reach};

use blk_base::Key;
use block_table::{BlockTable, Tree};
use cow_tree::{put, replace};
use std::process::Abort;
use std::test::Fail;
use tree_blocks::new_leaf;
use tree_range::{get, is_tree};

pub fn key_of(offset: u64) -> Key {
    Key {
        objectid: 256,
        kind: 96,
        offset,
    }
}

/// A tree of one leaf without items.
pub fn empty_tree(rt: &impl Abort, table: &mut BlockTable) -> Tree
    ensures tree { IsTree table.new result }
    ensures current { AreCurrent table.new (tree_reach table.new result) }
{
    assert!(rt; table.spare() >= 1);
    assert!(rt; table.free_count() >= 1);
    let tree = Tree {
        root: new_leaf(table),
        level: 0,
        owner: 5,
    };
    assert!(rt; is_tree(table, &tree));
    tree
}

/// Whether the table has what an edit needs.
pub fn has_room(table: &BlockTable) -> bool
    ensures spare { IsTrue result → 17 ≤ table.now.spare }
    ensures free { IsTrue result → 17 ≤ free_blocks table.now }
{
    table.spare() >= 17 && table.free_count() >= 17
}

pub fn put_one(rt: &impl Abort, table: &mut BlockTable, tree: &mut Tree, offset: u64, bytes: &[u8])
    requires tree { IsTree table.old tree.old }
    requires current { AreCurrent table.old (tree_reach table.old tree.old) }
    ensures tree { IsTree table.new tree.new }
    ensures current { AreCurrent table.new (tree_reach table.new tree.new) }
{
    let key = key_of(offset);
    assert!(rt; get(table, tree, &key).is_none());
    assert!(rt; has_room(table));
    assert!(rt; bytes.len() <= 3970);
    put(table, tree, key, bytes);
}

fn replace_one(rt: &impl Abort, table: &mut BlockTable, tree: &mut Tree, offset: u64, bytes: &[u8])
    requires tree { IsTree table.old tree.old }
    requires current { AreCurrent table.old (tree_reach table.old tree.old) }
    ensures tree { IsTree table.new tree.new }
    ensures current { AreCurrent table.new (tree_reach table.new tree.new) }
{
    let key = key_of(offset);
    assert!(rt; get(table, tree, &key).is_some());
    assert!(rt; has_room(table));
    assert!(rt; bytes.len() <= 3970);
    replace(table, tree, key, bytes);
}

/// The number of bytes under a key that the tree has.
fn size(rt: &impl Abort, table: &BlockTable, tree: &Tree, offset: u64) -> usize
    requires { IsTree table.now tree.now }
{
    let key = key_of(offset);
    match get(table, tree, &key) {
        Some(data) => data.len(),
        None => {
            assert!(rt; false);
            0
        }
    }
}

/// An item is put into an empty tree, and then has other data.
#[test]
fn puts_and_replaces(rt: HostRuntime) -> Result<(), Fail> {
    let mut table = BlockTable::new(rt.alloc(), 4096)?;
    table.reserve(rt.alloc(), 40)?;
    let mut tree = empty_tree(&rt, &mut table);
    put_one(&rt, &mut table, &mut tree, 7, &[1; 3970]);
    put_one(&rt, &mut table, &mut tree, 5, &[1; 3970]);
    assert_eq!(rt; tree.level, 1);
    replace_one(&rt, &mut table, &mut tree, 7, &[2; 3]);
    assert_eq!(rt; size(&rt, &table, &tree, 7), 3);
    assert_eq!(rt; size(&rt, &table, &tree, 5), 3970);
    Ok(())
}
