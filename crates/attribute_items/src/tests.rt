ghost use Rattle.std.specs.Prelude.{◌≢◌, ℕ, IsTrue};
ghost use Rattle.block_table.specs.declared.state.SlotState.{SlotState};
ghost use Rattle.block_table.specs.TreeIn.{block_at};
ghost use Rattle.tree_range.specs.Shape.{IsTree};

use super::*;
use blk_base::limits::MOST_VALUE_BYTES;
use blk_base::{Addr, Ino, Name, Text, is_name};
use block_table::{BlockTable, SlotState, SubState, Tree};
use std::alloc::Global;
use std::process::Abort;
use std::test::Fail;
use tree_range::is_tree;

/// A subvolume whose tree is a leaf, whose place a test sets.
const STATE: SubState = SubState {
    tree: Tree {
        root: Addr(17 * 4096),
        level: 0,
        owner: 5,
    },
    next_ino: 258,
    next_index: 2,
    running: 7,
};

/// Whether no block of the table was let go.
fn none_let_go(table: &BlockTable) -> bool
    ensures { IsTrue result → (at : ℕ) → (block_at table.now at).state ≢ SlotState.LetGo }
{
    for number in 0..table.blocks() {
        if table.state(Addr(number as u64 * 4096)) == SlotState::LetGo {
            return false;
        }
    }
    true
}

/// The name of these bytes.
fn name_of(rt: &impl Abort, alloc: Global, bytes: &[u8]) -> Result<Name, Fail> {
    assert!(rt; is_name(bytes));
    Ok(Name::new(alloc, bytes)?)
}

/// Sets an attribute of inode 257, where its item has the room.
fn set(
    rt: &impl Abort,
    table: &mut BlockTable,
    sub: &mut SubState,
    name: &Name,
    value: &Text,
) -> bool {
    assert!(rt; is_tree(table, &sub.tree) && none_let_go(table));
    assert!(rt; table.spare() >= 17);
    assert!(rt; table.free_count() >= 17);
    assert!(rt; value.len() <= MOST_VALUE_BYTES);
    if is_crowded(table, sub, Ino(257), name, value) {
        return false;
    }
    set_attribute(table, sub, Ino(257), name, value);
    true
}

/// Takes an attribute of inode 257 away.
fn remove(rt: &impl Abort, table: &mut BlockTable, sub: &mut SubState, name: &Name) {
    assert!(rt; is_tree(table, &sub.tree) && none_let_go(table));
    assert!(rt; table.spare() >= 17);
    assert!(rt; table.free_count() >= 17);
    assert!(rt; get_attribute(table, sub, Ino(257), name).is_some());
    remove_attribute(table, sub, Ino(257), name);
}

/// The length and the first byte of the value of an attribute of inode 257.
fn value(rt: &impl Abort, table: &BlockTable, sub: &SubState, name: &Name) -> Option<(usize, u8)> {
    assert!(rt; is_tree(table, &sub.tree));
    let bytes = get_attribute(table, sub, Ino(257), name)?;
    Some((bytes.len(), bytes.first().copied().unwrap_or(0)))
}

/// The first two names have one hash.
#[test]
fn attributes_share_items(rt: HostRuntime) -> Result<(), Fail> {
    let mut table = BlockTable::new(rt.alloc(), 64)?;
    table.reserve(rt.alloc(), 40)?;
    assert!(rt; table.spare() >= 1);
    assert!(rt; table.free_count() >= 1);
    let root = table.take();
    *table.block_mut(root) = [0; 4096];
    let mut sub = STATE;
    sub.tree.root = root;
    let one = name_of(&rt, rt.alloc(), b"jm068bls5")?;
    let two = name_of(&rt, rt.alloc(), b"78b6u26mr")?;
    assert!(rt; set(&rt, &mut table, &mut sub, &one, &Text::repeat(1024, 97)));
    assert_eq!(rt; value(&rt, &table, &sub, &one), Some((1024, 97)));
    assert!(rt; set(&rt, &mut table, &mut sub, &one, &Text::repeat(3, 98)));
    assert_eq!(rt; value(&rt, &table, &sub, &one), Some((3, 98)));
    assert_eq!(rt; value(&rt, &table, &sub, &two), None);
    assert!(rt; set(&rt, &mut table, &mut sub, &two, &Text::repeat(1024, 99)));
    remove(&rt, &mut table, &mut sub, &one);
    assert_eq!(rt; value(&rt, &table, &sub, &one), None);
    assert_eq!(rt; value(&rt, &table, &sub, &two), Some((1024, 99)));
    remove(&rt, &mut table, &mut sub, &two);
    assert_eq!(rt; value(&rt, &table, &sub, &two), None);
    Ok(())
}
