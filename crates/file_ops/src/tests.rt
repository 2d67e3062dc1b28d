ghost use Rattle.std.specs.Prelude.{◌≢◌, ℕ, IsTrue};
ghost use Rattle.block_table.specs.declared.state.SlotState.{SlotState};
ghost use Rattle.block_table.specs.TreeIn.{block_at};

use super::*;
use blk_base::{Addr, Name, Text, is_name};
use block_table::{BlockTable, SlotState, SubState, Tree};
use flat_model::{Answer, Path};
use std::process::Abort;
use std::test::Fail;
use tree_range::is_tree;

/// A subvolume whose tree is a leaf, whose place a test sets.
const STATE: SubState = SubState {
    tree: Tree {
        root: Addr(17 * 4096),
        level: 0,
        owner: 5,
    },
    next_ino: 257,
    next_index: 2,
    running: 7,
};

/// Whether no block of the table was let go.
fn none_let_go(table: &BlockTable) -> bool
    ensures { IsTrue result → (at : ℕ) → (block_at table.now at).state ≢ SlotState.LetGo }
{
    for number in 0..table.blocks() {
        if table.state(Addr(number as u64 * 4096)) == SlotState::LetGo {
            return false;
        }
    }
    true
}

/// Sets an attribute, where the table has what it takes.
fn set(
    rt: &impl Abort,
    table: &mut BlockTable,
    sub: &mut SubState,
    path: &Path,
    name: &Name,
    value: &Text,
) -> Answer {
    assert!(rt; is_tree(table, &sub.tree) && none_let_go(table));
    assert!(rt; value.len() >= 1);
    assert!(rt; table.spare() >= 17);
    assert!(rt; table.free_count() >= 17);
    set_attr(table, sub, path, name, value)
}

/// Takes an attribute away, where the table has what it takes.
fn remove(
    rt: &impl Abort,
    table: &mut BlockTable,
    sub: &mut SubState,
    path: &Path,
    name: &Name,
) -> Answer {
    assert!(rt; is_tree(table, &sub.tree) && none_let_go(table));
    assert!(rt; table.spare() >= 17);
    assert!(rt; table.free_count() >= 17);
    del_attr(table, sub, path, name)
}

/// An answer as a number: the count of bytes and 10, or one below 10.
fn number(answer: Answer) -> usize {
    match answer {
        Answer::Plain => 0,
        Answer::TooLarge => 1,
        Answer::NoAttr => 2,
        Answer::Bytes(text) => text.len().saturating_add(10),
        _ => 9,
    }
}

#[test]
fn attributes_of_the_root(rt: HostRuntime) -> Result<(), Fail> {
    let mut table = BlockTable::new(rt.alloc(), 64)?;
    table.reserve(rt.alloc(), 40)?;
    assert!(rt; table.spare() >= 1);
    assert!(rt; table.free_count() >= 1);
    let root = table.take();
    *table.block_mut(root) = [0; 4096];
    let mut sub = STATE;
    sub.tree.root = root;
    assert!(rt; is_name(b"user.a"));
    let name = Name::new(rt.alloc(), b"user.a")?;
    let path = Path::new(Vec::new(rt.alloc()));
    let value = Text::repeat(1024, 97);
    let longer = Text::repeat(1025, 97);
    let answer = remove(&rt, &mut table, &mut sub, &path, &name);
    assert_eq!(rt; number(answer), 2);
    let answer = set(&rt, &mut table, &mut sub, &path, &name, &value);
    assert_eq!(rt; number(answer), 0);
    let answer = set(&rt, &mut table, &mut sub, &path, &name, &longer);
    assert_eq!(rt; number(answer), 1);
    assert!(rt; is_tree(&table, &sub.tree));
    let answer = get_attr(rt.alloc(), &table, &sub, &path, &name)?;
    assert_eq!(rt; number(answer), 1034);
    let answer = remove(&rt, &mut table, &mut sub, &path, &name);
    assert_eq!(rt; number(answer), 0);
    Ok(())
}
