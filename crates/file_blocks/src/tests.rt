ghost use Rattle.std.specs.Prelude.{◌≢◌, ℕ, IsTrue};
ghost use Rattle.block_table.specs.declared.state.SlotState.{SlotState};
ghost use Rattle.block_table.specs.TreeIn.{block_at};

use super::*;
use blk_base::format::{EXTENT_DATA, FILE_MODE};
use blk_base::{Addr, Ino, Key};
use block_table::{BlockTable, SlotState, Tree};
use item_edit::{write_inode, write_item};
use item_extent::put_regular;
use item_inode::InodeItem;
use std::process::Abort;
use std::test::Fail;
use tree_range::is_tree;

/// Whether no block of the table was let go.
fn none_let_go(table: &BlockTable) -> bool
    ensures { IsTrue result → (at : ℕ) → (block_at table.now at).state ≢ SlotState.LetGo }
{
    for number in 0..table.blocks() {
        if table.state(Addr(number as u64 * 4096)) == SlotState::LetGo {
            return false;
        }
    }
    true
}

/// Takes a block and fills it with a byte.
fn take(rt: &impl Abort, table: &mut BlockTable, byte: u8) -> Addr {
    assert!(rt; table.spare() >= 1);
    assert!(rt; table.free_count() >= 1);
    let at = table.take();
    *table.block_mut(at) = [byte; 4096];
    at
}

/// Puts a file 257 of this size into a tree, with a run of one block at its block 1.
fn put_file(rt: &impl Abort, table: &mut BlockTable, tree: &mut Tree, size: u64, at: Addr) {
    let item = InodeItem {
        generation: 7,
        transid: 7,
        size,
        nbytes: 4096,
        nlink: 1,
        mode: FILE_MODE,
    };
    assert!(rt; is_tree(table, tree) && none_let_go(table));
    assert!(rt; table.spare() >= 17);
    assert!(rt; table.free_count() >= 17);
    write_inode(table, tree, Ino(257), &item);
    let mut bytes = [0; 53];
    put_regular(7, at, 4096, &mut bytes);
    let key = Key {
        objectid: 257,
        kind: EXTENT_DATA,
        offset: 4096,
    };
    assert!(rt; is_tree(table, tree) && none_let_go(table));
    assert!(rt; table.spare() >= 17);
    assert!(rt; table.free_count() >= 17);
    write_item(table, tree, key, &bytes);
}

#[test]
fn holes_read_as_zeros(rt: HostRuntime) -> Result<(), Fail> {
    let mut table = BlockTable::new(rt.alloc(), 64)?;
    table.reserve(rt.alloc(), 40)?;
    let mut tree = Tree {
        root: take(&rt, &mut table, 0),
        level: 0,
        owner: 5,
    };
    let at = take(&rt, &mut table, 9);
    put_file(&rt, &mut table, &mut tree, 9000, at);
    assert!(rt; is_tree(&table, &tree));
    let text = read(rt.alloc(), &table, &tree, Ino(257), 0, 65_536)?;
    assert_eq!(rt; text.len(), 9000);
    assert_eq!(rt; text.byte(4095), 0);
    assert_eq!(rt; text.byte(4096), 9);
    assert_eq!(rt; text.byte(8191), 9);
    assert_eq!(rt; text.byte(8192), 0);
    let text = read(rt.alloc(), &table, &tree, Ino(257), 4090, 10)?;
    assert_eq!(rt; text.len(), 10);
    assert_eq!(rt; text.byte(6), 9);
    let text = read(rt.alloc(), &table, &tree, Ino(257), 9000, 10)?;
    assert_eq!(rt; text.len(), 0);
    Ok(())
}
