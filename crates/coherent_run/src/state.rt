//! The numbers beside a subvolume at its mount.
ghost use Rattle.std.specs.Prelude.{◌≡◌};
ghost use Rattle.flat_model.specs.Coherent.{IsCoherent};
ghost use Rattle.flat_model.specs.Volume.{Subvolume, numbers_at_mount};
ghost use Rattle.table_volume.specs.Gives.{GivesSubvolume, sub_reach};
ghost use Rattle.table_volume.specs.Running.{GivesRun};
ghost use Rattle.tree_check.specs.Items.{HaveKeys};
ghost use Rattle.tree_frame.specs.Frame.{AreCurrent};
ghost use Rattle.tree_range.specs.Shape.{IsTree, tree_items};
ghost use Rattle.coherent_run.specs.Greatest.{greatest_index, greatest_ino, index_in, ino_in};

use blk_base::Key;
use blk_base::format::{DIR_INDEX, FIRST_FREE, INODE_ITEM};
use block_table::{BlockTable, SubState, Tree};
use coherent_names::every_item;

/// The greatest inode number and the greatest index that a tree has.
#[derive(Clone, Copy)]
struct Greatest {
    ino: u64,
    index: u64,
}

/// The number of the inode whose item has a key; 0 of another item's key.
fn ino_in(key: &Key) -> u64
    ensures { result ≡ ino_in key.now }
{
    if key.kind == INODE_ITEM {
        return key.objectid;
    }
    0
}

/// The index of a DIR_INDEX item by its key; 0 of another item's key.
fn index_in(key: &Key) -> u64
    ensures { result ≡ index_in key.now }
{
    if key.kind == DIR_INDEX {
        return key.offset;
    }
    0
}

/// The greatest numbers among all items, at least 256 and 1.
fn greatest_of(table: &BlockTable, tree: &Tree) -> Greatest
    requires tree { IsTree table.now tree.now }
    requires keys { HaveKeys (tree_items table.now tree.now) }
    ensures ino { result.ino ≡ greatest_ino 256 (tree_items table.now tree.now) }
    ensures index { result.index ≡ greatest_index 1 (tree_items table.now tree.now) }
{
    let mut ino = FIRST_FREE;
    let mut index = 1;
    for (key, _) in every_item(table, tree) {
        ino = ino.max(ino_in(&key));
        index = index.max(index_in(&key));
    }
    Greatest { ino, index }
}

/// The state of a tree at a mount, which a transaction may then change: the next inode number is one above the greatest
/// that an inode item has, and the next index one above the greatest that a directory has, 2 where none has one (own).
/// Where the tree gives a coherent subvolume, the state gives it as its run begins. Goes over the items once.
pub fn run_state(table: &BlockTable, tree: &Tree, running: u64) -> SubState
    requires tree { IsTree table.now tree.now }
    requires keys { HaveKeys (tree_items table.now tree.now) }
    ensures gives { (sub : Subvolume) → GivesSubvolume table.now tree.now sub → IsCoherent sub → AreCurrent table.now (sub_reach table.now tree.now)
        → GivesRun table.now result (record { sub = sub; numbers = numbers_at_mount sub }) }
    ensures tree_is { result.tree ≡ tree.now }
    ensures running { result.running ≡ running }
{
    let greatest = greatest_of(table, tree);
    SubState {
        tree: *tree,
        next_ino: greatest.ino.saturating_add(1),
        next_index: greatest.index.saturating_add(1),
        running,
    }
}
