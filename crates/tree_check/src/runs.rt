//! The runs of data blocks of a tree's extents.
ghost use Rattle.std.specs.Prelude.{◌≡◌, ◌++◌, Bool, OnOk, IfOk};
ghost use Rattle.tree_range.specs.Shape.{IsSubtree, IsTree, items_below};
ghost use Rattle.volume_image.specs.Subvolume.{data_addresses, item_addresses};
ghost use Rattle.tree_check.specs.Blocks.{run_found, runs_of, tree_data};

use crate::leaves::item_at;
use blk_base::format::{BLOCK_SIZE, EXTENT_DATA};
use blk_base::{Addr, Key, OutOfMemory};
use block_table::{BlockTable, Tree};
use item_extent::Extent;
use leaf_view::{LeafView, NodeView};

/// The byte address of the first block of a run, and how many blocks the run has (own).
#[derive(Clone, Copy)]
pub(crate) struct Run {
    pub(crate) at: Addr,
    pub(crate) count: u64,
}

/// The run of an item, if it is an extent that has one.
fn run_of(key: &Key, bytes: &[u8]) -> Option<Run>
    ensures { run_found result ≡ item_addresses (key.now, bytes.now) }
{
    if key.kind != EXTENT_DATA {
        return None;
    }
    match Extent::open(key, bytes) {
        Ok(Extent::Regular { at, length, .. }) => Some(Run {
            at,
            count: length / BLOCK_SIZE,
        }),
        Ok(Extent::Inline(_)) | Ok(Extent::Hole { .. }) | Err(_) => None,
    }
}

/// Adds the run of an item, if it has one.
fn add_run(runs: &mut Vec<Run>, key: &Key, bytes: &[u8]) -> Result<(), OutOfMemory>
    ensures { OnOk result (runs_of runs.new.items ≡ runs_of runs.old.items ++ item_addresses (key.now, bytes.now)) }
{
    if let Some(run) = run_of(key, bytes) {
        runs.push(run)?;
    }
    Ok(())
}

/// Adds the runs of a leaf's items.
fn add_leaf(runs: &mut Vec<Run>, leaf: &LeafView<'_>) -> Result<(), OutOfMemory>
    ensures { OnOk result (runs_of runs.new.items ≡ runs_of runs.old.items ++ data_addresses leaf.now) }
{
    for place in 0..leaf.len() {
        let (key, bytes) = item_at(leaf, place);
        add_run(runs, &key, bytes)?;
    }
    Ok(())
}

/// Adds the runs of the items below a block on this level.
fn add_below(
    runs: &mut Vec<Run>,
    table: &BlockTable,
    level: u8,
    at: Addr,
) -> Result<(), OutOfMemory>
    requires { (is_root : Bool) × IsSubtree level table.now is_root at.0 }
    ensures { OnOk result (runs_of runs.new.items ≡ runs_of runs.old.items ++ data_addresses (items_below level table.now at.0)) }
{
    let block = table.block(at);
    if level == 0 {
        return add_leaf(runs, &LeafView::of_body(block));
    }
    let node = NodeView::of_body(block);
    for place in 0..node.len() {
        add_below(runs, table, level - 1, node.child(place).0)?;
    }
    Ok(())
}

/// Adds the runs of a tree's extents, by rising keys.
pub(crate) fn add_tree(
    runs: &mut Vec<Run>,
    table: &BlockTable,
    tree: &Tree,
) -> Result<(), OutOfMemory>
    requires { IsTree table.now tree.now }
    ensures { OnOk result (runs_of runs.new.items ≡ runs_of runs.old.items ++ tree_data table.now tree.now) }
{
    add_below(runs, table, tree.level, tree.root)
}
