//! The Dirty data blocks of a tree's files.
ghost use Rattle.std.specs.Prelude.{◌≡◌, ◌≢◌, ◌≤◌, ◌<◌, ◌+◌, ◌∷◌, ◌↔◌, [], All, Bool, IsTrue, length};
ghost use Rattle.block_table.specs.declared.state.SlotState.{SlotState};
ghost use Rattle.block_table.specs.Table.{state_at};
ghost use Rattle.block_table.specs.TreeIn.{IsTaken, block_at};
ghost use Rattle.tree_blocks.specs.Steps.{IsLeafAt};
ghost use Rattle.tree_range.specs.Shape.{IsSubtree, items_below, leaf_items, reach_below};
ghost use Rattle.tree_seal.specs.OnImage.{AreClean};
ghost use Rattle.volume_image.specs.Subvolume.{data_addresses, item_addresses, run_addresses};
ghost use Rattle.volume_seal.specs.Sealed.{IsDataSealed};

use blk_base::format::{BLOCK_SIZE, EXTENT_DATA};
use blk_base::{Addr, Key};
use block_table::{BlockTable, Blocks, SlotState};
use item_extent::Extent;
use tree_blocks::{leaf_data, leaf_key, leaf_len, node_child, node_len};

/// The data blocks to which an item leads: so many, from a byte address on.
#[derive(Clone, Copy, Debug)]
pub(crate) struct Run {
    pub(crate) at: Addr,
    pub(crate) blocks: u64,
}

/// The data blocks to which an item leads ("EXTENT_DATA" of the on-disk format).
pub(crate) fn run_of(key: &Key, bytes: &[u8]) -> Run
    ensures { run_addresses result.at.0 result.blocks ≡ item_addresses (key.now, bytes.now) }
{
    let none = Run {
        at: Addr(0),
        blocks: 0,
    };
    if key.kind != EXTENT_DATA {
        return none;
    }
    match Extent::open(key, bytes) {
        Ok(Extent::Regular { at, length, .. }) => Run {
            at,
            blocks: length / BLOCK_SIZE,
        },
        Ok(Extent::Inline(_)) => none,
        Ok(Extent::Hole { .. }) => none,
        Err(_) => none,
    }
}

/// Whether the block at a byte address is Dirty.
fn is_dirty(table: &BlockTable, at: Addr) -> bool
    ensures { IsTrue result ↔ (state_at table.now at ≡ SlotState.Dirty) }
{
    table.state(at) == SlotState::Dirty
}

/// Seals a data block that is Dirty, and puts a box with its bytes at the end of a list.
fn seal_data_block(table: &mut BlockTable, at: Addr, out: &mut Blocks)
    requires lent { out.old.room ≡ length table.old.slots }
    requires room { length out.old.pairs < length table.old.slots }
    ensures { IsDataSealed table.old table.new (at.0 ∷ []) out.old out.new }
{
    if !is_dirty(table, at) {
        return;
    }
    table.seal(at, out);
}

/// Seals the Dirty ones of a run's blocks.
fn seal_run(table: &mut BlockTable, run: Run, out: &mut Blocks)
    requires taken { All (IsTaken table.old) (run_addresses run.at.0 run.blocks) }
    requires lent { out.old.room ≡ length table.old.slots }
    requires room { length out.old.pairs + run.blocks ≤ length table.old.slots }
    ensures { IsDataSealed table.old table.new (run_addresses run.at.0 run.blocks) out.old out.new }
{
    let mut next = run.at.0;
    let mut left = run.blocks;
    // The proof reads here that the table has fewer than 2^32 blocks.
    let _blocks = table.blocks();
    while left > 0 {
        seal_data_block(table, Addr(next), out);
        left -= 1;
        if left > 0 {
            next += BLOCK_SIZE;
        }
    }
}

/// Seals the Dirty data blocks to which the items of a leaf lead.
fn seal_leaf_data(table: &mut BlockTable, at: Addr, out: &mut Blocks)
    requires leaf { IsLeafAt table.old at.0 }
    requires here { (block_at table.old at.0).state ≢ SlotState.Free }
    requires clean { (block_at table.old at.0).state ≢ SlotState.Dirty }
    requires taken { All (IsTaken table.old) (data_addresses (leaf_items table.old at.0)) }
    requires lent { out.old.room ≡ length table.old.slots }
    requires room { length out.old.pairs + length (data_addresses (leaf_items table.old at.0)) ≤ length table.old.slots }
    ensures { IsDataSealed table.old table.new (data_addresses (leaf_items table.old at.0)) out.old out.new }
{
    for place in 0..leaf_len(table, at) {
        let run = run_of(&leaf_key(table, at, place), leaf_data(table, at, place));
        seal_run(table, run, out);
    }
}

/// Seals the Dirty data blocks to which the items below a block lead. The tree's blocks stay: none of them is Dirty.
pub(crate) fn seal_data_below(table: &mut BlockTable, level: u8, at: Addr, out: &mut Blocks)
    requires shape { (is_root : Bool) × IsSubtree level table.old is_root at.0 }
    requires clean { AreClean table.old (reach_below level table.old at.0) }
    requires taken { All (IsTaken table.old) (data_addresses (items_below level table.old at.0)) }
    requires lent { out.old.room ≡ length table.old.slots }
    requires room { length out.old.pairs + length (data_addresses (items_below level table.old at.0)) ≤ length table.old.slots }
    ensures { IsDataSealed table.old table.new (data_addresses (items_below level table.old at.0)) out.old out.new }
{
    if level == 0 {
        seal_leaf_data(table, at, out);
        return;
    }
    for place in 0..node_len(table, at) {
        let (child, _) = node_child(table, at, place);
        seal_data_below(table, level - 1, child, out);
    }
}
