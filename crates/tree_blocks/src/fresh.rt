ghost use Rattle.std.specs.Prelude.{◌≡◌, ◌≢◌, ◌≤◌, ◌+◌, ◌∷◌, []};
ghost use Rattle.blk_base.specs.Keys.{KeyBelow};
ghost use Rattle.block_table.specs.declared.state.SlotState.{SlotState};
ghost use Rattle.block_table.specs.Table.{free_blocks, slot_at, state_at};
ghost use Rattle.block_table.specs.TreeIn.{block_at};
ghost use Rattle.tree_blocks.specs.Steps.{IsCopied, IsDirtyLeaf, IsDirtyNode, IsSameBut, IsTakenAt, leaf_at, node_at};
ghost use Rattle.tree_blocks.specs.Lists.{pointer_to};

use crate::child::Child;
use crate::within_leaf::clear_leaf;
use crate::within_node::put_two;
use blk_base::{Addr, Block};
use block_table::{BlockTable, SlotState};

/// Takes a Free block that a volume may use, and makes it Dirty with these bytes.
pub(crate) fn fresh(table: &mut BlockTable, bytes: &Block) -> Addr
    requires spare { 1 ≤ table.old.spare }
    requires free { 1 ≤ free_blocks table.old }
    ensures taken { IsTakenAt table.old table.new result.0 }
    ensures bytes { (block_at table.new result.0).bytes ≡ bytes.now }
    ensures others { IsSameBut table.old table.new (result.0 ∷ []) }
    ensures spare { table.new.spare + 1 ≡ table.old.spare }
    ensures free { free_blocks table.new + 1 ≡ free_blocks table.old }
{
    let at = table.take();
    *table.block_mut(at) = *bytes;
    at
}

/// Copies a block that isn't Dirty to one that is, and lets it go.
fn copy_out(table: &mut BlockTable, at: Addr) -> Addr
    requires taken { state_at table.old at ≢ SlotState.Free }
    requires written { state_at table.old at ≢ SlotState.Dirty }
    requires current { state_at table.old at ≢ SlotState.LetGo }
    requires spare { 1 ≤ table.old.spare }
    requires free { 1 ≤ free_blocks table.old }
    ensures { IsCopied table.old table.new at.0 result.0 }
{
    let bytes = *table.block(at);
    let copy = fresh(table, &bytes);
    table.let_go(at);
    copy
}

/// Makes a block one that may be edited: a Dirty block itself, and else a copy of it, in whose favour it is let go.
pub fn own(table: &mut BlockTable, at: Addr) -> Addr
    requires taken { state_at table.old at ≢ SlotState.Free }
    requires current { state_at table.old at ≢ SlotState.LetGo }
    requires spare { 1 ≤ table.old.spare }
    requires free { 1 ≤ free_blocks table.old }
    ensures same { state_at table.old at ≡ SlotState.Dirty → result ≡ at }
    ensures table { state_at table.old at ≡ SlotState.Dirty → table.new ≡ table.old }
    ensures copied { state_at table.old at ≢ SlotState.Dirty → IsCopied table.old table.new at.0 result.0 }
    ensures dirty { state_at table.new result ≡ SlotState.Dirty }
    ensures bytes { (slot_at table.new result).bytes ≡ (slot_at table.old at).bytes }
    ensures others { IsSameBut table.old table.new (at.0 ∷ result.0 ∷ []) }
{
    if table.state(at) == SlotState::Dirty {
        return at;
    }
    copy_out(table, at)
}

/// Makes an empty leaf of a Free block that a volume may use, and answers its byte address.
pub fn new_leaf(table: &mut BlockTable) -> Addr
    requires spare { 1 ≤ table.old.spare }
    requires free { 1 ≤ free_blocks table.old }
    ensures items { leaf_at table.new result.0 ≡ [] }
    ensures leaf { IsDirtyLeaf table.new result.0 }
    ensures taken { IsTakenAt table.old table.new result.0 }
    ensures others { IsSameBut table.old table.new (result.0 ∷ []) }
    ensures spare { table.new.spare + 1 ≡ table.old.spare }
    ensures free { free_blocks table.new + 1 ≡ free_blocks table.old }
{
    let mut bytes = [0; 4096];
    clear_leaf(&mut bytes);
    fresh(table, &bytes)
}

/// Makes a node of two pointers of a Free block that a volume may use, and answers its byte address.
pub fn new_node(table: &mut BlockTable, first: Child, second: Child) -> Addr
    requires order { KeyBelow first.key second.key }
    requires spare { 1 ≤ table.old.spare }
    requires free { 1 ≤ free_blocks table.old }
    ensures pointers { node_at table.new result.0 ≡ pointer_to first ∷ pointer_to second ∷ [] }
    ensures node { IsDirtyNode table.new result.0 }
    ensures taken { IsTakenAt table.old table.new result.0 }
    ensures others { IsSameBut table.old table.new (result.0 ∷ []) }
    ensures spare { table.new.spare + 1 ≡ table.old.spare }
    ensures free { free_blocks table.new + 1 ≡ free_blocks table.old }
{
    let mut bytes = [0; 4096];
    put_two(&mut bytes, first, second);
    fresh(table, &bytes)
}
