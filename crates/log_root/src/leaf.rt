//! A leaf of root items of logs, written over a Dirty block.
ghost use Rattle.std.specs.Prelude.{◌≡◌, ◌≤◌, ◌<◌, ◌+◌, [], length, take, Ok, Some};
ghost use Rattle.blk_base.specs.Leaf.{leaf_body_of};
ghost use Rattle.blk_base.specs.Trees.{ItemsRise, first_key};
ghost use Rattle.block_table.specs.declared.state.SlotState.{SlotState};
ghost use Rattle.block_table.specs.Table.{state_at};
ghost use Rattle.tree_blocks.specs.Steps.{IsDirtyLeaf, leaf_at};
ghost use Rattle.log_root.specs.Built.{IsRewritten};
ghost use Rattle.log_root.specs.Entries.{log_entries, log_key};

use blk_base::format::{ROOT_ITEM, ROOT_ITEM_SIZE, TREE_LOG};
use blk_base::{Addr, Block, Key, SubId};
use block_table::BlockTable;
use leaf_edit::LeafMut;
use tree_blocks::leaf_insert;
use volume_format::RootItem;

/// So many root items of 439 bytes, with headers of 25, stand in a leaf's 3995 bytes ("Leaf Node" of the on-disk format).
pub(crate) const ROOTS_IN_LEAF: usize = 8;

/// The key of the root item of a subvolume's log ("ROOT_ITEM" of the on-disk format; "btrfs_sync_log" of
/// fs/btrfs/tree-log.c).
pub(crate) fn log_key(sub: SubId) -> Key
    ensures { result ≡ log_key sub.0 }
{
    Key {
        objectid: TREE_LOG,
        kind: ROOT_ITEM,
        offset: sub.0,
    }
}

/// The key of the first of some root items.
pub(crate) fn front_key(subs: &[(SubId, RootItem)]) -> Key
    requires { 1 ≤ length subs.now }
    ensures { first_key (log_entries subs.now) ≡ Some result }
{
    log_key(subs[0].0)
}

/// Makes the body that of an empty leaf.
fn clear_leaf(block: &mut Block)
    ensures { leaf_body_of block.new ≡ Ok [] }
{
    LeafMut::empty(block);
}

/// Makes a Dirty block an empty leaf, whatever it held.
fn clear(table: &mut BlockTable, at: Addr)
    requires dirty { state_at table.old at ≡ SlotState.Dirty }
    ensures items { leaf_at table.new at.0 ≡ [] }
    ensures leaf { IsDirtyLeaf table.new at.0 }
    ensures written { IsRewritten table.old table.new at.0 }
{
    clear_leaf(table.block_mut(at));
}

/// Puts a root item behind the others of a leaf, of which there are fewer than eight.
fn put_sub(table: &mut BlockTable, at: Addr, place: usize, subs: &[(SubId, RootItem)])
    requires within { place < length subs.now }
    requires few { place < ROOTS_IN_LEAF }
    requires rise { ItemsRise (log_entries subs.now) }
    requires leaf { IsDirtyLeaf table.old at.0 }
    requires before { leaf_at table.old at.0 ≡ log_entries (take place subs.now) }
    ensures items { leaf_at table.new at.0 ≡ log_entries (take (place + 1) subs.now) }
    ensures leaf { IsDirtyLeaf table.new at.0 }
    ensures written { IsRewritten table.old table.new at.0 }
{
    let (sub, root) = &subs[place];
    let mut bytes = [0; ROOT_ITEM_SIZE];
    root.encode(&mut bytes);
    leaf_insert(table, at, place, log_key(*sub), &bytes);
}

/// Makes a Dirty block a leaf of at most eight root items, whatever it held.
#[tactic(auto, using(crate::proofs::Filled::rewritten_twice))]
pub(crate) fn write_leaf(table: &mut BlockTable, at: Addr, subs: &[(SubId, RootItem)])
    requires few { length subs.now ≤ ROOTS_IN_LEAF }
    requires rise { ItemsRise (log_entries subs.now) }
    requires dirty { state_at table.old at ≡ SlotState.Dirty }
    ensures items { leaf_at table.new at.0 ≡ log_entries subs.now }
    ensures leaf { IsDirtyLeaf table.new at.0 }
    ensures written { IsRewritten table.old table.new at.0 }
{
    clear(table, at);
    for place in 0..subs.len() {
        put_sub(table, at, place, subs);
    }
}
