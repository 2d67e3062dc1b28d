//! The checks of one block of a tree, and its place in the table.
ghost use Rattle.std.specs.Prelude.{◌≡◌, ◌≢◌, ◌-◌, ◌<◌, ◌/◌, ℕ, List, Bool, Some, None, Ok, Err, IfOk, IfErr, IsTrue, OnOk, ◌↔◌, false, length, slice_get, ◌≤◌, ◌∷◌, []};
ghost use Rattle.blk_base.specs.Address.{IsAllowed};
ghost use Rattle.blk_base.specs.Leaf.{Pointer};
ghost use Rattle.block_table.specs.declared.state.SlotState.{SlotState};
ghost use Rattle.block_table.specs.Table.{slot_at, state_at};
ghost use Rattle.disk_model.specs.Disk.{IfTold, HasCause};
ghost use Rattle.volume_image.specs.Tree.{Walked, block_of, child_want, entered, first_key, is_first_key, is_top, key_eq, least_items, least_pointers};
ghost use Rattle.tree_load.specs.Loaded.{AreTaken, IsLoad};
ghost use Rattle.tree_load.specs.Below.{EndsWith, IsLeafMet, IsLeafRefused, filled, is_above, last_key, node_filled};

use blk_base::format::MAX_LEVEL;
use blk_base::limits::{LEAST_POINTERS, LEAST_ROOT_POINTERS};
use blk_base::{Addr, Block, BlockFault, Key, OutOfMemory, Want};
use block_table::{BlockTable, SlotState};
use disk_model::{Disk, DiskFailed};
use leaf_view::{LeafView, NodeView};
use std::alloc::Global;
use volume_image::LoadFault;

/// Whether the block at a byte address is Free.
fn is_free(table: &BlockTable, at: Addr) -> bool
    ensures { IsTrue result ↔ (state_at table.now at ≡ SlotState.Free) }
{
    table.state(at) == SlotState::Free
}

/// The checks of a block's address: it is allowed, wasn't reached before, and the block is on a level up to 7.
pub(crate) fn enter(table: &BlockTable, want: &Want) -> Result<(), LoadFault>
    ensures checks { (before : Walked) → AreTaken table.now before.reached → result ≡ entered (length table.now.slots) want.now before (Ok tt) }
    ensures allowed { OnOk result (IsAllowed (length table.now.slots) want.now.at.0) }
    ensures free { OnOk result (state_at table.now want.now.at ≡ SlotState.Free) }
    ensures no_disk { IfErr result (λ fault. fault ≢ LoadFault.Disk) }
{
    if !table.is_allowed(want.at) {
        return Err(LoadFault::Outside(want.at));
    }
    if !is_free(table, want.at) {
        return Err(LoadFault::Twice(want.at));
    }
    if want.level > MAX_LEVEL {
        return Err(LoadFault::Level(want.at));
    }
    Ok(())
}

/// Whether two keys are one.
fn is_same_key(one: &Key, two: &Key) -> bool
    ensures { result ≡ key_eq one.now two.now }
{
    one.cmp(two).is_eq()
}

/// Whether a key is above the last one before it, where there is one.
fn is_above(last: Option<Key>, key: &Key) -> bool
    ensures { result ≡ is_above last key.now }
{
    match last {
        Some(last) => last < *key,
        None => true,
    }
}

/// Whether the first key of a block is that of the pointer to it, where there is one, and above all keys before it.
fn is_right_key(under: Option<Key>, last: Option<Key>, first: Option<Key>) -> bool
    ensures { (before : Walked) → EndsWith before last → result ≡ is_first_key under before.items first }
{
    let Some(key) = under else {
        return true;
    };
    match first {
        Some(found) => is_same_key(&found, &key) && is_above(last, &found),
        None => false,
    }
}

/// The checks of a block that has passed its own: it has enough in it, and the right first key.
fn check_filled(
    want: &Want,
    under: Option<Key>,
    last: Option<Key>,
    least: usize,
    count: usize,
    first: Option<Key>,
) -> Result<(), LoadFault>
    ensures checks { (before : Walked) → EndsWith before last → result ≡ filled want.now least count under before.items first }
    ensures no_disk { IfErr result (λ fault. fault ≢ LoadFault.Disk) }
{
    if count < least {
        return Err(LoadFault::Thin(want.at));
    }
    if !is_right_key(under, last, first) {
        return Err(LoadFault::Block(want.at, BlockFault::Order));
    }
    Ok(())
}

/// The least items of a leaf; a root, which has no pointer to it, may be empty.
fn least_items(under: Option<Key>) -> usize
    ensures { result ≡ least_items (is_top under) }
{
    if under.is_none() { 0 } else { 1 }
}

/// The least pointers of a node, as a root and else.
fn least_pointers(under: Option<Key>) -> usize
    ensures { result ≡ least_pointers (is_top under) }
{
    if under.is_none() {
        LEAST_ROOT_POINTERS
    } else {
        LEAST_POINTERS
    }
}

/// The first key of a leaf.
fn first_key_of(leaf: &LeafView<'_>) -> Option<Key>
    ensures { result ≡ first_key leaf.now }
{
    if leaf.is_empty() {
        None
    } else {
        Some(leaf.key(0))
    }
}

/// The last key of a leaf, and the one before it where it is empty.
fn last_key_of(leaf: &LeafView<'_>, last: Option<Key>) -> Option<Key>
    ensures { result ≡ last_key last leaf.now }
{
    let count = leaf.len();
    if count == 0 {
        last
    } else {
        Some(leaf.key(count - 1))
    }
}

/// The checks of a leaf; answers the last key met then.
pub(crate) fn check_leaf(
    block: &Block,
    want: &Want,
    under: Option<Key>,
    last: Option<Key>,
) -> Result<Option<Key>, LoadFault>
    ensures ok { IfOk result (IsLeafMet want.now block.now under last) }
    ensures err { IfErr result (IsLeafRefused want.now block.now under last) }
    ensures no_disk { IfErr result (λ fault. fault ≢ LoadFault.Disk) }
{
    let leaf = match LeafView::open(block, want) {
        Ok(leaf) => leaf,
        Err(fault) => return Err(LoadFault::Block(want.at, fault)),
    };
    let first = first_key_of(&leaf);
    check_filled(want, under, last, least_items(under), leaf.len(), first)?;
    Ok(last_key_of(&leaf, last))
}

/// The checks of a node that has passed its own.
pub(crate) fn check_node(
    node: &NodeView<'_>,
    want: &Want,
    under: Option<Key>,
    last: Option<Key>,
) -> Result<(), LoadFault>
    ensures checks { (before : Walked) → EndsWith before last → result ≡ node_filled want.now under before.items node.now }
    ensures no_disk { IfErr result (λ fault. fault ≢ LoadFault.Disk) }
{
    let count = node.len();
    let first = Some(node.key(0));
    check_filled(want, under, last, least_pointers(under), count, first)
}

/// What the child with this number is read with ("Internal Node" of the Btrfs on-disk format).
pub(crate) fn child_want(want: &Want, node: &NodeView<'_>, place: usize) -> Want
    requires inside { place < length node.now }
    requires level { 1 ≤ want.now.level }
    ensures value { (pointer : Pointer) → slice_get node.now place ≡ Some pointer → result ≡ child_want want.now pointer (want.now.level - 1) }
    ensures level { result.level < want.now.level }
{
    let (at, generation) = node.child(place);
    Want {
        fsid: want.fsid,
        at,
        generation,
        owner: want.owner,
        level: want.level - 1,
    }
}
