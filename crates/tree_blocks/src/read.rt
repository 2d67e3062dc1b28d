ghost use Rattle.std.specs.Prelude.{◌≡◌, ◌≢◌, ◌≤◌, ◌<◌, ◌+◌, ◌*◌, ◌++◌, length, slice_get, Some, IsTrue, ◌↔◌, IfOk, IfErr};
ghost use Rattle.blk_base.specs.Keys.{key_below, keys_rise};
ghost use Rattle.blk_base.specs.Leaf.{data_of, room_of};
ghost use Rattle.leaf_view.specs.Search.{keys_of, contents_of, pointer_keys, children_of, IsPlace};
ghost use Rattle.leaf_edit.specs.Written.{data_at};
ghost use Rattle.block_table.specs.Table.{state_at};
ghost use Rattle.tree_blocks.specs.Steps.{IsLeafAt, IsNodeAt, leaf_at, node_at};

use blk_base::format::{ITEM_HEADER_SIZE, LEAF_BYTES, MOST_POINTERS};
use blk_base::{Addr, Key};
use block_table::{BlockTable, SlotState};
use leaf_edit::LeafMut;
use leaf_view::{LeafView, NodeView, is_leaf_body, is_node_body};

/// Whether a key is below another one.
fn is_below(key: Key, other: Key) -> bool
    ensures { result ≡ key_below key other }
{
    key < other
}

/// Whether the body of a block that isn't Free is a leaf's ("Leaf Node" of the on-disk format).
pub fn is_leaf(table: &BlockTable, at: Addr) -> bool
    requires { state_at table.now at ≢ SlotState.Free }
    ensures { IsTrue result ↔ IsLeafAt table.now at.0 }
{
    is_leaf_body(table.block(at))
}

/// Whether the body of a block that isn't Free is a node's ("Internal Node" of the on-disk format).
pub fn is_node(table: &BlockTable, at: Addr) -> bool
    requires { state_at table.now at ≢ SlotState.Free }
    ensures { IsTrue result ↔ IsNodeAt table.now at.0 }
{
    is_node_body(table.block(at))
}

/// The number of items of a leaf, at most 159.
pub fn leaf_len(table: &BlockTable, at: Addr) -> usize
    requires taken { state_at table.now at ≢ SlotState.Free }
    requires leaf { IsLeafAt table.now at.0 }
    ensures value { result ≡ length (leaf_at table.now at.0) }
    ensures most { result ≤ 159 }
{
    LeafView::of_body(table.block(at)).len()
}

/// How many bytes a leaf has left, of 3995, for item headers of 25 bytes and data.
pub fn leaf_room(table: &BlockTable, at: Addr) -> usize
    requires taken { state_at table.now at ≢ SlotState.Free }
    requires leaf { IsLeafAt table.now at.0 }
    ensures value { result ≡ room_of (leaf_at table.now at.0) }
    ensures fits { ITEM_HEADER_SIZE * length (leaf_at table.now at.0) + data_of (leaf_at table.now at.0) ≤ LEAF_BYTES }
{
    let mut copy = *table.block(at);
    LeafMut::edit(&mut copy).room()
}

/// The key of the item of a leaf at a place.
pub fn leaf_key(table: &BlockTable, at: Addr, place: usize) -> Key
    requires taken { state_at table.now at ≢ SlotState.Free }
    requires leaf { IsLeafAt table.now at.0 }
    requires within { place < length (leaf_at table.now at.0) }
    ensures { slice_get (keys_of (leaf_at table.now at.0)) place ≡ Some result }
{
    LeafView::of_body(table.block(at)).key(place)
}

/// The data of the item of a leaf at a place: 0 to 3970 bytes of the block.
pub fn leaf_data(table: &BlockTable, at: Addr, place: usize) -> &[u8]
    requires taken { state_at table.now at ≢ SlotState.Free }
    requires leaf { IsLeafAt table.now at.0 }
    requires within { place < length (leaf_at table.now at.0) }
    ensures value { result.now ≡ data_at (leaf_at table.now at.0) place }
    ensures listed { slice_get (contents_of (leaf_at table.now at.0)) place ≡ Some result.now }
{
    LeafView::of_body(table.block(at)).data(place)
}

/// Looks for a key in a leaf: `Ok` with its place, or `Err` with the place where it belongs, which is the number of
/// keys below it. A binary search.
pub fn leaf_find(table: &BlockTable, at: Addr, key: &Key) -> Result<usize, usize>
    requires taken { state_at table.now at ≢ SlotState.Free }
    requires leaf { IsLeafAt table.now at.0 }
    ensures found { IfOk result (λ place. slice_get (keys_of (leaf_at table.now at.0)) place ≡ Some key.now) }
    ensures absent { IfErr result (IsPlace (keys_of (leaf_at table.now at.0)) key.now) }
{
    LeafView::of_body(table.block(at)).find(key)
}

/// Whether the keys of a leaf and then those of another one rise, so that the leaves can be joined.
pub fn leaf_follows(table: &BlockTable, left: Addr, right: Addr) -> bool
    requires taken { state_at table.now left ≢ SlotState.Free }
    requires leaf { IsLeafAt table.now left.0 }
    requires other_taken { state_at table.now right ≢ SlotState.Free }
    requires other_leaf { IsLeafAt table.now right.0 }
    ensures { result ≡ keys_rise (keys_of (leaf_at table.now left.0 ++ leaf_at table.now right.0)) }
{
    let count = leaf_len(table, left);
    if count == 0 || leaf_len(table, right) == 0 {
        return true;
    }
    is_below(leaf_key(table, left, count - 1), leaf_key(table, right, 0))
}

/// The number of pointers of a node, 1 to 121.
pub fn node_len(table: &BlockTable, at: Addr) -> usize
    requires taken { state_at table.now at ≢ SlotState.Free }
    requires node { IsNodeAt table.now at.0 }
    ensures value { result ≡ length (node_at table.now at.0) }
    ensures least { 1 ≤ result }
    ensures most { result ≤ MOST_POINTERS }
{
    NodeView::of_body(table.block(at)).len()
}

/// The first key of the child of a node at a place.
pub fn node_key(table: &BlockTable, at: Addr, place: usize) -> Key
    requires taken { state_at table.now at ≢ SlotState.Free }
    requires node { IsNodeAt table.now at.0 }
    requires within { place < length (node_at table.now at.0) }
    ensures { slice_get (pointer_keys (node_at table.now at.0)) place ≡ Some result }
{
    NodeView::of_body(table.block(at)).key(place)
}

/// The byte address of the child of a node at a place, and the generation that its block has.
pub fn node_child(table: &BlockTable, at: Addr, place: usize) -> (Addr, u64)
    requires taken { state_at table.now at ≢ SlotState.Free }
    requires node { IsNodeAt table.now at.0 }
    requires within { place < length (node_at table.now at.0) }
    ensures { slice_get (children_of (node_at table.now at.0)) place ≡ Some (result.0.0, result.1) }
{
    NodeView::of_body(table.block(at)).child(place)
}

/// Looks for a key among the first keys of a node's children: `Ok` with its place, or `Err` with the place where it
/// belongs, which is the number of keys below it. A binary search.
pub fn node_find(table: &BlockTable, at: Addr, key: &Key) -> Result<usize, usize>
    requires taken { state_at table.now at ≢ SlotState.Free }
    requires node { IsNodeAt table.now at.0 }
    ensures found { IfOk result (λ place. slice_get (pointer_keys (node_at table.now at.0)) place ≡ Some key.now) }
    ensures absent { IfErr result (IsPlace (pointer_keys (node_at table.now at.0)) key.now) }
{
    NodeView::of_body(table.block(at)).find(key)
}

/// Whether the keys of a node and then those of another one rise, so that the nodes can be joined.
pub fn node_follows(table: &BlockTable, left: Addr, right: Addr) -> bool
    requires taken { state_at table.now left ≢ SlotState.Free }
    requires node { IsNodeAt table.now left.0 }
    requires other_taken { state_at table.now right ≢ SlotState.Free }
    requires other_node { IsNodeAt table.now right.0 }
    ensures { result ≡ keys_rise (pointer_keys (node_at table.now left.0 ++ node_at table.now right.0)) }
{
    let count = node_len(table, left);
    is_below(node_key(table, left, count - 1), node_key(table, right, 0))
}
