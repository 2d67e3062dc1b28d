//! The items of a tree, leaf by leaf.
ghost use Rattle.std.specs.Prelude.{◌≡◌, Bool, Some, List, Ok, IsOk, slice_get, ◌<◌, length, OnOk};
ghost use Rattle.blk_base.specs.Leaf.{Item, leaf_body_of};
ghost use Rattle.tree_range.specs.Shape.{IsSubtree, IsTree, items_below, tree_items};
ghost use Rattle.tree_check.specs.Items.{AreBytes, HaveKeys, items_answer, leaf_checked, leaves_below, leaves_checked};

use crate::fault::TreeFault;
use crate::item::{FileEnd, end_of, fault_behind};
use blk_base::{Addr, Block, Key};
use block_table::{BlockTable, Tree};
use leaf_view::{LeafView, NodeView};

/// The key and the data of the item at a place.
pub(crate) fn item_at<'a>(leaf: &LeafView<'a>, place: usize) -> (Key, &'a [u8])
    requires { place < length leaf.now }
    ensures { slice_get leaf.now place ≡ Some (result.0, result.1.now) }
{
    (leaf.key(place), leaf.data(place))
}

/// Checks the items of the leaf at a byte address, and answers where the last of them ends.
fn check_leaf(
    leaf: &LeafView<'_>,
    at: Addr,
    before: Option<FileEnd>,
) -> Result<Option<FileEnd>, TreeFault>
    ensures answer { result ≡ leaf_checked at before leaf.now }
    ensures bytes { OnOk result (AreBytes leaf.now) }
{
    let mut end = before;
    for place in 0..leaf.len() {
        let (key, bytes) = item_at(leaf, place);
        if let Some(fault) = fault_behind(end, &key, bytes) {
            return Err(TreeFault::Item(at, key, fault));
        }
        end = end_of(&key, bytes);
    }
    Ok(end)
}

/// Checks the items of the leaf in a block at a byte address, and answers where the last of them ends.
fn check_block(
    block: &Block,
    at: Addr,
    before: Option<FileEnd>,
) -> Result<Option<FileEnd>, TreeFault>
    requires { IsOk (leaf_body_of block.now) }
    ensures answer { (leaf : List Item) → leaf_body_of block.now ≡ Ok leaf → result ≡ leaf_checked at before leaf }
    ensures bytes { (leaf : List Item) → leaf_body_of block.now ≡ Ok leaf → OnOk result (AreBytes leaf) }
    ensures keys { (leaf : List Item) → leaf_body_of block.now ≡ Ok leaf → HaveKeys leaf }
{
    check_leaf(&LeafView::of_body(block), at, before)
}

/// Checks the items below a block on this level, and answers where the last of them ends.
fn check_below(
    table: &BlockTable,
    level: u8,
    at: Addr,
    before: Option<FileEnd>,
) -> Result<Option<FileEnd>, TreeFault>
    requires { (is_root : Bool) × IsSubtree level table.now is_root at.0 }
    ensures answer { result ≡ leaves_checked table.now before (leaves_below level table.now at.0) }
    ensures bytes { OnOk result (AreBytes (items_below level table.now at.0)) }
    ensures keys { OnOk result (HaveKeys (items_below level table.now at.0)) }
{
    let block = table.block(at);
    if level == 0 {
        return check_block(block, at, before);
    }
    let node = NodeView::of_body(block);
    let mut end = before;
    for place in 0..node.len() {
        end = check_below(table, level - 1, node.child(place).0, end)?;
    }
    Ok(end)
}

/// Checks the items of a tree ("Item Types" of the Btrfs on-disk format).
///
/// `Err`: `Item` with the first faulty item by rising keys and the byte address of the leaf that has it: the first check
/// that it fails by the grammar of its key's type, and then `Overlap` for an extent that begins below the end of the
/// extent before it in the same file. `Ok`: there is none, each key fits its fields, and each item's data are bytes. Takes no memory.
pub fn items(table: &BlockTable, tree: &Tree) -> Result<(), TreeFault>
    requires { IsTree table.now tree.now }
    ensures answer { result ≡ items_answer table.now tree.now }
    ensures bytes { OnOk result (AreBytes (tree_items table.now tree.now)) }
    ensures keys { OnOk result (HaveKeys (tree_items table.now tree.now)) }
{
    check_below(table, tree.level, tree.root, None)?;
    Ok(())
}
