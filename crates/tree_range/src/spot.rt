ghost use Rattle.std.specs.Prelude.{◌≡◌, [], Some, MatchOption, Option};
ghost use Rattle.blk_base.specs.declared.key.Key.{Key};
ghost use Rattle.blk_base.specs.Keys.{KeyBelow};
ghost use Rattle.blk_base.specs.Trees.{ItemsRise};
ghost use Rattle.tree_range.specs.Shape.{IsTree, tree_items};
ghost use Rattle.tree_range.specs.Between.{items_from};
ghost use Rattle.tree_range.specs.Path.{IsStart};
ghost use Rattle.tree_range.specs.Spot.{IsItemSpot, IsSpot, spot_items};

use crate::descent::leaf_for;
use blk_base::{Addr, Key};
use block_table::{BlockTable, Tree};
use leaf_view::LeafView;

/// A place of an item in a leaf, from 0, or the leaf's end: the leaf's byte address, and the first key behind it in the
/// tree, where there is one (own).
#[derive(Clone, Copy)]
pub(crate) struct Spot {
    pub(crate) leaf: Addr,
    pub(crate) place: usize,
    pub(crate) next: Option<Key>,
}

/// The place of the first item of a leaf whose key isn't below a key; the leaf's end where there is none.
fn start_in(leaf: &LeafView<'_>, key: &Key) -> usize
    requires { ItemsRise leaf.now }
    ensures { IsStart leaf.now key.now result }
{
    match leaf.find(key) {
        Ok(place) => place,
        Err(place) => place,
    }
}

/// The place from which on a tree has the items whose keys aren't below a key.
pub(crate) fn spot_from(table: &BlockTable, tree: &Tree, key: &Key) -> Spot
    requires { IsTree table.now tree.now }
    ensures is { IsSpot table.now tree.now result }
    ensures items { spot_items table.now tree.now result ≡ items_from key.now (tree_items table.now tree.now) }
    ensures next { (next : Key) → result.next ≡ Some next → KeyBelow key.now next }
{
    let way = leaf_for(table, tree, key);
    let leaf = LeafView::of_body(table.block(way.at));
    Spot {
        leaf: way.at,
        place: start_in(&leaf, key),
        next: way.next,
    }
}

/// The place of the item there, which is in the next leaf where this one ends; `None` where no item is left.
pub(crate) fn item_spot(table: &BlockTable, tree: &Tree, spot: Spot) -> Option<Spot>
    requires tree { IsTree table.now tree.now }
    requires spot { IsSpot table.now tree.now spot }
    ensures { MatchOption result (spot_items table.now tree.now spot ≡ []) (IsItemSpot table.now tree.now (spot_items table.now tree.now spot)) }
{
    if spot.place < LeafView::of_body(table.block(spot.leaf)).len() {
        return Some(spot);
    }
    let next = spot.next?;
    Some(spot_from(table, tree, &next))
}
