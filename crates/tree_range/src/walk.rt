ghost use Rattle.std.specs.Prelude.{◌≡◌, List};
ghost use Rattle.std.specs.Iterator.{YieldsFirstBy, item_count};
ghost use Rattle.blk_base.specs.Keys.{key_below};
ghost use Rattle.tree_range.specs.Shape.{IsTree, tree_items};
ghost use Rattle.tree_range.specs.Between.{item_view, items_between};

use crate::spot::{Spot, item_spot, spot_from};
use blk_base::Key;
use block_table::{BlockTable, Tree};
use leaf_view::LeafView;
use std::marker::Model;

/// The items of a tree from one key to another, both included, by rising keys: an iterator over the key of each, and its
/// data, which is a part of a block.
///
/// It keeps the place of the next item in its leaf. Where a leaf ends it goes down from the root by the next leaf's first
/// key (own).
#[derive(Drop)]
pub struct Range<'t> {
    table: &'t BlockTable,
    tree: Tree,
    spot: Spot,
    last: Key,
}

impl<'t> Model for Range<'t> {
    ghost use Rattle.std.specs.Prelude.{List};
    ghost use Rattle.blk_base.specs.Leaf.{Item};
    ghost use Rattle.tree_range.specs.Shape.{IsTree};
    ghost use Rattle.tree_range.specs.Between.{items_up_to};
    ghost use Rattle.tree_range.specs.Spot.{IsSpot, spot_items};

    ghost Value = { List Item };

    ghost view = { λ r. items_up_to r.last (spot_items r.table.now r.tree r.spot) };

    ghost invariant = { λ r. IsTree r.table.now r.tree × IsSpot r.table.now r.tree r.spot };
}

impl<'t> Range<'t> {
    /// The items from one key to another.
    pub(crate) fn from_key(table: &'t BlockTable, tree: &Tree, first: &Key, last: &Key) -> Range<'t>
        requires { IsTree table.now tree.now }
        ensures { result ≡ items_between first.now last.now (tree_items table.now tree.now) }
    {
        Range {
            table,
            tree: *tree,
            spot: spot_from(table, tree, first),
            last: *last,
        }
    }
}

impl<'t> Iterator for Range<'t> {
    type Item = (Key, &'t [u8]);

    ghost next_gives = { YieldsFirstBy item_view (λ items. items) };

    ghost remaining = { item_count (λ items. items) };

    fn next(&mut self) -> Option<(Key, &'t [u8])> {
        let spot = item_spot(self.table, &self.tree, self.spot)?;
        let leaf = LeafView::of_body(self.table.block(spot.leaf));
        let key = leaf.key(spot.place);
        if is_above(&key, &self.last) {
            return None;
        }
        self.spot = Spot {
            place: spot.place + 1,
            ..spot
        };
        Some((key, leaf.data(spot.place)))
    }
}

/// Whether a key is above the last one.
fn is_above(key: &Key, last: &Key) -> bool
    ensures { result ≡ key_below last.now key.now }
{
    last < key
}
