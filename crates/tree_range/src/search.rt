ghost use Rattle.std.specs.Prelude.{◌≡◌, ◌↔◌, IfSome, IsSome};
ghost use Rattle.tree_range.specs.Shape.{IsTree, leaf_items, tree_items};
ghost use Rattle.tree_range.specs.Between.{data_under, data_view, items_between};
ghost use Rattle.tree_range.specs.Path.{IsLeafOf};

use crate::descent::leaf_for;
use crate::walk::Range;
use blk_base::{Addr, Key};
use block_table::{BlockTable, Tree};
use leaf_view::LeafView;

/// The byte address of the leaf of a tree that has an item under a key; `None` where the tree has none (btrfs_search_slot
/// of fs/btrfs/ctree.c).
pub fn leaf_at(table: &BlockTable, tree: &Tree, key: &Key) -> Option<Addr>
    requires { IsTree table.now tree.now }
    ensures leaf { IfSome result (λ at. IsLeafOf table.now tree.now at.0) }
    ensures found { IfSome result (λ at. IsSome (data_under key.now (leaf_items table.now at.0))) }
    ensures exact { IsSome result ↔ IsSome (data_under key.now (tree_items table.now tree.now)) }
{
    let at = leaf_for(table, tree, key).at;
    let leaf = LeafView::of_body(table.block(at));
    match leaf.find(key) {
        Ok(_) => Some(at),
        Err(_) => None,
    }
}

/// The data of a tree's item under a key, 0 to 3970 bytes of a block; `None` where the tree has none (btrfs_search_slot
/// of fs/btrfs/ctree.c).
pub fn get<'t>(table: &'t BlockTable, tree: &Tree, key: &Key) -> Option<&'t [u8]>
    requires { IsTree table.now tree.now }
    ensures { data_view result ≡ data_under key.now (tree_items table.now tree.now) }
{
    let leaf = LeafView::of_body(table.block(leaf_for(table, tree, key).at));
    match leaf.find(key) {
        Ok(place) => Some(leaf.data(place)),
        Err(_) => None,
    }
}

/// The items of a tree whose keys are from `first` to `last`, both included.
pub fn range<'t>(table: &'t BlockTable, tree: &Tree, first: &Key, last: &Key) -> Range<'t>
    requires { IsTree table.now tree.now }
    ensures { result ≡ items_between first.now last.now (tree_items table.now tree.now) }
{
    Range::from_key(table, tree, first, last)
}
