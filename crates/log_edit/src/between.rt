ghost use Rattle.std.specs.Prelude.{◌≡◌, ◌+◌, ℕ, List};
ghost use Rattle.blk_base.specs.Trees.{first_key};
ghost use Rattle.block_table.specs.TreeIn.{IsSealedTree};
ghost use Rattle.tree_range.specs.Between.{items_between};
ghost use Rattle.tree_range.specs.Shape.{IsTree, tree_items, tree_reach};
ghost use Rattle.tree_frame.specs.Frame.{AreCurrent, IsEdit};
ghost use Rattle.tree_delete_range.specs.Outside.{items_outside};
ghost use Rattle.log_edit.specs.Room.{HasRoomFor, count_between, room_of_tree, spare_of_tree};

use crate::edit::delete_item;
use blk_base::Key;
use block_table::{BlockTable, Tree};
use tree_range::range;

/// The key of the first item from `first` to `last`, both included; `None` where the tree has none (own).
fn first_between(table: &BlockTable, tree: &Tree, first: &Key, last: &Key) -> Option<Key>
    requires { IsTree table.now tree.now }
    ensures { result ≡ first_key (items_between first.now last.now (tree_items table.now tree.now)) }
{
    match range(table, tree, first, last).next() {
        Some((key, _)) => Some(key),
        None => None,
    }
}

/// Takes the items whose keys are from `first` to `last`, both included, out of a tree, one by one, so that it takes 17
/// blocks at a time at most (own). The tree's room is for so many items more then.
pub fn delete_items(table: &mut BlockTable, tree: &mut Tree, first: &Key, last: &Key)
    requires tree { IsTree table.old tree.old }
    requires current { AreCurrent table.old (tree_reach table.old tree.old) }
    requires room { HasRoomFor table.old tree.old 0 }
    ensures tree { IsTree table.new tree.new }
    ensures items { tree_items table.new tree.new ≡ items_outside first.now last.now (tree_items table.old tree.old) }
    ensures owner { tree.new.owner ≡ tree.old.owner }
    ensures edit { IsEdit table.old table.new (tree_reach table.old tree.old) (tree_reach table.new tree.new) }
    ensures current { AreCurrent table.new (tree_reach table.new tree.new) }
    ensures sealed { (fsid : List ℕ) (was : ℕ) → IsSealedTree table.old tree.old fsid was → (now : ℕ) × IsSealedTree table.new tree.new fsid now }
    ensures blocks { room_of_tree table.new tree.new ≡ room_of_tree table.old tree.old }
    ensures buffers { spare_of_tree table.new tree.new ≡ spare_of_tree table.old tree.old }
    ensures room { (was : ℕ) → HasRoomFor table.old tree.old was → HasRoomFor table.new tree.new (was + count_between first.now last.now table.old tree.old) }
{
    while let Some(key) = first_between(table, tree, first, last) {
        delete_item(table, tree, &key);
    }
}
