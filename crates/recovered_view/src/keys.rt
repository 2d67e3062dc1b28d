//! The keys of a log's items fit their fields, since they are read from bytes.
ghost use Rattle.std.specs.Prelude.{◌≡◌, Bool, List, Ok, IsOk};
ghost use Rattle.blk_base.specs.Leaf.{Item, leaf_body_of};
ghost use Rattle.tree_check.specs.Items.{HaveKeys};
ghost use Rattle.tree_range.specs.Shape.{IsSubtree, items_below};
ghost use Rattle.recovered_view.specs.Log.{HasKeys, Stands};

use blk_base::{Addr, Block};
use block_table::{BlockTable, Tree};
use leaf_view::{LeafView, NodeView};

/// Reads the leaf in a block: its keys are numbers of their bytes ("Key").
fn read_leaf(block: &Block)
    requires { IsOk (leaf_body_of block.now) }
    ensures { (leaf : List Item) → leaf_body_of block.now ≡ Ok leaf → HaveKeys leaf }
{
    // It shows that the block is bytes.
    let _leaf = LeafView::of_body(block);
}

/// Reads the leaves below a block on this level.
fn read_below(table: &BlockTable, level: u8, at: Addr)
    requires { (is_root : Bool) × IsSubtree level table.now is_root at.0 }
    ensures { HaveKeys (items_below level table.now at.0) }
{
    let block = table.block(at);
    if level == 0 {
        read_leaf(block);
        return;
    }
    let node = NodeView::of_body(block);
    for place in 0..node.len() {
        read_below(table, level - 1, node.child(place).0);
    }
}

/// Reads each block of a log tree once, where there is one; without memory (own).
pub(crate) fn read_keys(table: &BlockTable, log: Option<Tree>)
    requires { Stands table.now log }
    ensures { HasKeys table.now log }
{
    if let Some(tree) = log {
        read_below(table, tree.level, tree.root);
    }
}
