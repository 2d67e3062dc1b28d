//! The blocks of a tree go, children before their parent, which has their addresses.
ghost use Rattle.std.specs.Prelude.{Bool, length};
ghost use Rattle.blk_base.specs.Trees.{NoneTwice};
ghost use Rattle.tree_range.specs.Shape.{IsSubtree, IsTree, reach_below, tree_reach};
ghost use Rattle.tree_frame.specs.Frame.{AreCurrent};
ghost use Rattle.table_commit.specs.Commit.{AreLetGo, AreReleasable, AreReleased};

use blk_base::Addr;
use block_table::{BlockTable, Tree};
use tree_blocks::{node_child, node_len};

/// Lets each block of a tree go: a Dirty one is Free, and gives its buffer back, and another one is LetGo (own).
pub fn let_go_tree(table: &mut BlockTable, tree: &Tree)
    requires tree { IsTree table.old tree.now }
    requires current { AreCurrent table.old (tree_reach table.old tree.now) }
    ensures { AreLetGo table.old table.new (tree_reach table.old tree.now) }
{
    let_go_below(table, tree.level, tree.root);
}

/// Makes each block of a tree Free whose blocks were all let go, which gives their buffers back (own).
pub fn release_tree(table: &mut BlockTable, tree: &Tree)
    requires tree { IsTree table.old tree.now }
    requires ready { AreReleasable table.old (tree_reach table.old tree.now) }
    ensures { AreReleased table.old table.new (tree_reach table.old tree.now) (length (tree_reach table.old tree.now)) }
{
    release_below(table, tree.level, tree.root);
}

/// Lets a block and those below it go.
fn let_go_below(table: &mut BlockTable, level: u8, at: Addr)
    requires shape { (is_root : Bool) × IsSubtree level table.old is_root at.0 }
    requires current { AreCurrent table.old (reach_below level table.old at.0) }
    requires once { NoneTwice (reach_below level table.old at.0) }
    ensures { AreLetGo table.old table.new (reach_below level table.old at.0) }
{
    if level == 0 {
        table.let_go(at);
        return;
    }
    for place in 0..node_len(table, at) {
        let (child, _) = node_child(table, at, place);
        let_go_below(table, level - 1, child);
    }
    table.let_go(at);
}

/// Makes a block and those below it Free.
fn release_below(table: &mut BlockTable, level: u8, at: Addr)
    requires shape { (is_root : Bool) × IsSubtree level table.old is_root at.0 }
    requires ready { AreReleasable table.old (reach_below level table.old at.0) }
    requires once { NoneTwice (reach_below level table.old at.0) }
    ensures { AreReleased table.old table.new (reach_below level table.old at.0) (length (reach_below level table.old at.0)) }
{
    if level == 0 {
        table.release(at);
        return;
    }
    for place in 0..node_len(table, at) {
        let (child, _) = node_child(table, at, place);
        release_below(table, level - 1, child);
    }
    table.release(at);
}
