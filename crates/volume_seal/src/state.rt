//! One tree, with its files' data.
ghost use Rattle.std.specs.Prelude.{◌≡◌, ◌≤◌, ◌+◌, All, length};
ghost use Rattle.blk_base.specs.Trees.{NoneTwice};
ghost use Rattle.block_table.specs.TreeIn.{IsTaken};
ghost use Rattle.tree_range.specs.Shape.{IsTree};
ghost use Rattle.table_volume.specs.Gives.{sub_reach, tree_data};
ghost use Rattle.volume_seal.specs.Sealed.{IsPartSealed, IsReady, IsWhole};

use crate::data::seal_data_below;
use block_table::{BlockTable, Blocks, Tree};
use tree_seal::seal_tree;

/// Seals a tree, and the Dirty data blocks of its files.
pub(crate) fn seal_with_data(
    table: &mut BlockTable,
    tree: &Tree,
    fsid: &[u8; 16],
    generation: u64,
    out: &mut Blocks,
)
    requires tree { IsTree table.old tree.now }
    requires taken { All (IsTaken table.old) (tree_data table.old tree.now) }
    requires once { NoneTwice (sub_reach table.old tree.now) }
    requires ready { IsReady table.old tree.now fsid.now }
    requires lent { out.old.room ≡ length table.old.slots }
    requires room { length out.old.pairs + length (sub_reach table.old tree.now) ≤ length table.old.slots }
    ensures whole { IsWhole table.old table.new tree.now fsid.now }
    ensures sealed { IsPartSealed table.old table.new (sub_reach table.old tree.now) out.old out.new }
{
    seal_tree(table, tree, fsid, generation, out);
    seal_data_below(table, tree.level, tree.root, out);
}
