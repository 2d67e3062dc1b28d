//! A node over two leaves, written over a Dirty block.
ghost use Rattle.std.specs.Prelude.{◌≡◌, ◌∷◌, [], Ok};
ghost use Rattle.blk_base.specs.Keys.{KeyBelow};
ghost use Rattle.blk_base.specs.Leaf.{node_body_of};
ghost use Rattle.block_table.specs.declared.state.SlotState.{SlotState};
ghost use Rattle.block_table.specs.Table.{state_at};
ghost use Rattle.tree_blocks.specs.Lists.{pointer_to};
ghost use Rattle.tree_blocks.specs.Steps.{IsDirtyNode, node_at};
ghost use Rattle.log_root.specs.Built.{IsRewritten};

use blk_base::{Addr, Block};
use block_table::BlockTable;
use node_edit::NodeMut;
use tree_blocks::Child;

/// Makes the body that of a node with two pointers.
fn put_two(block: &mut Block, first: Child, second: Child)
    requires { KeyBelow first.key second.key }
    ensures { node_body_of block.new ≡ Ok (pointer_to first ∷ pointer_to second ∷ []) }
{
    let mut node = NodeMut::empty(block);
    node.insert(0, first.key, first.at, first.generation);
    node.insert(1, second.key, second.at, second.generation);
}

/// Makes a Dirty block a node of two pointers, whatever it held.
pub(crate) fn write_node(table: &mut BlockTable, at: Addr, first: Child, second: Child)
    requires order { KeyBelow first.key second.key }
    requires dirty { state_at table.old at ≡ SlotState.Dirty }
    ensures pointers { node_at table.new at.0 ≡ pointer_to first ∷ pointer_to second ∷ [] }
    ensures node { IsDirtyNode table.new at.0 }
    ensures written { IsRewritten table.old table.new at.0 }
{
    put_two(table.block_mut(at), first, second);
}
