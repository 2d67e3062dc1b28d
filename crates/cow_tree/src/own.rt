ghost use Rattle.std.specs.Prelude.{◌≡◌, ◌≢◌, ◌≤◌, ◌∷◌, []};
ghost use Rattle.block_table.specs.declared.state.SlotState.{SlotState};
ghost use Rattle.block_table.specs.Table.{free_blocks, state_at};
ghost use Rattle.block_table.specs.TreeIn.{block_at};
ghost use Rattle.cow_tree.specs.Change.{IsChange};

use blk_base::Addr;
use block_table::BlockTable;
use tree_blocks::own;

/// Makes a block of a tree one that may be edited.
pub(crate) fn own_block(table: &mut BlockTable, at: Addr) -> Addr
    requires taken { state_at table.old at ≢ SlotState.Free }
    requires current { state_at table.old at ≢ SlotState.LetGo }
    requires spare { 1 ≤ table.old.spare }
    requires free { 1 ≤ free_blocks table.old }
    ensures dirty { (block_at table.new result.0).state ≡ SlotState.Dirty }
    ensures bytes { (block_at table.new result.0).bytes ≡ (block_at table.old at.0).bytes }
    ensures changes { IsChange table.old table.new (at.0 ∷ []) (result.0 ∷ []) 1 }
{
    own(table, at)
}
