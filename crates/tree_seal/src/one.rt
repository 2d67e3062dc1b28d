ghost use Rattle.std.specs.Prelude.{◌≡◌, ◌<◌, ◌∷◌, [], length};
ghost use Rattle.blk_base.specs.Leaf.{HeaderFits};
ghost use Rattle.block_table.specs.declared.state.SlotState.{SlotState};
ghost use Rattle.block_table.specs.Blocks.{with_block};
ghost use Rattle.block_table.specs.Table.{slot_at, state_at};
ghost use Rattle.block_table.specs.TreeIn.{block_at};
ghost use Rattle.tree_blocks.specs.Steps.{IsSameBut};
ghost use Rattle.tree_seal.specs.Sealing.{HasSameBody, IsSealedOne};

use blk_base::Want;
use block_table::{BlockTable, Blocks, SlotState};
use leaf_edit::seal_block;

/// Gives a Dirty block its header and its sum, makes it Sealed, and puts a box with its bytes at the end of a list. Its
/// body stays as it is.
pub(crate) fn seal_one(table: &mut BlockTable, want: &Want, out: &mut Blocks)
    requires dirty { state_at table.old want.now.at ≡ SlotState.Dirty }
    requires lent { out.old.room ≡ length table.old.slots }
    requires room { length out.old.pairs < length table.old.slots }
    ensures block { IsSealedOne table.old table.new want.now }
    ensures others { IsSameBut table.old table.new (want.now.at.0 ∷ []) }
    ensures spare { table.new.spare ≡ table.old.spare }
    ensures out { out.new ≡ with_block out.old want.now.at (block_at table.new want.now.at.0).bytes }
{
    seal_block(table.block_mut(want.at), want);
    table.seal(want.at, out);
}
