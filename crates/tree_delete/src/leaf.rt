ghost use Rattle.std.specs.Prelude.{◌≡◌, ◌≢◌, ◌≤◌, ◌+◌, ◌∷◌, [], length, true, false, All, IsSome};
ghost use Rattle.std.specs.List.{flat_map};
ghost use Rattle.block_table.specs.declared.state.SlotState.{SlotState};
ghost use Rattle.block_table.specs.Table.{free_blocks, state_at};
ghost use Rattle.blk_base.specs.Trees.{ItemsRise};
ghost use Rattle.block_table.specs.TreeIn.{block_at};
ghost use Rattle.tree_range.specs.Shape.{IsSubtree, leaf_items};
ghost use Rattle.tree_range.specs.Between.{data_under};
ghost use Rattle.tree_frame.specs.Frame.{IsEdit, TakesAtMost, without_item};
ghost use Rattle.tree_delete.specs.Balance.{AreBalanced};
ghost use Rattle.tree_delete.specs.Rows.{kept_of};

use blk_base::{Addr, Key};
use block_table::BlockTable;
use tree_blocks::{leaf_find, leaf_len, leaf_remove, own};

/// Takes the item under a key out of a leaf, which may be left empty, and answers where the leaf stands then.
pub(crate) fn delete_in_leaf(table: &mut BlockTable, at: Addr, key: &Key) -> Addr
    requires leaf { IsSubtree 0 table.old true at.0 }
    requires current { state_at table.old at ≢ SlotState.LetGo }
    requires rises { ItemsRise (leaf_items table.old at.0) }
    requires present { IsSome (data_under key.now (leaf_items table.old at.0)) }
    requires spare { 1 ≤ table.old.spare }
    requires free { 1 ≤ free_blocks table.old }
    ensures leaf { IsSubtree 0 table.new true result.0 }
    ensures items { leaf_items table.new result.0 ≡ without_item key.now (leaf_items table.old at.0) }
    ensures count { length (leaf_items table.new result.0) + 1 ≡ length (leaf_items table.old at.0) }
    ensures dirty { state_at table.new result ≡ SlotState.Dirty }
    ensures edit { IsEdit table.old table.new (at.0 ∷ []) (result.0 ∷ []) }
    ensures blocks { TakesAtMost table.old table.new 1 }
    ensures balance { AreBalanced table.old table.new }
{
    let copy = own(table, at);
    match leaf_find(table, copy, key) {
        Ok(place) => {
            leaf_remove(table, copy, place);
            copy
        }
        Err(_) => unreachable!(),
    }
}

/// Takes the item under a key out of a leaf that isn't the root. A leaf whose only item goes is let go, and there is none.
pub(crate) fn shrink_leaf(table: &mut BlockTable, at: Addr, key: &Key) -> Option<Addr>
    requires leaf { IsSubtree 0 table.old true at.0 }
    requires current { state_at table.old at ≢ SlotState.LetGo }
    requires rises { ItemsRise (leaf_items table.old at.0) }
    requires present { IsSome (data_under key.now (leaf_items table.old at.0)) }
    requires spare { 1 ≤ table.old.spare }
    requires free { 1 ≤ free_blocks table.old }
    ensures leaf { All (IsSubtree 0 table.new false) (kept_of result) }
    ensures items { flat_map (leaf_items table.new) (kept_of result) ≡ without_item key.now (leaf_items table.old at.0) }
    ensures dirty { All (λ kept. (block_at table.new kept).state ≡ SlotState.Dirty) (kept_of result) }
    ensures edit { IsEdit table.old table.new (at.0 ∷ []) (kept_of result) }
    ensures blocks { TakesAtMost table.old table.new (length (kept_of result)) }
    ensures balance { AreBalanced table.old table.new }
{
    if leaf_len(table, at) == 1 {
        table.let_go(at);
        return None;
    }
    Some(delete_in_leaf(table, at, key))
}
