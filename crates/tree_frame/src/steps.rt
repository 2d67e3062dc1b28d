//! The steps of `tree_blocks`, and a block that is let go, are edits: the functions here have no parameters and no body.

ghost use Rattle.std.specs.Prelude.{◌≡◌, ◌≢◌, ◌+◌, ℕ, List, [], ◌∷◌, None};
ghost use Rattle.blk_base.specs.declared.key.Addr.{Addr};
ghost use Rattle.block_table.specs.declared.state.SlotState.TheVariants.{Free, Dirty, LetGo};
ghost use Rattle.block_table.specs.Slot.{free_slot};
ghost use Rattle.block_table.specs.Table.{Table, slot_at, state_at, with_slot, with_spare};
ghost use Rattle.block_table.specs.TreeIn.{block_at};
ghost use Rattle.tree_blocks.specs.Steps.{HasNewBytes, IsCopied, IsSameBut, IsTakenAt};
ghost use Rattle.tree_frame.specs.Frame.{IsEdit};

/// A block that isn't Dirty is copied: the copy takes its place (own).
pub fn copied_is_an_edit()
    ensures { (old new : Table) (at copy : ℕ) → IsCopied old new at copy → (block_at old at).state ≢ Dirty → IsEdit old new (at ∷ []) (copy ∷ []) }
{}

/// The bytes of a Dirty block change (own).
pub fn new_bytes_are_an_edit()
    ensures { (old new : Table) (at : ℕ) → (block_at old at).state ≡ Dirty → HasNewBytes old new at → IsSameBut old new (at ∷ []) → IsEdit old new (at ∷ []) (at ∷ []) }
{}

/// A Dirty block is split, and a new one stands behind it (own).
pub fn split_is_an_edit()
    ensures { (old new : Table) (at other : ℕ) → (block_at old at).state ≡ Dirty → HasNewBytes old new at → IsTakenAt old new other → IsSameBut old new (at ∷ other ∷ []) → IsEdit old new (at ∷ []) (at ∷ other ∷ []) }
{}

/// A Free block is taken (own).
pub fn taken_is_an_edit()
    ensures { (old new : Table) (at : ℕ) → IsTakenAt old new at → IsSameBut old new (at ∷ []) → IsEdit old new [] (at ∷ []) }
{}

/// Two Dirty blocks are joined, and the second one is Free (own).
pub fn join_is_an_edit()
    ensures { (old new : Table) (left right : ℕ) → (block_at old left).state ≡ Dirty → (block_at old right).state ≡ Dirty → HasNewBytes old new left → block_at new right ≡ free_slot → IsSameBut old new (left ∷ right ∷ []) → IsEdit old new (left ∷ right ∷ []) (left ∷ []) }
{}

/// A block is let go (`BlockTable::let_go`; own).
pub fn let_go_is_an_edit()
    ensures { (old new : Table) (at : Addr) → state_at old at ≢ Free → (state_at old at ≡ Dirty → new ≡ with_spare (with_slot old at free_slot) (old.spare + 1)) → (state_at old at ≢ Dirty → new ≡ with_slot old at (record (slot_at old at) { state = LetGo; stood = None })) → IsEdit old new (at.0 ∷ []) [] }
{}
