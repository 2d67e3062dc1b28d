//! Laws of edits: the functions here have no parameters and no body.

ghost use Rattle.std.specs.Prelude.{◌≢◌, ◌⊎◌, ◌↔◌, ℕ, List, ◌∷◌, ◌++◌, All, Contains};
ghost use Rattle.block_table.specs.declared.state.SlotState.TheVariants.{Free};
ghost use Rattle.block_table.specs.Table.{Table};
ghost use Rattle.blk_base.specs.Trees.{NoneTwice};
ghost use Rattle.block_table.specs.TreeIn.{IsTaken, block_at};
ghost use Rattle.tree_range.specs.Shape.{AreAlike};
ghost use Rattle.tree_frame.specs.Frame.{AreCurrent, IsEdit};

/// One edit behind another is an edit (own).
pub fn edits_join()
    ensures { (t0 t1 t2 : Table) (before middle after : List ℕ) → IsEdit t0 t1 before middle → IsEdit t1 t2 middle after → IsEdit t0 t2 before after }
{}

/// A table that stays has an edit of every tree that stays (own).
pub fn nothing_is_an_edit()
    ensures { (table : Table) (reach : List ℕ) → IsEdit table table reach reach }
{}

/// An edit depends on the members of its two lists alone, not on their order or number (own).
pub fn edits_by_membership()
    ensures { (old new : Table) (before after before' after' : List ℕ) → ((at : ℕ) → Contains before' at ↔ Contains before at) → ((at : ℕ) → Contains after' at ↔ Contains after at) → IsEdit old new before after → IsEdit old new before' after' }
{}

/// An edit is also one of a tree that has more blocks, where these aren't Free and not of the edited part (own).
pub fn an_edit_keeps_more()
    ensures { (old new : Table) (before after extra before' after' : List ℕ) → IsEdit old new before after → ((at : ℕ) → Contains extra at → (Contains before at → ⊥) × ((block_at old at).state ≢ Free)) → ((at : ℕ) → Contains before' at ↔ (Contains before at ⊎ Contains extra at)) → ((at : ℕ) → Contains after' at ↔ (Contains after at ⊎ Contains extra at)) → IsEdit old new before' after' }
{}

/// An edit below a child of a node is one of the node, whose other blocks stay as they were, and none stands twice
/// afterwards (own).
pub fn an_edit_below_a_node()
    ensures edit { (old new : Table) (node : ℕ) (lefts before after rights : List ℕ) → IsEdit old new before after → NoneTwice (node ∷ (lefts ++ (before ++ rights))) → All (IsTaken old) (node ∷ (lefts ++ (before ++ rights))) → IsEdit old new (node ∷ (lefts ++ (before ++ rights))) (node ∷ (lefts ++ (after ++ rights))) }
    ensures once { (old new : Table) (node : ℕ) (lefts before after rights : List ℕ) → IsEdit old new before after → NoneTwice (node ∷ (lefts ++ (before ++ rights))) → All (IsTaken old) (node ∷ (lefts ++ (before ++ rights))) → NoneTwice after → NoneTwice (node ∷ (lefts ++ (after ++ rights))) }
    ensures lefts { (old new : Table) (node : ℕ) (lefts before after rights : List ℕ) → IsEdit old new before after → NoneTwice (node ∷ (lefts ++ (before ++ rights))) → All (IsTaken old) (node ∷ (lefts ++ (before ++ rights))) → AreAlike old new (node ∷ lefts) }
    ensures rights { (old new : Table) (node : ℕ) (lefts before after rights : List ℕ) → IsEdit old new before after → NoneTwice (node ∷ (lefts ++ (before ++ rights))) → All (IsTaken old) (node ∷ (lefts ++ (before ++ rights))) → AreAlike old new rights }
{}

/// An edit of a current tree leaves a current tree: its new blocks are Dirty (own).
pub fn an_edit_stays_current()
    ensures { (old new : Table) (before after : List ℕ) → IsEdit old new before after → AreCurrent old before → AreCurrent new after }
{}
