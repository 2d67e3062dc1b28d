//! What an edit of one subvolume's blocks leaves of the others: the functions here have no parameters and no body.

ghost use Rattle.std.specs.Prelude.{◌≡◌, ◌≢◌, ℕ, List, ◌∷◌, ◌++◌, Contains};
ghost use Rattle.std.specs.FinMap.{insert};
ghost use Rattle.flat_model.specs.Volume.{RunSub, RunVolume, Subvolume};
ghost use Rattle.block_table.specs.declared.state.SlotState.TheVariants.{Dirty};
ghost use Rattle.block_table.specs.declared.tree.SubState.{SubState};
ghost use Rattle.block_table.specs.declared.tree.Tree.{Tree};
ghost use Rattle.block_table.specs.Table.{Table};
ghost use Rattle.block_table.specs.TreeIn.{block_at};
ghost use Rattle.tree_range.specs.Shape.{AreAlike};
ghost use Rattle.tree_frame.specs.Frame.{IsEdit};
ghost use Rattle.table_volume.specs.Gives.{AreAccounted, GivesSubvolume, sub_reach};
ghost use Rattle.table_volume.specs.Running.{GiveVolume, GivesRun, id_of};

/// An edit keeps what every other tree gives of which no Dirty block is one of the edited ones, as a committed tree has
/// none: the tree gives the same subvolume, and has the same blocks.
pub fn an_edit_keeps_another_subvolume()
    ensures gives { (old new : Table) (before after : List ℕ) (tree : Tree) (sub : Subvolume) → IsEdit old new before after → GivesSubvolume old tree sub
        → ((at : ℕ) → Contains (sub_reach old tree) at → Contains before at → (block_at old at).state ≢ Dirty) → GivesSubvolume new tree sub }
    ensures reach { (old new : Table) (before after : List ℕ) (tree : Tree) (sub : Subvolume) → IsEdit old new before after → GivesSubvolume old tree sub
        → ((at : ℕ) → Contains (sub_reach old tree) at → Contains before at → (block_at old at).state ≢ Dirty) → sub_reach new tree ≡ sub_reach old tree }
{}

/// An edit keeps what another current state gives that has none of the edited blocks: each of its blocks stays as it was
///.
pub fn an_edit_keeps_another_state()
    ensures gives { (old new : Table) (before after : List ℕ) (state : SubState) (run : RunSub) → IsEdit old new before after → GivesRun old state run
        → ((at : ℕ) → Contains (sub_reach old state.tree) at → Contains before at → ⊥) → GivesRun new state run }
    ensures alike { (old new : Table) (before after : List ℕ) (state : SubState) (run : RunSub) → IsEdit old new before after → GivesRun old state run
        → ((at : ℕ) → Contains (sub_reach old state.tree) at → Contains before at → ⊥) → AreAlike old new (sub_reach old state.tree) }
    ensures reach { (old new : Table) (before after : List ℕ) (state : SubState) (run : RunSub) → IsEdit old new before after → GivesRun old state run
        → ((at : ℕ) → Contains (sub_reach old state.tree) at → Contains before at → ⊥) → sub_reach new state.tree ≡ sub_reach old state.tree }
{}

/// Where an edit of one subvolume's blocks makes another subvolume of it, the states give the volume with that one in its
/// place.
pub fn an_edit_of_one_is_of_the_volume()
    ensures { (old new : Table) (lefts rights : List SubState) (before after : SubState) (run : RunVolume) (next : RunSub)
        → GiveVolume old (lefts ++ before ∷ rights) run → IsEdit old new (sub_reach old before.tree) (sub_reach new after.tree)
        → id_of after ≡ id_of before → GivesRun new after next → GiveVolume new (lefts ++ after ∷ rights) (insert run (id_of before) next) }
{}

/// An edit loses no block: where each block that has a buffer and wasn't let go is one of a list, so it is afterwards with
/// the blocks after the edit in place of those before it.
pub fn an_edit_loses_no_block()
    ensures { (old new : Table) (before after reach further : List ℕ) → IsEdit old new before after → AreAccounted old reach
        → ((at : ℕ) → Contains reach at → (Contains before at → ⊥) → Contains further at) → ((at : ℕ) → Contains after at → Contains further at)
        → AreAccounted new further }
{}
