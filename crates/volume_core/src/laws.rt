//! Which blocks of a volume are in use.
ghost use Rattle.std.specs.Prelude.{◌≡◌, ◌++◌, Contains, None, ℕ};
ghost use Rattle.block_table.specs.declared.state.SlotState.TheVariants.{LetGo};
ghost use Rattle.block_table.specs.TreeIn.{block_at};
ghost use Rattle.commit_blocks.specs.Keeps.{reach_there};
ghost use Rattle.commit_images.specs.Scene.{Mounted, Scene};
ghost use Rattle.tree_range.specs.Shape.{tree_reach};
ghost use Rattle.volume_core.specs.InUse.{AreInUse, let_go_in, volume_reach};
ghost use Rattle.volume_core.specs.Keeps.{IsVolume};
ghost use Rattle.volume_core.specs.declared.volume.Volume.{Volume as CoreVolume};

/// Law: no block leaks. The blocks in use are exactly, and each once, those of the current volume, those of the root tree
/// of the full commit that runs, where one does, and those that were let go and not yet released (own).
pub fn blocks_in_use_have_a_use()
    ensures { (volume : CoreVolume) (mounted : Mounted) (scene : Scene) → IsVolume volume mounted scene
        → AreInUse volume.kept.table (volume_reach volume.kept ++ reach_there volume.kept.table volume.kept.sealed ++ let_go_in volume.kept.table) }
{}

/// Law: while no full commit runs, and nothing is let go but the root tree of the last one, as it is behind one during which
/// nothing was let go, the blocks in use are exactly, and each once, those of the current volume and of that tree (own).
pub fn blocks_in_use_behind_a_full_commit()
    ensures { (volume : CoreVolume) (mounted : Mounted) (scene : Scene) → IsVolume volume mounted scene → volume.kept.sealed ≡ None
        → ((at : ℕ) → (block_at volume.kept.table at).state ≡ LetGo → Contains (tree_reach volume.kept.table volume.kept.last) at)
        → AreInUse volume.kept.table (volume_reach volume.kept ++ tree_reach volume.kept.table volume.kept.last) }
{}
