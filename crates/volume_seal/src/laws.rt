//! Laws of sealed volumes: the functions here have no parameters and no body.

ghost use Rattle.std.specs.Prelude.{◌≡◌, ◌≤◌, ◌++◌, ℕ, List, All, length, map};
ghost use Rattle.blk_base.specs.Bytes.{Image};
ghost use Rattle.blk_base.specs.Superblock.{IsSuper};
ghost use Rattle.blk_base.specs.Trees.{AtBlock};
ghost use Rattle.block_table.specs.declared.state.SlotState.TheVariants.{Dirty};
ghost use Rattle.block_table.specs.declared.tree.SubState.{SubState};
ghost use Rattle.block_table.specs.declared.tree.Tree.{Tree};
ghost use Rattle.block_table.specs.Table.{Table};
ghost use Rattle.block_table.specs.TreeIn.{block_at};
ghost use Rattle.tree_range.specs.Shape.{AreAlike, tree_reach};
ghost use Rattle.tree_seal.specs.OnImage.{HasBlocks};
ghost use Rattle.flat_model.specs.Volume.{RunSub, RunVolume, subvolume_ids, volume_of};
ghost use Rattle.volume_image.specs.Stands.{StandsBy, free_of, mount_need, super_block};
ghost use Rattle.table_volume.specs.Edited.{IsSubEdit};
ghost use Rattle.table_volume.specs.Running.{GiveVolume, GivesRun, id_of};
ghost use Rattle.volume_seal.specs.Sealed.{IsReady, IsVolumeSealed, states_reach};
ghost use Rattle.volume_seal.specs.Superblock.{super_at};

/// An image that has the blocks of a sealed volume and of its root tree, and the superblock that commits to it, stands for
/// the volume that the states give, by these blocks, where enough blocks are free for a mount ("ROOT_ITEM").
pub fn a_sealed_volume_stands()
    ensures { (old new : Table) (states : List SubState) (run : RunVolume) (root : Tree) (fsid : List ℕ) (generation used : ℕ) (pairs : List AtBlock)
        (image : Image)
        → GiveVolume new states run → IsVolumeSealed old new states root fsid generation pairs
        → 1 ≤ length states → length states ≤ 16 → map id_of states ≡ subvolume_ids (length states)
        → IsSuper (super_block image) (length image) (super_at new root fsid generation used)
        → HasBlocks image new (tree_reach new root ++ states_reach new states)
        → mount_need ≤ free_of (length new.slots) (length (tree_reach new root ++ states_reach new states))
        → StandsBy image (volume_of run) (tree_reach new root ++ states_reach new states) }
{}

/// A tree may be sealed where all of its blocks are Dirty, as a new one's are; and one that may be still may where its blocks
/// stay as they are.
pub fn trees_are_ready()
    ensures new { (table : Table) (tree : Tree) (fsid : List ℕ) → All (λ (at : ℕ). (block_at table at).state ≡ Dirty) (tree_reach table tree)
        → IsReady table tree fsid }
    ensures alike { (old new : Table) (tree : Tree) (fsid : List ℕ) → AreAlike old new (tree_reach old tree) → IsReady old tree fsid
        → IsReady new tree fsid }
{}

/// An operation on a subvolume keeps that its tree may be sealed.
pub fn an_operation_keeps_ready()
    ensures { (old new : Table) (before after : SubState) (was is : RunSub) (most : ℕ) (fsid : List ℕ)
        → GivesRun old before was → IsSubEdit old new before after most → GivesRun new after is
        → IsReady old before.tree fsid → IsReady new after.tree fsid }
{}
