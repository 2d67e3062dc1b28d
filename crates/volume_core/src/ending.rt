//! The end of a full commit.
ghost use Rattle.std.specs.Prelude.{◌≡◌, ◌≤◌, ◌+◌, ◌++◌, length, Contains, if◌then◌else◌};
ghost use Rattle.blk_base.specs.Bytes.{Image};
ghost use Rattle.commit_blocks.specs.Keeps.{KeepsBlocks};
ghost use Rattle.commit_blocks.specs.Steps.{IsEnded, IsListOut, IsRunning, KeepsRest};
ghost use Rattle.commit_core.specs.Holding.{HasFailed};
ghost use Rattle.commit_images.specs.Scene.{Commit, IsWritten, Scene};
ghost use Rattle.commit_room.specs.Items.{data_blocks, trees_room};
ghost use Rattle.flat_model.specs.Volume.{RunVolume, volume_of};
ghost use Rattle.tree_range.specs.Shape.{tree_reach};
ghost use Rattle.volume_core.specs.InUse.{AreInUse, AreOfVolumeOrReached, NoneLetGoSince, in_use, volume_reach};
ghost use Rattle.volume_core.specs.Keeps.{IsJustOut};

use blk_base::Marks;
use block_table::Blocks;
use commit_blocks::Kept;

/// Ends a full commit whose superblock is written. Behind it just those blocks are in use that the current volume has or that
/// superblock reaches; where nothing was let go since its seal, just those of the current volume and of its root tree, which
/// are few (own).
pub(crate) fn end_done(kept: &mut Kept, list: Blocks)
    requires has { (image : Image) × (run : RunVolume) × (scene : Scene) × KeepsBlocks kept.old image run scene }
    requires running { IsRunning kept.old }
    requires list { IsListOut kept.old list }
    ensures keeps { (image : Image) (run : RunVolume) (scene next : Scene) → KeepsBlocks kept.old image run scene → scene.progress ≡ IsWritten
        → IsEnded scene next → KeepsBlocks kept.new image run next }
    ensures rest { KeepsRest kept.old kept.new }
    ensures in_use { (image : Image) (run : RunVolume) (scene : Scene) → KeepsBlocks kept.old image run scene → scene.progress ≡ IsWritten
        → NoneLetGoSince kept.old → AreInUse kept.new.table (volume_reach kept.new ++ tree_reach kept.new.table kept.new.last) }
    ensures few { (image : Image) (run : RunVolume) (scene : Scene) → KeepsBlocks kept.old image run scene → scene.progress ≡ IsWritten → IsJustOut kept.old
        → length (in_use kept.new.table) ≤ data_blocks (volume_of run) + trees_room (volume_of run) }
    ensures reached { (image : Image) (run : RunVolume) (scene : Scene) → KeepsBlocks kept.old image run scene → scene.progress ≡ IsWritten
        → (commit : Commit) → Contains scene.found commit → AreOfVolumeOrReached kept.new commit }
{
    kept.finish(list);
}

/// Ends a full commit that failed; `tried` where the write of its superblock was made.
pub(crate) fn end_failed(kept: &mut Kept, tried: bool, list: Blocks)
    requires has { (image : Image) × (run : RunVolume) × (scene : Scene) × KeepsBlocks kept.old image run scene × HasFailed scene tried }
    requires running { IsRunning kept.old }
    requires list { IsListOut kept.old list }
    ensures keeps { (image : Image) (run : RunVolume) (scene next : Scene) → KeepsBlocks kept.old image run scene → HasFailed scene tried
        → IsEnded scene next → KeepsBlocks kept.new image run next }
    ensures rest { KeepsRest kept.old kept.new }
{
    if tried {
        kept.keep_tried(list);
    } else {
        kept.take_back(list);
    }
}

/// The marks behind a full commit with this seal that failed.
pub(crate) fn marks_failed(marks: Marks, tried: bool, seal: u64) -> Marks
    ensures { result ≡ if tried then record { done = marks.done; tried = seal; full = seal } else marks }
{
    if tried {
        Marks {
            done: marks.done,
            tried: seal,
            full: seal,
        }
    } else {
        marks
    }
}
