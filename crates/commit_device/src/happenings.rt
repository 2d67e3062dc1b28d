//! Lists of happenings: what holds of one behind the other, and what each leaves.
ghost use Rattle.std.specs.Prelude.{◌≡◌, ℕ, List, ◌++◌, All};
ghost use Rattle.disk_model.specs.Disk.{Call, GoesOn, Held, Image, Leaves, Told, held_now};
ghost use Rattle.flat_model.specs.Volume.{Volume};
ghost use Rattle.commit_core.specs.Coming.{IsDeviceCall};
ghost use Rattle.commit_images.specs.Admissible.{AreAdmissible, CommitsStand};
ghost use Rattle.commit_images.specs.Images.{EachImageStands};
ghost use Rattle.commit_images.specs.Scene.{Happening, Mounted, Scene, scene_behind};
ghost use Rattle.commit_device.specs.Calls.{AreTold, HoldsAtLeast, calls_of};
ghost use Rattle.commit_device.specs.Moments.{EachMomentStands};

use commit_core::Core;
use commit_images::Standing;

/// Law: what a core keeps goes with what happened, also behind any calls of the device that may come (own).
pub fn device_calls_keep<C: Core>()
    ensures { (core : C) (mounted : Mounted) (scene : Scene) (happenings : List Happening) → C.has core mounted scene → All IsDeviceCall happenings
        → AreAdmissible mounted scene happenings → C.has core mounted (scene_behind mounted.volume scene happenings) }
{}

/// Law: two lists of happenings, one behind the other. The second begins behind the first, its calls come behind those of
/// the first, and where both may come, stand for what they should or are told, so does or is the whole (own).
pub fn happenings_join<S: Standing>()
    ensures behind { (volume : Volume) (scene : Scene) (one two : List Happening)
        → scene_behind volume scene (one ++ two) ≡ scene_behind volume (scene_behind volume scene one) two }
    ensures admissible { (mounted : Mounted) (scene : Scene) (one two : List Happening) → AreAdmissible mounted scene one
        → AreAdmissible mounted (scene_behind mounted.volume scene one) two → AreAdmissible mounted scene (one ++ two) }
    ensures calls { (volume : Volume) (scene : Scene) (one two : List Happening)
        → calls_of volume scene (one ++ two) ≡ calls_of volume scene one ++ calls_of volume (scene_behind volume scene one) two }
    ensures told { (made more told later : List Call) → AreTold made told → AreTold more later → AreTold (made ++ more) (told ++ later) }
    ensures commits { (size : ℕ) (one two : List Happening) → CommitsStand S.stands size one → CommitsStand S.stands size two
        → CommitsStand S.stands size (one ++ two) }
    ensures no_commit { (size : ℕ) (happenings : List Happening) → All IsDeviceCall happenings → CommitsStand S.stands size happenings }
    ensures images { (volume : Volume) (scene : Scene) (one two : List Happening) → EachImageStands S.stands volume scene one
        → EachImageStands S.stands volume (scene_behind volume scene one) two → EachImageStands S.stands volume scene (one ++ two) }
    ensures images_apart { (volume : Volume) (scene : Scene) (one two : List Happening) → EachImageStands S.stands volume scene (one ++ two)
        → EachImageStands S.stands volume scene one × EachImageStands S.stands volume (scene_behind volume scene one) two }
{}

/// Law: each image that a crash may leave by a disk's record it may leave by what happened (own).
pub fn held_images_are_left()
    ensures { (told held : Held) (image : Image) → HoldsAtLeast told held → Leaves told image → Leaves held image }
{}

/// Law: where a disk's record went on by calls that are told of these happenings, and each image of a crash stands for a
/// volume that survives, before, while and after they happen, so does each image that a crash may leave at any moment of
/// the record since, by the history behind the happenings that the record tells up to that moment (own).
pub fn told_images_stand<S: Standing>()
    ensures { (volume : Volume) (scene : Scene) (happenings : List Happening) (old new : Told) (added : List Call)
        → HoldsAtLeast (held_now old) scene.held → GoesOn old new added → AreTold (calls_of volume scene happenings) added
        → EachImageStands S.stands volume scene happenings → EachMomentStands S.stands volume scene happenings old new }
{}
