ghost use Rattle.std.specs.Prelude.{List, length};
ghost use Rattle.disk_model.specs.Disk.{Held, Image};
ghost use Rattle.flat_model.specs.Coherent.{IsCoherentVolume};
ghost use Rattle.flat_model.specs.Volume.{Volume};
ghost use Rattle.commit_images.specs.Admissible.{AreAdmissible, CommitsStand};
ghost use Rattle.commit_images.specs.Images.{EachImageStands, IsFoundBy, IsMountedBy};
ghost use Rattle.commit_images.specs.Scene.{Commit, Happening, Mounted, first_scene};

/// When an image stands for a volume, for a law that holds of each such relation.
pub trait Standing {
    /// The image stands for the volume.
    ghost stands: { Image → Volume → Type 0 };
}

/// Law: where events and calls of the device are admissible, and each superblock that is handed out stands for the volume
/// that it makes durable, each image that a crash may leave at any moment stands for the durable volume, for that of a
/// superblock whose write is under way, or for that of one whose write failed and that none replaced; and that volume
/// survives the history. A commit counts as done from the moment on at which its superblock is written (own).
pub fn crash_images_stand<S: Standing>()
    ensures { (mounted : Mounted) (held : Held) (first : Commit) (happenings : List Happening) → IsCoherentVolume mounted.volume
        → IsMountedBy S.stands mounted held first → AreAdmissible mounted (first_scene held first) happenings
        → CommitsStand S.stands (length mounted.image) happenings
        → EachImageStands S.stands mounted.volume (first_scene held first) happenings }
{}

/// Law: where each image that a crash may leave at the mount has one superblock and all that it reaches, and the image as
/// it reads is one of them, no other superblock may be found, and all that this one reaches is durable (own).
pub fn what_each_crash_leaves_is_durable<S: Standing>()
    ensures { (mounted : Mounted) (held : Held) (first : Commit) → IsFoundBy S.stands mounted held first → IsMountedBy S.stands mounted held first }
{}
