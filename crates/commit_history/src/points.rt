ghost use Rattle.std.specs.Prelude.{List};
ghost use Rattle.flat_model.specs.Volume.{Volume, mounted};
ghost use Rattle.flat_model.specs.Coherent.{IsCoherentVolume};
ghost use Rattle.flat_model.specs.Step.{Operated, IsHistory};
ghost use Rattle.commit_history.specs.Survival.{CreationIsAPoint, PointsAgree};

/// Law: what a subvolume is at any two points of a history agrees: an inode keeps its kind, and an index of a directory
/// is never used again (own).
pub fn points_of_a_history_agree()
    ensures { (volume : Volume) (history : List Operated) → IsCoherentVolume volume → IsHistory (mounted volume) history → PointsAgree volume history }
{}

/// Law: an inode that isn't there at one point and is there at a later one was made between them, with the record at
/// creation (own).
pub fn creation_is_a_point()
    ensures { (volume : Volume) (history : List Operated) → IsCoherentVolume volume → IsHistory (mounted volume) history → CreationIsAPoint volume history }
{}
