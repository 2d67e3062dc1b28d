ghost use Rattle.flat_model.specs.Volume.{Subvolume};
ghost use Rattle.logged_volume.specs.FlatLog.{FlatLog};
ghost use Rattle.logged_volume.specs.Replay.{replay};
ghost use Rattle.logged_volume.specs.Accepted.{IsAccepted, AreApart};
ghost use Rattle.logged_volume.specs.Laws.{ReplayLeavesNames};

/// Law: the names that replay leaves are the logged ones, and those of the committed subvolume that no range of the log
/// drops and whose inode the log doesn't have. Where the log is accepted they are apart: no directory has one index or
/// one name twice, and none needs an item that no leaf holds (own).
pub fn accepted_logs_leave_names_apart()
    ensures names { ReplayLeavesNames }
    ensures apart { (committed : Subvolume) (log : FlatLog) → IsAccepted committed log → AreApart (replay committed log).names }
{}
