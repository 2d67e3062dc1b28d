ghost use Rattle.flat_model.specs.Volume.{Subvolume};
ghost use Rattle.flat_model.specs.Coherent.{IsCoherent};
ghost use Rattle.logged_volume.specs.FlatLog.{empty_log};
ghost use Rattle.logged_volume.specs.Standing.{IsLogOf};
ghost use Rattle.logged_volume.specs.Laws.{StepWritesLog, MembersCome, TargetComes, LogIsReplayed, LogIsAccepted};

/// Law: the empty log says that the logged volume is the committed one, which is coherent (own).
pub fn empty_logs_say_committed()
    ensures { (committed : Subvolume) → IsCoherent committed → IsLogOf committed committed empty_log }
{}

/// Law: where a log says what the logged volume is, the log that a step writes says what the step leaves of it. The
/// inodes that come into the log are members of the step, and those that become whole are its target (own).
pub fn steps_write_logs()
    ensures log { StepWritesLog }
    ensures members { MembersCome }
    ensures targets { TargetComes }
{}

/// Law: replay of a log that says what a coherent logged volume is leaves that volume, and the log is accepted over the
/// committed one (own).
pub fn logs_are_replayed()
    ensures replay { LogIsReplayed }
    ensures accepted { LogIsAccepted }
{}
