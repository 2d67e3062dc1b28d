ghost use Rattle.log_rows.specs.Laws.{StepHasLog};

/// Law: each log step of an inode that is there writes some log, whatever the log had before: this one, in which the
/// target has each of its blocks (own).
pub fn each_step_has_its_log()
    ensures { StepHasLog }
{}
