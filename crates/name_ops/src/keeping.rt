//! The tests that an operation makes first which takes a name away, in their order.
ghost use Rattle.std.specs.Prelude.{◌≡◌, ◌||◌, ◌&&◌, not};
ghost use Rattle.flat_model.specs.Operations.{first_answer, has_entries, rmdir_rows, unlink_rows};
ghost use Rattle.flat_model.specs.Volume.{RunSub, is_other_there};
ghost use Rattle.flat_model.specs.Walk.{ino_at, is_blocked, is_root, record_at};
ghost use Rattle.table_volume.specs.Running.{GivesRun};
ghost use Rattle.name_walk.specs.Ends.{end_view};

use crate::refusing::{is_dir_there, is_other_there};
use blk_base::format::FIRST_FREE;
use block_table::{BlockTable, SubState};
use flat_model::Answer;
use name_walk::{End, has_entries};

/// Whether a directory with names is there.
pub(crate) fn has_entries_there(table: &BlockTable, sub: &SubState, end: &End<'_>) -> bool
    requires { (run : RunSub) × GivesRun table.now sub.now run }
    ensures { (run : RunSub) → GivesRun table.now sub.now run → result ≡ has_entries run.sub (ino_at (end_view end.now)) }
{
    match end {
        End::Root => has_entries(table, &sub.tree, FIRST_FREE),
        End::Free { .. } => false,
        End::Taken { held, .. } => has_entries(table, &sub.tree, held.ino),
        End::Missing => false,
        End::Blocked => false,
    }
}

/// Whether a directory with names is there that isn't the root directory.
fn is_full_there(table: &BlockTable, sub: &SubState, end: &End<'_>) -> bool
    requires { (run : RunSub) × GivesRun table.now sub.now run }
    ensures { (run : RunSub) → GivesRun table.now sub.now run → result ≡ (not (is_root (end_view end.now)) && has_entries run.sub (ino_at (end_view end.now))) }
{
    !end.is_root() && has_entries_there(table, sub, end)
}

/// The first refusal of an unlink.
pub(crate) fn unlink_refusal(table: &BlockTable, sub: &SubState, end: &End<'_>) -> Option<Answer>
    requires { (run : RunSub) × GivesRun table.now sub.now run }
    ensures { (run : RunSub) → GivesRun table.now sub.now run → result ≡ first_answer (unlink_rows run (end_view end.now)) }
{
    if end.is_absent() {
        return Some(Answer::NoEnt);
    }
    if end.is_blocked() {
        return Some(Answer::NotDir);
    }
    if is_dir_there(table, sub, end) {
        return Some(Answer::IsDir);
    }
    None
}

/// Whether a walk met what is no directory, at its end or before.
fn is_no_dir(table: &BlockTable, sub: &SubState, end: &End<'_>) -> bool
    requires { (run : RunSub) × GivesRun table.now sub.now run }
    ensures { (run : RunSub) → GivesRun table.now sub.now run → result ≡ (is_blocked (end_view end.now) || is_other_there (record_at run.sub (end_view end.now))) }
{
    end.is_blocked() || is_other_there(table, sub, end)
}

/// The first refusal of an rmdir.
pub(crate) fn rmdir_refusal(table: &BlockTable, sub: &SubState, end: &End<'_>) -> Option<Answer>
    requires { (run : RunSub) × GivesRun table.now sub.now run }
    ensures { (run : RunSub) → GivesRun table.now sub.now run → result ≡ first_answer (rmdir_rows run (end_view end.now)) }
{
    if end.is_absent() {
        return Some(Answer::NoEnt);
    }
    if is_no_dir(table, sub, end) {
        return Some(Answer::NotDir);
    }
    if is_full_there(table, sub, end) {
        return Some(Answer::NotEmpty);
    }
    if end.is_root() {
        return Some(Answer::Loop);
    }
    None
}
