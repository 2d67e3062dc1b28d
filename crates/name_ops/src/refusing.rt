//! The tests that an operation on names makes first, in their order.
ghost use Rattle.std.specs.Prelude.{◌≡◌, ◌||◌, ◌+◌};
ghost use Rattle.flat_model.specs.Operations.{first_answer, indexes_are_spent, inos_are_spent};
ghost use Rattle.flat_model.specs.Volume.{RunSub, is_dir_there, is_other_there};
ghost use Rattle.flat_model.specs.Walk.{is_absent, is_blocked, is_dirless, record_at};
ghost use Rattle.table_volume.specs.Running.{GivesRun};
ghost use Rattle.name_walk.specs.Ends.{end_view};
ghost use Rattle.name_ops.specs.Tests.{link_tests, make_tests};

use block_table::{BlockTable, SubState};
use flat_model::{Answer, Kind};
use name_walk::{End, links, record_kind};

/// The greatest inode number and the greatest index after which there is one more.
const LAST_NUMBER: u64 = 1 << 62;

/// The most names of a file or symlink.
const MOST_LINKS: u32 = 65535;

/// Whether the subvolume has had an index of 2^62 or above.
pub(crate) fn indexes_are_spent(sub: &SubState) -> bool
    ensures { (run : RunSub) → sub.now.next_index ≡ run.numbers.last_index + 1 → result ≡ indexes_are_spent run.numbers }
{
    sub.next_index > LAST_NUMBER
}

/// Whether the subvolume has had an inode number of 2^62 or above.
pub(crate) fn inos_are_spent(sub: &SubState) -> bool
    ensures { (run : RunSub) → sub.now.next_ino ≡ run.numbers.last_ino + 1 → result ≡ inos_are_spent run.numbers }
{
    sub.next_ino > LAST_NUMBER
}

/// Whether a directory is there.
pub(crate) fn is_dir_there(table: &BlockTable, sub: &SubState, end: &End<'_>) -> bool
    requires { (run : RunSub) × GivesRun table.now sub.now run }
    ensures { (run : RunSub) → GivesRun table.now sub.now run → result ≡ is_dir_there (record_at run.sub (end_view end.now)) }
{
    match end {
        End::Root => true,
        End::Free { .. } => false,
        End::Taken { held, .. } => match record_kind(table, &sub.tree, held.ino) {
            Some(Kind::Dir) => true,
            Some(Kind::File) => false,
            Some(Kind::Link) => false,
            None => false,
        },
        End::Missing => false,
        End::Blocked => false,
    }
}

/// Whether one place isn't there, or the other has no directory.
pub(crate) fn is_absent_or_dirless(one: &End<'_>, two: &End<'_>) -> bool
    ensures { result ≡ (is_absent (end_view one.now) || is_dirless (end_view two.now)) }
{
    one.is_absent() || two.is_dirless()
}

/// Whether one of two walks met what is no directory.
pub(crate) fn is_either_blocked(one: &End<'_>, two: &End<'_>) -> bool
    ensures { result ≡ (is_blocked (end_view one.now) || is_blocked (end_view two.now)) }
{
    one.is_blocked() || two.is_blocked()
}

/// The first refusal of a link but for one by collision.
pub(crate) fn link_refusal(
    table: &BlockTable,
    sub: &SubState,
    from: &End<'_>,
    to: &End<'_>,
) -> Option<Answer>
    requires { (run : RunSub) × GivesRun table.now sub.now run }
    ensures { (run : RunSub) → GivesRun table.now sub.now run → result ≡ first_answer (link_tests run (end_view from.now) (end_view to.now)) }
{
    if is_absent_or_dirless(from, to) {
        return Some(Answer::NoEnt);
    }
    if is_either_blocked(from, to) {
        return Some(Answer::NotDir);
    }
    if is_dir_there(table, sub, from) {
        return Some(Answer::IsDir);
    }
    if to.is_taken() {
        return Some(Answer::Exists);
    }
    if links(table, &sub.tree, from.ino()) >= MOST_LINKS {
        return Some(Answer::Links);
    }
    if indexes_are_spent(sub) {
        return Some(Answer::TooLarge);
    }
    None
}

/// Whether the subvolume has had an inode number or an index of 2^62 or above.
fn are_spent(sub: &SubState) -> bool
    ensures { (run : RunSub) → sub.now.next_ino ≡ run.numbers.last_ino + 1 → sub.now.next_index ≡ run.numbers.last_index + 1
        → result ≡ (inos_are_spent run.numbers || indexes_are_spent run.numbers) }
{
    inos_are_spent(sub) || indexes_are_spent(sub)
}

/// The first refusal of a create, mkdir or symlink but for one by collision.
pub(crate) fn make_refusal(sub: &SubState, end: &End<'_>) -> Option<Answer>
    ensures { (run : RunSub) → sub.now.next_ino ≡ run.numbers.last_ino + 1 → sub.now.next_index ≡ run.numbers.last_index + 1
        → result ≡ first_answer (make_tests run (end_view end.now)) }
{
    if end.is_dirless() {
        return Some(Answer::NoEnt);
    }
    if end.is_blocked() {
        return Some(Answer::NotDir);
    }
    if end.is_taken() {
        return Some(Answer::Exists);
    }
    if are_spent(sub) {
        return Some(Answer::TooLarge);
    }
    None
}

/// Whether a file or symlink is there.
pub(crate) fn is_other_there(table: &BlockTable, sub: &SubState, end: &End<'_>) -> bool
    requires { (run : RunSub) × GivesRun table.now sub.now run }
    ensures { (run : RunSub) → GivesRun table.now sub.now run → result ≡ is_other_there (record_at run.sub (end_view end.now)) }
{
    match end {
        End::Root => false,
        End::Free { .. } => false,
        End::Taken { held, .. } => match record_kind(table, &sub.tree, held.ino) {
            Some(Kind::Dir) => false,
            Some(Kind::File) => true,
            Some(Kind::Link) => true,
            None => false,
        },
        End::Missing => false,
        End::Blocked => false,
    }
}
