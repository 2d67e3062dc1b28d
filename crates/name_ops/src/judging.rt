//! Which refusal comes first for an operation on names, told without an edit.
ghost use Rattle.std.specs.Prelude.{◌≡◌, ◌+◌, None, Some, cond};
ghost use Rattle.flat_model.specs.Operations.{exchange, link, make, rename, rmdir, unlink};
ghost use Rattle.flat_model.specs.Records.{InodeRecord};
ghost use Rattle.flat_model.specs.Refusal.{is_refusal};
ghost use Rattle.flat_model.specs.Volume.{RunSub};
ghost use Rattle.table_volume.specs.Running.{GivesRun};
ghost use Rattle.name_ops.specs.Refused.{refusal_of};

use crate::colliding::{exchange_collision, link_collision, make_collision, move_collision};
use crate::exchanging::{entry_at, exchange_answer};
use crate::keeping::{rmdir_refusal, unlink_refusal};
use crate::refusing::{link_refusal, make_refusal};
use crate::removing::entry_held;
use crate::renaming::rename_answer;
use block_table::{BlockTable, SubState};
use flat_model::{Answer, Path};
use name_walk::{End, walk};

/// An answer where it refuses an operation.
fn as_refusal(answer: Answer) -> Option<Answer>
    ensures { result ≡ cond (is_refusal answer) (Some answer) None }
{
    match answer {
        Answer::Plain
        | Answer::Number(_)
        | Answer::Bytes(_)
        | Answer::Already
        | Answer::Log
        | Answer::Commit(_)
        | Answer::Full
        | Answer::Sync
        | Answer::NoSpace { .. }
        | Answer::Io => None,
        Answer::Xdev
        | Answer::NoEnt
        | Answer::NotDir
        | Answer::IsDir
        | Answer::Exists
        | Answer::NotEmpty
        | Answer::Loop
        | Answer::Links
        | Answer::TooLarge
        | Answer::NoAttr
        | Answer::Collide => Some(answer),
    }
}

/// The answer that refuses a create, mkdir or symlink, whatever it would make; none where it would be done ("vfs_create",
/// "vfs_mkdir" and "vfs_symlink" of fs/namei.c).
pub fn refused_make(table: &BlockTable, sub: &SubState, path: &Path) -> Option<Answer>
    requires given { (run : RunSub) × GivesRun table.now sub.now run }
    ensures { (run : RunSub) (inode : InodeRecord) → GivesRun table.now sub.now run → result ≡ refusal_of (make run path.now inode sub.now.next_index) }
{
    let end = walk(table, &sub.tree, path);
    if let Some(answer) = make_refusal(sub, &end) {
        return Some(answer);
    }
    match end {
        End::Free { dir, name } => make_collision(table, sub, path, dir, name),
        End::Root => unreachable!(),
        End::Taken { .. } => unreachable!(),
        End::Missing => unreachable!(),
        End::Blocked => unreachable!(),
    }
}

/// The answer that refuses a link; none where it would be done ("vfs_link" of fs/namei.c).
pub fn refused_link(table: &BlockTable, sub: &SubState, old: &Path, new: &Path) -> Option<Answer>
    requires given { (run : RunSub) × GivesRun table.now sub.now run }
    ensures { (run : RunSub) → GivesRun table.now sub.now run → result ≡ refusal_of (link run old.now new.now sub.now.next_index) }
{
    let from = walk(table, &sub.tree, old);
    let to = walk(table, &sub.tree, new);
    if let Some(answer) = link_refusal(table, sub, &from, &to) {
        return Some(answer);
    }
    match to {
        End::Free { dir, name } => link_collision(table, sub, old, new, &from, dir, name),
        End::Root => unreachable!(),
        End::Taken { .. } => unreachable!(),
        End::Missing => unreachable!(),
        End::Blocked => unreachable!(),
    }
}

/// The answer that refuses an unlink; none where it would be done ("vfs_unlink" of fs/namei.c).
pub fn refused_unlink(table: &BlockTable, sub: &SubState, path: &Path) -> Option<Answer>
    requires given { (run : RunSub) × GivesRun table.now sub.now run }
    ensures { (run : RunSub) → GivesRun table.now sub.now run → result ≡ refusal_of (unlink run path.now) }
{
    let end = walk(table, &sub.tree, path);
    unlink_refusal(table, sub, &end)
}

/// The answer that refuses an rmdir; none where it would be done ("vfs_rmdir" of fs/namei.c).
pub fn refused_rmdir(table: &BlockTable, sub: &SubState, path: &Path) -> Option<Answer>
    requires given { (run : RunSub) × GivesRun table.now sub.now run }
    ensures { (run : RunSub) → GivesRun table.now sub.now run → result ≡ refusal_of (rmdir run path.now) }
{
    let end = walk(table, &sub.tree, path);
    rmdir_refusal(table, sub, &end)
}

/// The answer that refuses a rename; none where it would be done, or has nothing to do ("vfs_rename" of fs/namei.c).
pub fn refused_rename(table: &BlockTable, sub: &SubState, old: &Path, new: &Path) -> Option<Answer>
    requires given { (run : RunSub) × GivesRun table.now sub.now run }
    ensures { (run : RunSub) → GivesRun table.now sub.now run → result ≡ refusal_of (rename run old.now new.now sub.now.next_index) }
{
    let from = walk(table, &sub.tree, old);
    let to = walk(table, &sub.tree, new);
    if let Some(answer) = rename_answer(table, sub, old, new, &from, &to) {
        return as_refusal(answer);
    }
    match from {
        End::Taken { dir, name, held } => {
            let moved = entry_held(dir, name, held);
            move_collision(table, sub, old, new, &moved, &to)
        }
        End::Root => unreachable!(),
        End::Free { .. } => unreachable!(),
        End::Missing => unreachable!(),
        End::Blocked => unreachable!(),
    }
}

/// The answer that refuses an exchange; none where it would be done, or has nothing to do ("vfs_rename" of fs/namei.c with
/// RENAME_EXCHANGE).
pub fn refused_exchange(
    table: &BlockTable,
    sub: &SubState,
    one: &Path,
    two: &Path,
) -> Option<Answer>
    requires given { (run : RunSub) × GivesRun table.now sub.now run }
    ensures { (run : RunSub) → GivesRun table.now sub.now run
        → result ≡ refusal_of (exchange run one.now two.now sub.now.next_index (sub.now.next_index + 1)) }
{
    let first = walk(table, &sub.tree, one);
    let second = walk(table, &sub.tree, two);
    if let Some(answer) = exchange_answer(sub, one, two, &first, &second) {
        return as_refusal(answer);
    }
    match (entry_at(&first), entry_at(&second)) {
        (Some(first), Some(second)) => exchange_collision(table, sub, one, two, first, second),
        (None, _) => unreachable!(),
        (_, None) => unreachable!(),
    }
}
