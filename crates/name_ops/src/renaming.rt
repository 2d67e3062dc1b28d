//! A name that moves to another slot.
ghost use Rattle.std.specs.Prelude.{◌≡◌, ◌+◌, ◌||◌, ◌&&◌, Some, None, not};
ghost use Rattle.flat_model.specs.Operations.{first_answer, has_entries, rename, rename_tests};
ghost use Rattle.flat_model.specs.Step.{IsPath};
ghost use Rattle.flat_model.specs.Volume.{RunSub, is_dir_there, is_other_there};
ghost use Rattle.flat_model.specs.Walk.{ino_at, is_below, is_root, record_at, walk};
ghost use Rattle.table_volume.specs.Operated.{HasRoom, IsOperated};
ghost use Rattle.table_volume.specs.Running.{GivesRun};
ghost use Rattle.name_items.specs.Names.{name_of};
ghost use Rattle.name_walk.specs.Ends.{end_view};
ghost use Rattle.name_ops.specs.Drops.{gone_by_move, most_for, room_for};
ghost use Rattle.name_ops.specs.Moves.{IsMove};
ghost use Rattle.name_ops.specs.Slots.{at_name};

use crate::deciding::do_collide;
use crate::editing::add_names;
use crate::keeping::has_entries_there;
use crate::linking::new_entry;
use crate::places::{is_below, is_one_inode};
use crate::refusing::{
    indexes_are_spent, is_absent_or_dirless, is_dir_there, is_either_blocked, is_other_there,
};
use crate::removing::{drop_name, entry_held};
use block_table::{BlockTable, SubState};
use flat_model::{Answer, Path};
use name_items::{NameEntry, remove_name};
use name_walk::{End, walk};

/// Whether a directory would replace a file or symlink.
fn is_dir_over_other(table: &BlockTable, sub: &SubState, from: &End<'_>, to: &End<'_>) -> bool
    requires { (run : RunSub) × GivesRun table.now sub.now run }
    ensures { (run : RunSub) → GivesRun table.now sub.now run
        → result ≡ (is_dir_there (record_at run.sub (end_view from.now)) && is_other_there (record_at run.sub (end_view to.now))) }
{
    is_dir_there(table, sub, from) && is_other_there(table, sub, to)
}

/// Whether a file or symlink would replace a directory other than the root directory.
fn is_other_over_dir(table: &BlockTable, sub: &SubState, from: &End<'_>, to: &End<'_>) -> bool
    requires { (run : RunSub) × GivesRun table.now sub.now run }
    ensures { (run : RunSub) → GivesRun table.now sub.now run
        → result ≡ (not (is_root (end_view to.now)) && (is_other_there (record_at run.sub (end_view from.now)) && is_dir_there (record_at run.sub (end_view to.now)))) }
{
    !to.is_root() && (is_other_there(table, sub, from) && is_dir_there(table, sub, to))
}

/// Whether a directory with names other than the root directory would be replaced.
fn is_over_full(table: &BlockTable, sub: &SubState, to: &End<'_>) -> bool
    requires { (run : RunSub) × GivesRun table.now sub.now run }
    ensures { (run : RunSub) → GivesRun table.now sub.now run
        → result ≡ (not (is_root (end_view to.now)) && (is_dir_there (record_at run.sub (end_view to.now)) && has_entries run.sub (ino_at (end_view to.now)))) }
{
    !to.is_root() && (is_dir_there(table, sub, to) && has_entries_there(table, sub, to))
}

/// Whether the root directory would move or be replaced, or a directory would move below itself.
fn is_loop(
    table: &BlockTable,
    sub: &SubState,
    old: &Path,
    new: &Path,
    from: &End<'_>,
    to: &End<'_>,
) -> bool
    requires { (run : RunSub) × GivesRun table.now sub.now run }
    ensures { (run : RunSub) → GivesRun table.now sub.now run
        → result ≡ (is_root (end_view from.now) || (is_root (end_view to.now) || (is_dir_there (record_at run.sub (end_view from.now)) && is_below old.now new.now))) }
{
    from.is_root() || (to.is_root() || (is_dir_there(table, sub, from) && is_below(old, new)))
}

/// The first refusal of a rename but for one by collision, and Plain where there is nothing to do.
pub(crate) fn rename_answer(
    table: &BlockTable,
    sub: &SubState,
    old: &Path,
    new: &Path,
    from: &End<'_>,
    to: &End<'_>,
) -> Option<Answer>
    requires { (run : RunSub) × GivesRun table.now sub.now run }
    ensures { (run : RunSub) → GivesRun table.now sub.now run
        → result ≡ first_answer (rename_tests run old.now new.now (end_view from.now) (end_view to.now)) }
{
    if is_absent_or_dirless(from, to) {
        return Some(Answer::NoEnt);
    }
    if is_either_blocked(from, to) {
        return Some(Answer::NotDir);
    }
    if is_one_inode(from, to) {
        return Some(Answer::Plain);
    }
    if is_dir_over_other(table, sub, from, to) {
        return Some(Answer::NotDir);
    }
    if is_other_over_dir(table, sub, from, to) {
        return Some(Answer::IsDir);
    }
    if is_over_full(table, sub, to) {
        return Some(Answer::NotEmpty);
    }
    if is_loop(table, sub, old, new, from, to) {
        return Some(Answer::Loop);
    }
    if indexes_are_spent(sub) {
        return Some(Answer::TooLarge);
    }
    None
}

/// Moves a name to a free slot.
fn move_to_free(
    table: &mut BlockTable,
    sub: &mut SubState,
    old: &Path,
    new: &Path,
    moved: &NameEntry<'_>,
    dir: u64,
    bytes: &[u8],
) -> Answer
    requires given { (run : RunSub) × GivesRun table.old sub.old run × IsMove run old.now new.now (name_of moved.now) dir bytes.now None
        × HasRoom table.old (room_for (rename run old.now new.now sub.old.next_index) (gone_by_move run.sub (walk run.sub old.now) (walk run.sub new.now))) }
    ensures { (run : RunSub) → GivesRun table.old sub.old run → IsMove run old.now new.now (name_of moved.now) dir bytes.now None
        → IsOperated table.old table.new sub.old sub.new run (rename run old.now new.now sub.old.next_index) result
        (most_for (gone_by_move run.sub (walk run.sub old.now) (walk run.sub new.now))) }
{
    let gone = [*moved];
    let (index, ino) = (sub.next_index, moved.ino.0);
    let made = [new_entry(table, &sub.tree, &gone, dir, bytes, index, ino)];
    if do_collide(table, &sub.tree, &gone, &made) {
        return Answer::Collide;
    }
    remove_name(table, sub, moved);
    add_names(table, sub, &made);
    sub.next_index += 1;
    Answer::Plain
}

/// Moves a name to the slot of another, which goes, its inode with it where it has no other name.
fn move_over(
    table: &mut BlockTable,
    sub: &mut SubState,
    old: &Path,
    new: &Path,
    source: &NameEntry<'_>,
    target: &NameEntry<'_>,
) -> Answer
    requires given { (run : RunSub) × GivesRun table.old sub.old run × IsMove run old.now new.now (name_of source.now) target.now.dir.0 target.now.bytes.now (Some (name_of target.now))
        × HasRoom table.old (room_for (rename run old.now new.now sub.old.next_index) (gone_by_move run.sub (walk run.sub old.now) (walk run.sub new.now))) }
    ensures { (run : RunSub) → GivesRun table.old sub.old run → IsMove run old.now new.now (name_of source.now) target.now.dir.0 target.now.bytes.now (Some (name_of target.now))
        → IsOperated table.old table.new sub.old sub.new run (rename run old.now new.now sub.old.next_index) result
        (most_for (gone_by_move run.sub (walk run.sub old.now) (walk run.sub new.now))) }
{
    let gone = [*target, *source];
    let (index, ino) = (sub.next_index, source.ino.0);
    let made = [new_entry(
        table,
        &sub.tree,
        &gone,
        target.dir.0,
        target.bytes,
        index,
        ino,
    )];
    if do_collide(table, &sub.tree, &gone, &made) {
        return Answer::Collide;
    }
    drop_name(table, sub, target);
    remove_name(table, sub, source);
    add_names(table, sub, &made);
    sub.next_index += 1;
    Answer::Plain
}

/// Moves a name to where another path ends.
fn move_name(
    table: &mut BlockTable,
    sub: &mut SubState,
    old: &Path,
    new: &Path,
    moved: &NameEntry<'_>,
    to: &End<'_>,
) -> Answer
    requires given { (run : RunSub) × GivesRun table.old sub.old run × (walk run.sub old.now ≡ at_name (name_of moved.now)) × (walk run.sub new.now ≡ end_view to.now)
        × (first_answer (rename_tests run old.now new.now (at_name (name_of moved.now)) (end_view to.now)) ≡ None)
        × HasRoom table.old (room_for (rename run old.now new.now sub.old.next_index) (gone_by_move run.sub (walk run.sub old.now) (walk run.sub new.now))) }
    requires is_path { IsPath new.now }
    ensures { (run : RunSub) → GivesRun table.old sub.old run → walk run.sub old.now ≡ at_name (name_of moved.now) → walk run.sub new.now ≡ end_view to.now
        → first_answer (rename_tests run old.now new.now (at_name (name_of moved.now)) (end_view to.now)) ≡ None
        → IsOperated table.old table.new sub.old sub.new run (rename run old.now new.now sub.old.next_index) result
        (most_for (gone_by_move run.sub (walk run.sub old.now) (walk run.sub new.now))) }
{
    match *to {
        End::Free { dir, name } => move_to_free(table, sub, old, new, moved, dir, name),
        End::Taken { dir, name, held } => {
            let target = entry_held(dir, name, held);
            move_over(table, sub, old, new, moved, &target)
        }
        End::Root => unreachable!(),
        End::Missing => unreachable!(),
        End::Blocked => unreachable!(),
    }
}

/// Moves the name at one place to another; the name that stands there goes, and with its last name the inode, an empty directory
/// too ("INODE_REF", "DIR_ITEM" of the on-disk format; after `btrfs_rename` of fs/btrfs/inode.c). It takes 512 blocks and
/// buffers at most, and 2 for each data block, inline extent and attribute item that goes.
pub fn rename(table: &mut BlockTable, sub: &mut SubState, old: &Path, new: &Path) -> Answer
    requires given { (run : RunSub) × GivesRun table.old sub.old run
        × HasRoom table.old (room_for (rename run old.now new.now sub.old.next_index) (gone_by_move run.sub (walk run.sub old.now) (walk run.sub new.now))) }
    ensures { (run : RunSub) → GivesRun table.old sub.old run
        → IsOperated table.old table.new sub.old sub.new run (rename run old.now new.now sub.old.next_index) result
        (most_for (gone_by_move run.sub (walk run.sub old.now) (walk run.sub new.now))) }
{
    let from = walk(table, &sub.tree, old);
    let to = walk(table, &sub.tree, new);
    if let Some(answer) = rename_answer(table, sub, old, new, &from, &to) {
        return answer;
    }
    match from {
        End::Taken { dir, name, held } => {
            let moved = entry_held(dir, name, held);
            move_name(table, sub, old, new, &moved, &to)
        }
        End::Root => unreachable!(),
        End::Free { .. } => unreachable!(),
        End::Missing => unreachable!(),
        End::Blocked => unreachable!(),
    }
}
