//! Two names that swap what they lead to.
ghost use Rattle.std.specs.Prelude.{◌≡◌, ◌+◌, ◌||◌, ◌≢◌, ◌*◌, None, Some, length, MatchOption};
ghost use Rattle.flat_model.specs.Names.{FlatName};
ghost use Rattle.flat_model.specs.Operations.{exchange, exchange_tests, first_answer};
ghost use Rattle.flat_model.specs.Step.{IsPath};
ghost use Rattle.flat_model.specs.Volume.{RunSub};
ghost use Rattle.flat_model.specs.Walk.{is_absent, is_below, is_root, walk};
ghost use Rattle.table_volume.specs.Operated.{HasRoom, IsOperated};
ghost use Rattle.table_volume.specs.Running.{GivesRun};
ghost use Rattle.name_items.specs.Names.{name_of};
ghost use Rattle.name_walk.specs.Ends.{end_view};
ghost use Rattle.name_ops.specs.Slots.{at_name};

use crate::deciding::do_collide;
use crate::editing::{add_names, remove_names};
use crate::linking::new_entry;
use crate::places::{is_below, is_one_inode};
use crate::refusing::{indexes_are_spent, is_either_blocked};
use blk_base::Ino;
use block_table::{BlockTable, SubState};
use flat_model::{Answer, Path};
use name_items::NameEntry;
use name_walk::{End, walk};

/// Whether one of two places isn't there.
fn is_either_absent(one: &End<'_>, two: &End<'_>) -> bool
    ensures { result ≡ (is_absent (end_view one.now) || is_absent (end_view two.now)) }
{
    one.is_absent() || two.is_absent()
}

/// Whether one of two paths goes on below the other.
fn is_either_below(one: &Path, two: &Path) -> bool
    ensures { result ≡ (is_below one.now two.now || is_below two.now one.now) }
{
    is_below(one, two) || is_below(two, one)
}

/// Whether one of two places is the root directory's, or one goes on below the other.
fn is_loop(one: &Path, two: &Path, first: &End<'_>, second: &End<'_>) -> bool
    ensures { result ≡ (is_root (end_view first.now) || (is_root (end_view second.now) || (is_below one.now two.now || is_below two.now one.now))) }
{
    first.is_root() || second.is_root() || is_either_below(one, two)
}

/// The first refusal of an exchange but for one by collision, and Plain where there is nothing to do.
pub(crate) fn exchange_answer(
    sub: &SubState,
    one: &Path,
    two: &Path,
    first: &End<'_>,
    second: &End<'_>,
) -> Option<Answer>
    ensures { (run : RunSub) → sub.now.next_index ≡ run.numbers.last_index + 1
        → result ≡ first_answer (exchange_tests run one.now two.now (end_view first.now) (end_view second.now)) }
{
    if is_either_absent(first, second) {
        return Some(Answer::NoEnt);
    }
    if is_either_blocked(first, second) {
        return Some(Answer::NotDir);
    }
    if is_one_inode(first, second) {
        return Some(Answer::Plain);
    }
    if is_loop(one, two, first, second) {
        return Some(Answer::Loop);
    }
    if indexes_are_spent(sub) {
        return Some(Answer::TooLarge);
    }
    None
}

/// The name at the end of a walk, where there is one.
pub(crate) fn entry_at<'p>(end: &End<'p>) -> Option<NameEntry<'p>>
    ensures { MatchOption result ((name : FlatName) → end_view end.now ≢ at_name name) (λ entry. end_view end.now ≡ at_name (name_of entry)) }
{
    match end {
        End::Taken { dir, name, held } => Some(NameEntry {
            dir: Ino(*dir),
            index: held.index,
            bytes: name,
            ino: Ino(held.ino),
            near: held.near,
        }),
        End::Root => None,
        End::Free { .. } => None,
        End::Missing => None,
        End::Blocked => None,
    }
}

/// Swaps what two names lead to: both go, and two new ones come in their slots.
fn exchange_names(
    table: &mut BlockTable,
    sub: &mut SubState,
    one: &Path,
    two: &Path,
    first: NameEntry<'_>,
    second: NameEntry<'_>,
) -> Answer
    requires given { (run : RunSub) × GivesRun table.old sub.old run × (walk run.sub one.now ≡ at_name (name_of first)) × (walk run.sub two.now ≡ at_name (name_of second))
        × (first_answer (exchange_tests run one.now two.now (at_name (name_of first)) (at_name (name_of second))) ≡ None) }
    requires one { IsPath one.now }
    requires two { IsPath two.now }
    requires room { HasRoom table.old 512 }
    ensures { (run : RunSub) → GivesRun table.old sub.old run → walk run.sub one.now ≡ at_name (name_of first.entry) → walk run.sub two.now ≡ at_name (name_of second.entry)
        → first_answer (exchange_tests run one.now two.now (at_name (name_of first.entry)) (at_name (name_of second.entry))) ≡ None
        → IsOperated table.old table.new sub.old sub.new run (exchange run one.now two.now sub.old.next_index (sub.old.next_index + 1)) result 512 }
{
    let gone = [first, second];
    let made = [
        new_entry(
            table,
            &sub.tree,
            &gone,
            first.dir.0,
            first.bytes,
            sub.next_index,
            second.ino.0,
        ),
        new_entry(
            table,
            &sub.tree,
            &gone,
            second.dir.0,
            second.bytes,
            sub.next_index + 1,
            first.ino.0,
        ),
    ];
    if do_collide(table, &sub.tree, &gone, &made) {
        return Answer::Collide;
    }
    remove_names(table, sub, &gone);
    add_names(table, sub, &made);
    sub.next_index += 2;
    Answer::Plain
}

/// Swaps what stands at two places: what is at each gets the other, under new indexes ("INODE_REF", "DIR_ITEM" of the on-disk
/// format; after `btrfs_rename_exchange` of fs/btrfs/inode.c).
pub fn exchange(table: &mut BlockTable, sub: &mut SubState, one: &Path, two: &Path) -> Answer
    requires given { (run : RunSub) × GivesRun table.old sub.old run }
    requires room { HasRoom table.old 512 }
    ensures { (run : RunSub) → GivesRun table.old sub.old run
        → IsOperated table.old table.new sub.old sub.new run (exchange run one.now two.now sub.old.next_index (sub.old.next_index + 1)) result 512 }
{
    let first = walk(table, &sub.tree, one);
    let second = walk(table, &sub.tree, two);
    if let Some(answer) = exchange_answer(sub, one, two, &first, &second) {
        return answer;
    }
    match (entry_at(&first), entry_at(&second)) {
        (Some(first), Some(second)) => exchange_names(table, sub, one, two, first, second),
        (None, _) => unreachable!(),
        (_, None) => unreachable!(),
    }
}
