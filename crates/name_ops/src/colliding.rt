//! Whether an operation that no other test refuses is refused since its new names would collide.
ghost use Rattle.std.specs.Prelude.{◌≡◌, ◌+◌, None, Some, cond};
ghost use Rattle.flat_model.specs.declared.answer.Answer.TheVariants.{Collide};
ghost use Rattle.flat_model.specs.Operations.{exchange, exchange_tests, first_answer, link, make, rename, rename_tests};
ghost use Rattle.flat_model.specs.Records.{InodeRecord};
ghost use Rattle.flat_model.specs.Step.{IsPath};
ghost use Rattle.flat_model.specs.Volume.{RunSub};
ghost use Rattle.flat_model.specs.Walk.{AtSlot, walk};
ghost use Rattle.table_volume.specs.Running.{GivesRun};
ghost use Rattle.name_items.specs.Names.{name_of};
ghost use Rattle.name_walk.specs.Ends.{end_view};
ghost use Rattle.name_ops.specs.Moves.{IsMove};
ghost use Rattle.name_ops.specs.Refused.{refusal_of};
ghost use Rattle.name_ops.specs.Slots.{at_name};
ghost use Rattle.name_ops.specs.Tests.{link_tests, make_tests};

use crate::deciding::do_collide;
use crate::linking::new_entry;
use crate::removing::entry_held;
use block_table::{BlockTable, SubState};
use flat_model::{Answer, Path};
use name_items::NameEntry;
use name_walk::End;

/// The refusal where names collide.
fn collision(collide: bool) -> Option<Answer>
    ensures { result ≡ cond collide (Some Collide) None }
{
    if collide {
        return Some(Answer::Collide);
    }
    None
}

/// The refusal of a create, mkdir or symlink in a free slot.
pub(crate) fn make_collision(
    table: &BlockTable,
    sub: &SubState,
    path: &Path,
    dir: u64,
    name: &[u8],
) -> Option<Answer>
    requires given { (run : RunSub) × GivesRun table.now sub.now run × (walk run.sub path.now ≡ AtSlot dir name.now None)
        × (first_answer (make_tests run (AtSlot dir name.now None)) ≡ None) }
    requires path { IsPath path.now }
    ensures { (run : RunSub) (inode : InodeRecord) → GivesRun table.now sub.now run → walk run.sub path.now ≡ AtSlot dir name.now None
        → first_answer (make_tests run (AtSlot dir name.now None)) ≡ None
        → result ≡ refusal_of (make run path.now inode sub.now.next_index) }
{
    let (index, ino) = (sub.next_index, sub.next_ino);
    let made = [new_entry(table, &sub.tree, &[], dir, name, index, ino)];
    collision(do_collide(table, &sub.tree, &[], &made))
}

/// The refusal of a link in a free slot.
pub(crate) fn link_collision(
    table: &BlockTable,
    sub: &SubState,
    old: &Path,
    new: &Path,
    from: &End<'_>,
    dir: u64,
    name: &[u8],
) -> Option<Answer>
    requires given { (run : RunSub) × GivesRun table.now sub.now run × (walk run.sub old.now ≡ end_view from.now)
        × (walk run.sub new.now ≡ AtSlot dir name.now None)
        × (first_answer (link_tests run (end_view from.now) (AtSlot dir name.now None)) ≡ None) }
    requires old { IsPath old.now }
    requires new { IsPath new.now }
    ensures { (run : RunSub) → GivesRun table.now sub.now run → walk run.sub old.now ≡ end_view from.now
        → walk run.sub new.now ≡ AtSlot dir name.now None
        → first_answer (link_tests run (end_view from.now) (AtSlot dir name.now None)) ≡ None
        → result ≡ refusal_of (link run old.now new.now sub.now.next_index) }
{
    let made = [new_entry(table, &sub.tree, &[], dir, name, sub.next_index, from.ino())];
    collision(do_collide(table, &sub.tree, &[], &made))
}

/// The refusal of a move to a free slot.
fn free_collision(
    table: &BlockTable,
    sub: &SubState,
    old: &Path,
    new: &Path,
    moved: &NameEntry<'_>,
    dir: u64,
    bytes: &[u8],
) -> Option<Answer>
    requires given { (run : RunSub) × GivesRun table.now sub.now run × IsMove run old.now new.now (name_of moved.now) dir bytes.now None }
    ensures { (run : RunSub) → GivesRun table.now sub.now run → IsMove run old.now new.now (name_of moved.now) dir bytes.now None
        → result ≡ refusal_of (rename run old.now new.now sub.now.next_index) }
{
    let gone = [*moved];
    let (index, ino) = (sub.next_index, moved.ino.0);
    let made = [new_entry(table, &sub.tree, &gone, dir, bytes, index, ino)];
    collision(do_collide(table, &sub.tree, &gone, &made))
}

/// The refusal of a move to the slot of another name, which goes.
fn over_collision(
    table: &BlockTable,
    sub: &SubState,
    old: &Path,
    new: &Path,
    source: &NameEntry<'_>,
    target: &NameEntry<'_>,
) -> Option<Answer>
    requires given { (run : RunSub) × GivesRun table.now sub.now run
        × IsMove run old.now new.now (name_of source.now) target.now.dir.0 target.now.bytes.now (Some (name_of target.now)) }
    ensures { (run : RunSub) → GivesRun table.now sub.now run
        → IsMove run old.now new.now (name_of source.now) target.now.dir.0 target.now.bytes.now (Some (name_of target.now))
        → result ≡ refusal_of (rename run old.now new.now sub.now.next_index) }
{
    let gone = [*target, *source];
    let (dir, bytes) = (target.dir.0, target.bytes);
    let (index, ino) = (sub.next_index, source.ino.0);
    let made = [new_entry(table, &sub.tree, &gone, dir, bytes, index, ino)];
    collision(do_collide(table, &sub.tree, &gone, &made))
}

/// The refusal of a move to where another path ends.
pub(crate) fn move_collision(
    table: &BlockTable,
    sub: &SubState,
    old: &Path,
    new: &Path,
    moved: &NameEntry<'_>,
    to: &End<'_>,
) -> Option<Answer>
    requires given { (run : RunSub) × GivesRun table.now sub.now run × (walk run.sub old.now ≡ at_name (name_of moved.now))
        × (walk run.sub new.now ≡ end_view to.now)
        × (first_answer (rename_tests run old.now new.now (at_name (name_of moved.now)) (end_view to.now)) ≡ None) }
    requires is_path { IsPath new.now }
    ensures { (run : RunSub) → GivesRun table.now sub.now run → walk run.sub old.now ≡ at_name (name_of moved.now)
        → walk run.sub new.now ≡ end_view to.now
        → first_answer (rename_tests run old.now new.now (at_name (name_of moved.now)) (end_view to.now)) ≡ None
        → result ≡ refusal_of (rename run old.now new.now sub.now.next_index) }
{
    match *to {
        End::Free { dir, name } => free_collision(table, sub, old, new, moved, dir, name),
        End::Taken { dir, name, held } => {
            let target = entry_held(dir, name, held);
            over_collision(table, sub, old, new, moved, &target)
        }
        End::Root => unreachable!(),
        End::Missing => unreachable!(),
        End::Blocked => unreachable!(),
    }
}

/// The refusal of an exchange of two names.
pub(crate) fn exchange_collision(
    table: &BlockTable,
    sub: &SubState,
    one: &Path,
    two: &Path,
    first: NameEntry<'_>,
    second: NameEntry<'_>,
) -> Option<Answer>
    requires given { (run : RunSub) × GivesRun table.now sub.now run × (walk run.sub one.now ≡ at_name (name_of first))
        × (walk run.sub two.now ≡ at_name (name_of second))
        × (first_answer (exchange_tests run one.now two.now (at_name (name_of first)) (at_name (name_of second))) ≡ None) }
    requires one { IsPath one.now }
    requires two { IsPath two.now }
    ensures { (run : RunSub) → GivesRun table.now sub.now run → walk run.sub one.now ≡ at_name (name_of first.entry)
        → walk run.sub two.now ≡ at_name (name_of second.entry)
        → first_answer (exchange_tests run one.now two.now (at_name (name_of first.entry)) (at_name (name_of second.entry))) ≡ None
        → result ≡ refusal_of (exchange run one.now two.now sub.now.next_index (sub.now.next_index + 1)) }
{
    let gone = [first, second];
    let (index, tree) = (sub.next_index, &sub.tree);
    let (dir, other_dir) = (first.dir.0, second.dir.0);
    let made = [
        new_entry(table, tree, &gone, dir, first.bytes, index, second.ino.0),
        new_entry(
            table,
            tree,
            &gone,
            other_dir,
            second.bytes,
            index + 1,
            first.ino.0,
        ),
    ];
    collision(do_collide(table, tree, &gone, &made))
}
