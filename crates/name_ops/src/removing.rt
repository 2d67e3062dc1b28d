//! Names taken away.
ghost use Rattle.std.specs.Prelude.{◌≡◌};
ghost use Rattle.flat_model.specs.Needs.{gone_with};
ghost use Rattle.flat_model.specs.Operations.{rmdir, unlink, without_name};
ghost use Rattle.flat_model.specs.Volume.{RunSub, Subvolume};
ghost use Rattle.flat_model.specs.Walk.{walk};
ghost use Rattle.tree_frame.specs.Frame.{AreCurrent};
ghost use Rattle.table_volume.specs.Edited.{Makes};
ghost use Rattle.table_volume.specs.Gives.{GivesSubvolume, sub_reach};
ghost use Rattle.table_volume.specs.Operated.{HasRoom, IsOperated};
ghost use Rattle.table_volume.specs.Running.{GivesRun};
ghost use Rattle.name_walk.specs.Ends.{name_held};
ghost use Rattle.name_items.specs.Names.{name_of};
ghost use Rattle.name_ops.specs.Drops.{MayDrop, most_dropped, most_for, room_for};

use crate::keeping::{rmdir_refusal, unlink_refusal};
use blk_base::Ino;
use block_table::{BlockTable, SubState};
use flat_model::{Answer, Path};
use inode_removal::remove_inode;
use name_items::{NameEntry, remove_name};
use name_walk::{End, Held, links, walk};

/// The name in a slot.
pub(crate) fn entry_held(dir: u64, bytes: &[u8], held: Held) -> NameEntry<'_>
    ensures { name_of result ≡ name_held dir bytes.now held }
{
    NameEntry {
        dir: Ino(dir),
        index: held.index,
        bytes,
        ino: Ino(held.ino),
        near: held.near,
    }
}

/// Takes a name out of a subvolume, and its inode with it where that has no other name.
pub(crate) fn drop_name(table: &mut BlockTable, sub: &mut SubState, name: &NameEntry<'_>)
    requires may { (s : Subvolume) × GivesSubvolume table.old sub.old.tree s × MayDrop s (name_of name.now) × HasRoom table.old (most_dropped s (name_of name.now)) }
    requires current { AreCurrent table.old (sub_reach table.old sub.old.tree) }
    ensures made { (s : Subvolume) → GivesSubvolume table.old sub.old.tree s → MayDrop s (name_of name.now)
        → Makes table.old table.new sub.old sub.new (most_dropped s (name_of name.now)) (without_name s (name_of name.now)) }
    ensures next_ino { sub.new.next_ino ≡ sub.old.next_ino }
    ensures next_index { sub.new.next_index ≡ sub.old.next_index }
{
    let is_last = links(table, &sub.tree, name.ino.0) == 1;
    remove_name(table, sub, name);
    if is_last {
        remove_inode(table, sub, name.ino);
    }
}

/// Takes a name of a file or symlink away, and with its last name the inode ("INODE_REF", "DIR_ITEM" of the on-disk format).
/// It takes 512 blocks and buffers at most, and 2 for each data block, inline extent and attribute item that goes.
pub fn unlink(table: &mut BlockTable, sub: &mut SubState, path: &Path) -> Answer
    requires given { (run : RunSub) × GivesRun table.old sub.old run
        × HasRoom table.old (room_for (unlink run path.now) (gone_with run.sub (walk run.sub path.now))) }
    ensures { (run : RunSub) → GivesRun table.old sub.old run
        → IsOperated table.old table.new sub.old sub.new run (unlink run path.now) result (most_for (gone_with run.sub (walk run.sub path.now))) }
{
    let end = walk(table, &sub.tree, path);
    if let Some(answer) = unlink_refusal(table, sub, &end) {
        return answer;
    }
    match end {
        End::Taken { dir, name, held } => {
            drop_name(table, sub, &entry_held(dir, name, held));
            Answer::Plain
        }
        End::Root => unreachable!(),
        End::Free { .. } => unreachable!(),
        End::Missing => unreachable!(),
        End::Blocked => unreachable!(),
    }
}

/// Takes a directory without names away ("INODE_REF", "DIR_ITEM" of the on-disk format). It takes 512 blocks and buffers at
/// most, and 2 for each attribute item that goes.
pub fn rmdir(table: &mut BlockTable, sub: &mut SubState, path: &Path) -> Answer
    requires given { (run : RunSub) × GivesRun table.old sub.old run
        × HasRoom table.old (room_for (rmdir run path.now) (gone_with run.sub (walk run.sub path.now))) }
    ensures { (run : RunSub) → GivesRun table.old sub.old run
        → IsOperated table.old table.new sub.old sub.new run (rmdir run path.now) result (most_for (gone_with run.sub (walk run.sub path.now))) }
{
    let end = walk(table, &sub.tree, path);
    if let Some(answer) = rmdir_refusal(table, sub, &end) {
        return answer;
    }
    match end {
        End::Taken { dir, name, held } => {
            drop_name(table, sub, &entry_held(dir, name, held));
            Answer::Plain
        }
        End::Root => unreachable!(),
        End::Free { .. } => unreachable!(),
        End::Missing => unreachable!(),
        End::Blocked => unreachable!(),
    }
}
