//! Names put into a subvolume, and taken out of it, one after the other.
ghost use Rattle.std.specs.Prelude.{◌≡◌, ◌*◌, ◌≤◌, length};
ghost use Rattle.flat_model.specs.Operations.{add_names};
ghost use Rattle.flat_model.specs.Volume.{Subvolume};
ghost use Rattle.tree_frame.specs.Frame.{AreCurrent};
ghost use Rattle.table_volume.specs.Edited.{Makes};
ghost use Rattle.table_volume.specs.Gives.{GivesSubvolume, sub_reach};
ghost use Rattle.name_ops.specs.Changes.{MayCome, MayGo, names_told, remove_names, with_names};
ghost use Rattle.table_volume.specs.Operated.{HasRoom};

use block_table::{BlockTable, SubState};
use name_items::{NameEntry, add_name, remove_name};

/// Puts names into a subvolume.
pub(crate) fn add_names(table: &mut BlockTable, sub: &mut SubState, made: &[NameEntry<'_>])
    requires may { (s : Subvolume) × GivesSubvolume table.old sub.old.tree s × MayCome s (names_told made.now) }
    requires current { AreCurrent table.old (sub_reach table.old sub.old.tree) }
    requires room { HasRoom table.old (85 * length made.now) }
    ensures made { (s : Subvolume) → GivesSubvolume table.old sub.old.tree s → MayCome s (names_told made.now)
        → Makes table.old table.new sub.old sub.new (85 * length made.now) (with_names s (add_names s.names (names_told made.now))) }
    ensures next_ino { sub.new.next_ino ≡ sub.old.next_ino }
    ensures next_index { sub.new.next_index ≡ sub.old.next_index }
{
    for name in made {
        add_name(table, sub, name);
    }
}

/// Takes names out of a subvolume, whose inodes stay.
pub(crate) fn remove_names(table: &mut BlockTable, sub: &mut SubState, gone: &[NameEntry<'_>])
    requires may { (s : Subvolume) × GivesSubvolume table.old sub.old.tree s × MayGo s (names_told gone.now) }
    requires current { AreCurrent table.old (sub_reach table.old sub.old.tree) }
    requires room { HasRoom table.old (85 * length gone.now) }
    ensures gone { (s : Subvolume) → GivesSubvolume table.old sub.old.tree s → MayGo s (names_told gone.now)
        → Makes table.old table.new sub.old sub.new (85 * length gone.now) (with_names s (remove_names s.names (names_told gone.now))) }
    ensures next_ino { sub.new.next_ino ≡ sub.old.next_ino }
    ensures next_index { sub.new.next_index ≡ sub.old.next_index }
{
    for name in gone {
        remove_name(table, sub, name);
    }
}
