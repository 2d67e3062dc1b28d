//! Which refusal comes first for an operation within a subvolume, told without an edit.
ghost use Rattle.std.specs.Prelude.{◌≡◌};
ghost use Rattle.flat_model.specs.Step.{IsInLimits};
ghost use Rattle.flat_model.specs.Volume.{RunSub};
ghost use Rattle.table_volume.specs.Running.{GivesRun};
ghost use Rattle.volume_ops.specs.Needs.{next_indexes, refusal_in};

use block_table::{BlockTable, SubState};
use file_ops::{refused_del_attr, refused_set_attr, refused_truncate, refused_write};
use flat_model::{Answer, Op};
use name_ops::{
    refused_exchange, refused_link, refused_make, refused_rename, refused_rmdir, refused_unlink,
};

/// The answer that refuses an operation within a subvolume; none where it would be done, or only reads.
pub(crate) fn refusal(table: &BlockTable, sub: &SubState, op: &Op) -> Option<Answer>
    requires limits { IsInLimits op.now }
    requires given { (run : RunSub) × GivesRun table.now sub.now run }
    ensures { (run : RunSub) → GivesRun table.now sub.now run → result ≡ refusal_in run op.now (next_indexes sub.now) }
{
    match op {
        Op::Create(place) | Op::Mkdir(place) | Op::Symlink(place, _) => {
            refused_make(table, sub, &place.path)
        }
        Op::Link(old, new) => refused_link(table, sub, &old.path, &new.path),
        Op::Unlink(place) => refused_unlink(table, sub, &place.path),
        Op::Rmdir(place) => refused_rmdir(table, sub, &place.path),
        Op::Rename(old, new) => refused_rename(table, sub, &old.path, &new.path),
        Op::Exchange(one, two) => refused_exchange(table, sub, &one.path, &two.path),
        Op::Write(place, offset, text) => refused_write(table, sub, &place.path, *offset, text),
        Op::Truncate(place, size) => refused_truncate(table, sub, &place.path, *size),
        Op::SetAttr(place, name, value) => refused_set_attr(table, sub, &place.path, name, value),
        Op::DelAttr(place, name) => refused_del_attr(table, sub, &place.path, name),
        Op::Lookup(_) | Op::Read(_, _, _) | Op::GetAttr(_, _) => None,
    }
}
