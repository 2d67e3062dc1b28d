//! What stands at a path.
ghost use Rattle.std.specs.Prelude.{◌≡◌};
ghost use Rattle.flat_model.specs.Volume.{RunSub};
ghost use Rattle.flat_model.specs.Walk.{walk};
ghost use Rattle.tree_range.specs.Shape.{IsTree};
ghost use Rattle.table_volume.specs.Running.{GivesRun};
ghost use Rattle.file_ops.specs.There.{IsThere};

use blk_base::Ino;
use block_table::{BlockTable, SubState};
use flat_model::Path;
use name_walk::{End, walk};

/// What stands at a path: an inode with this number, nothing, or nothing since a name before the last leads to no directory.
#[derive(Clone, Copy, Debug, PartialEq, Eq)]
pub(crate) enum There {
    At(Ino),
    Missing,
    Blocked,
}

/// What stands at a path.
pub(crate) fn find(table: &BlockTable, sub: &SubState, path: &Path) -> There
    requires { IsTree table.now sub.now.tree }
    ensures { (run : RunSub) → GivesRun table.now sub.now run → IsThere run.sub (walk run.sub path.now) result }
{
    match walk(table, &sub.tree, path) {
        End::Root => There::At(Ino(256)),
        End::Taken { held, .. } => There::At(Ino(held.ino)),
        End::Free { .. } => There::Missing,
        End::Missing => There::Missing,
        End::Blocked => There::Blocked,
    }
}
