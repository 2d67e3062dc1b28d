ghost use Rattle.std.specs.Prelude.{◌≡◌};
ghost use Rattle.flat_model.specs.Operations.{lookup};
ghost use Rattle.flat_model.specs.Volume.{RunSub};
ghost use Rattle.table_volume.specs.Running.{GivesRun};
ghost use Rattle.table_volume.specs.Operated.{IsOperated};

use block_table::{BlockTable, SubState};
use flat_model::{Answer, Path};
use name_walk::{Target, walk_to};

/// The number of the inode at a place.
pub fn lookup(table: &BlockTable, sub: &SubState, path: &Path) -> Answer
    requires { (run : RunSub) × GivesRun table.now sub.now run }
    ensures { (run : RunSub) → GivesRun table.now sub.now run → IsOperated table.now table.now sub.now sub.now run (lookup run path.now) result 0 }
{
    match walk_to(table, &sub.tree, path) {
        Target::Inode(ino) => Answer::Number(ino),
        Target::Missing => Answer::NoEnt,
        Target::Blocked => Answer::NotDir,
    }
}
