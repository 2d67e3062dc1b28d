//! What a state and all states give: the functions here have no parameters and no body.

ghost use Rattle.std.specs.Prelude.{◌≡◌, List};
ghost use Rattle.flat_model.specs.Running.{IsSoundVolume};
ghost use Rattle.flat_model.specs.Volume.{RunSub, RunVolume};
ghost use Rattle.block_table.specs.declared.tree.SubState.{SubState};
ghost use Rattle.block_table.specs.Table.{Table};
ghost use Rattle.table_volume.specs.Running.{GiveVolume, GivesRun};

/// A state gives one subvolume, and says the greatest inode number and index that it has had.
pub fn a_state_gives_one_subvolume()
    ensures sub { (table : Table) (state : SubState) (one two : RunSub) → GivesRun table state one → GivesRun table state two → one.sub ≡ two.sub }
    ensures last_ino { (table : Table) (state : SubState) (one two : RunSub) → GivesRun table state one → GivesRun table state two → one.numbers.last_ino ≡ two.numbers.last_ino }
    ensures last_index { (table : Table) (state : SubState) (one two : RunSub)
        → GivesRun table state one → GivesRun table state two → one.numbers.last_index ≡ two.numbers.last_index }
{}

/// The volume that states give is sound.
pub fn a_given_volume_is_sound()
    ensures { (table : Table) (states : List SubState) (run : RunVolume) → GiveVolume table states run → IsSoundVolume run }
{}
