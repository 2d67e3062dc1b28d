//! The seal of a full commit.
ghost use Rattle.std.specs.Prelude.{◌≡◌, ◌≤◌, [], All, None, length, vec_capacity};
ghost use Rattle.block_table.specs.declared.tree.SubState.{SubState as State};
ghost use Rattle.flat_model.specs.Volume.{RunVolume};
ghost use Rattle.table_volume.specs.Operated.{HasRoom};
ghost use Rattle.table_volume.specs.Running.{GiveVolume};
ghost use Rattle.volume_image.specs.Roots.{next_generation};
ghost use Rattle.volume_seal.specs.Sealed.{IsReady};
ghost use Rattle.commit_blocks.specs.Steps.{IsKeptSealed, with_running};

use crate::Kept;
use blk_base::Block;
use block_table::{BlockTable, Blocks, SubState};
use table_commit::note_let_go;
use volume_seal::{count_blocks, seal_volume, superblock_of};

/// Items that are written from now on bear this generation ("INODE_ITEM": transid).
fn set_running(states: &mut [SubState], generation: u64)
    ensures { states.new ≡ with_running generation states.old }
{
    for place in 0..states.len() {
        states[place].running = generation;
    }
}

/// How many blocks the trees of some subvolumes have, with their files' data.
fn count_all(table: &BlockTable, states: &[SubState]) -> u32
    requires { (run : RunVolume) × GiveVolume table.now states.now run }
{
    let mut used: u32 = 0;
    for state in states {
        used = used.saturating_add(count_blocks(table, &state.tree));
    }
    used
}

impl Kept {
    /// Seals all trees with a new root tree over them, hands out their blocks and writes the superblock that commits to
    /// it. What was let go so far is noted, since the new superblock doesn't reach it; and new items bear the next
    /// generation (own).
    pub fn seal(&mut self, superblock: &mut Block) -> Blocks
        requires volume { (run : RunVolume) × GiveVolume self.old.table self.old.states.items run }
        requires few { length self.old.states.items ≤ 16 }
        requires ready { All (λ (state : State). IsReady self.old.table state.tree self.old.fsid) self.old.states.items }
        requires room { HasRoom self.old.table 3 }
        requires lists { 1 ≤ self.old.table.lists }
        requires noted { self.old.let_go.items ≡ [] }
        requires capacity { length self.old.table.slots ≤ vec_capacity self.old.let_go }
        requires least { 4096 ≤ length self.old.table.slots }
        requires most { length self.old.table.slots ≤ 65536 }
        ensures { IsKeptSealed self.old self.new superblock.new result }
    {
        note_let_go(&self.table, &mut self.let_go);
        let mut list = self.table.list();
        let free = self.table.free_count();
        let root = seal_volume(
            &mut self.table,
            &self.states,
            &self.fsid,
            self.generation,
            &mut list,
        );
        let fresh = free.saturating_sub(self.table.free_count());
        let used = count_all(&self.table, &self.states).saturating_add(fresh);
        let said = superblock_of(&self.table, &root, &self.fsid, self.generation, used);
        said.encode(superblock);
        self.sealed = Some(root);
        self.generation = self.generation.wrapping_add(1);
        set_running(&mut self.states, self.generation);
        list
    }
}
