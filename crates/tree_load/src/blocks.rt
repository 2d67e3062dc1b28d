//! Blocks read from a disk, and put into a table.
ghost use Rattle.std.specs.Prelude.{◌≡◌, ◌<◌, ◌/◌, ◌∷◌, [], OnOk, length};
ghost use Rattle.blk_base.specs.Address.{IsAllowed};
ghost use Rattle.block_table.specs.declared.state.SlotState.{SlotState};
ghost use Rattle.block_table.specs.Table.{slot_at, state_at};
ghost use Rattle.disk_model.specs.Disk.{HasCause, IfTold, known};
ghost use Rattle.volume_image.specs.Tree.{block_of};
ghost use Rattle.tree_load.specs.Loaded.{IsLoad};

use blk_base::format::BLOCK_SIZE;
use blk_base::{Addr, Block, OutOfMemory};
use block_table::BlockTable;
use disk_model::{Disk, DiskFailed};
use std::alloc::Global;

#[tactic(auto, using(disk_model::proofs::CrashLaws::known_read))]
/// Reads the block at a byte address.
pub fn read_block<D: Disk>(disk: &mut D, at: Addr, into: &mut Block) -> Result<(), DiskFailed>
    requires { at.0 / 4096 < D.count disk.old }
    ensures bytes { OnOk result (IfTold (known (D.seen disk.old) (D.lost disk.old)) (λ image. block_of image at.0 ≡ into.new)) }
    ensures size { D.count disk.new ≡ D.count disk.old }
    ensures seen { D.seen disk.new ≡ D.seen disk.old }
    ensures lost { D.lost disk.new ≡ D.lost disk.old }
    ensures told { D.told disk.new ≡ D.told disk.old }
    ensures cause { HasCause (D.faults disk.old) (D.faults disk.new) result }
{
    // Its number fits 32 bits, as the number of blocks does.
    let _blocks = disk.blocks();
    disk.read((at.0 / BLOCK_SIZE) as u32, into)
}

/// Puts a block that was read from a byte address into the table, as data or as a tree block, with a spare buffer, or a new
/// one where none is spare.
pub fn stand(
    alloc: Global,
    table: &mut BlockTable,
    at: Addr,
    block: &Block,
    is_data: bool,
) -> Result<(), OutOfMemory>
    requires allowed { IsAllowed (length table.old.slots) at.0 }
    requires free { state_at table.old at ≡ SlotState.Free }
    ensures load { OnOk result (IsLoad is_data table.old table.new (at.0 ∷ [])) }
    ensures bytes { OnOk result ((slot_at table.new at).bytes ≡ block.now) }
{
    if table.spare() == 0 {
        table.reserve(alloc, 1)?;
    }
    table.stand(at, block, is_data);
    Ok(())
}
