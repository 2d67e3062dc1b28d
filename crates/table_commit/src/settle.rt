//! Sealed blocks, once it is known whether their batch is on the device.
ghost use Rattle.std.specs.Prelude.{◌≡◌, ◌%◌, false};
ghost use Rattle.block_table.specs.Table.{slot_at, with_slot};
ghost use Rattle.table_commit.specs.Commit.{IsBack, NoneOut, settled, unsealed, with_each};

use crate::number::address_of;
use blk_base::Addr;
use block_table::{BlockTable, SlotState};

/// Makes a block Live where it is Sealed.
fn settle_block(table: &mut BlockTable, at: Addr)
    requires aligned { at.0 % 4096 ≡ 0 }
    requires back { IsBack (slot_at table.old at) }
    ensures { table.new ≡ with_slot table.old at (settled (slot_at table.old at)) }
{
    if table.state(at) == SlotState::Sealed {
        table.settle(at);
    }
}

/// Makes a block Dirty where it is Sealed.
fn unseal_block(table: &mut BlockTable, at: Addr)
    requires aligned { at.0 % 4096 ≡ 0 }
    requires back { IsBack (slot_at table.old at) }
    ensures { table.new ≡ with_slot table.old at (unsealed (slot_at table.old at)) }
{
    if table.state(at) == SlotState::Sealed {
        table.unseal(at);
    }
}

/// Makes each Sealed block Live, with its bytes as they are: the batch that has them is on the device (own).
pub fn settle_sealed(table: &mut BlockTable)
    requires { NoneOut table.old }
    ensures { table.new ≡ with_each settled table.old }
{
    for number in 0..table.blocks() {
        settle_block(table, address_of(number));
    }
}

/// Makes each Sealed block Dirty again, with its bytes as they are: the batch that has them isn't on the device (own).
pub fn unseal_sealed(table: &mut BlockTable)
    requires { NoneOut table.old }
    ensures { table.new ≡ with_each unsealed table.old }
{
    for number in 0..table.blocks() {
        unseal_block(table, address_of(number));
    }
}
