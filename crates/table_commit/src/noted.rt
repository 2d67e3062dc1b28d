//! Blocks that were let go before a seal, by their byte addresses.
ghost use Rattle.std.specs.Prelude.{◌≡◌, ◌≤◌, [], length, vec_capacity};
ghost use Rattle.blk_base.specs.Trees.{NoneTwice};
ghost use Rattle.table_commit.specs.Commit.{AreReleasable, AreReleased, addresses_of, allowed_in, let_go_addresses};

use crate::number::address_of;
use blk_base::Addr;
use block_table::{BlockTable, SlotState};

/// Puts the byte addresses of the blocks that are LetGo into a list, in order (own).
pub fn note_let_go(table: &BlockTable, into: &mut Vec<Addr>)
    requires empty { into.old.items ≡ [] }
    requires room { length table.now.slots ≤ vec_capacity into.old }
    ensures noted { into.new.items ≡ let_go_addresses table.now }
    ensures room { length table.now.slots ≤ vec_capacity into.new }
{
    for number in 0..table.blocks() {
        let at = address_of(number);
        if table.state(at) == SlotState::LetGo {
            into.push_reserved(at);
        }
    }
}

/// Makes the blocks at these byte addresses Free, which gives their buffers back, and leaves the list empty with the room
/// that it has ("btrfs_finish_extent_commit" of fs/btrfs/extent-tree.c).
pub fn release_noted(table: &mut BlockTable, noted: &mut Vec<Addr>)
    requires once { NoneTwice (addresses_of noted.old.items) }
    requires ready { AreReleasable table.old (addresses_of noted.old.items) }
    ensures blocks { AreReleased table.old table.new (addresses_of noted.old.items) (allowed_in (length table.old.slots) (addresses_of noted.old.items)) }
    ensures noted { noted.new.items ≡ [] }
    ensures room { vec_capacity noted.new ≡ vec_capacity noted.old }
{
    while let Some(at) = noted.pop() {
        table.release(at);
    }
}
