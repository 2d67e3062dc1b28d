//! Whether there is room for an operation that removes nothing.
ghost use Rattle.std.specs.Prelude.{◌↔◌, IsTrue};
ghost use Rattle.table_volume.specs.Operated.{HasRoom};

use block_table::BlockTable;

/// The most blocks and buffers that an operation takes which removes nothing (own).
const LEAST_ROOM: u32 = 512;

/// Whether as many blocks are Free, and as many buffers spare, as an operation takes at most that removes nothing.
pub(crate) fn has_least_room(table: &BlockTable) -> bool
    ensures { IsTrue result ↔ HasRoom table.now 512 }
{
    table.spare() >= LEAST_ROOM && table.free_count() >= LEAST_ROOM
}
