ghost use Rattle.std.specs.Prelude.{◌≢◌};

use blk_base::Block;

/// The number of a block that isn't the superblock's.
#[derive(Drop)]
pub struct Place {
    pub at: u32,
    ghost not_super: { at ≢ 16 },
}

/// A call that a disk records, with its bytes and whether it answered Ok.
#[derive(Drop)]
pub enum Entry {
    Write {
        place: Place,
        bytes: Block,
        ok: bool,
    },
    Super {
        bytes: Block,
        ok: bool,
    },
    Flush {
        ok: bool,
    },
}
