//! What a mounted volume keeps of blocks.
use blk_base::Addr;
use block_table::{BlockTable, SubState, Tree};

/// The blocks of a volume: its table and the states of its subvolumes by rising numbers; the root trees of the superblock
/// that was written last, of one whose write failed since then, and of the full commit that runs; and the byte addresses
/// of the blocks that were let go before its seal (own).
#[derive(Drop)]
pub struct Kept {
    pub table: BlockTable,
    pub states: Vec<SubState>,
    pub fsid: [u8; 16],
    /// The generation of the next full commit.
    pub generation: u64,
    pub last: Tree,
    pub failed: Option<Tree>,
    pub sealed: Option<Tree>,
    pub let_go: Vec<Addr>,
}
