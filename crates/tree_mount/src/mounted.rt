use block_table::{BlockTable, SubState, Tree};
use volume_format::Super;

/// A mounted volume: the table that has its blocks, the states of its subvolumes by rising numbers, its root tree, and its
/// superblock (own).
#[derive(Drop)]
pub struct Mounted {
    pub table: BlockTable,
    pub states: Vec<SubState>,
    pub root: Tree,
    pub superblock: Super,
}
