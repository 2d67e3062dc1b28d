use blk_base::Addr;

/// A tree whose blocks stand in a table: its root's byte address and level, and the tree that its blocks name as their
/// owner ("Header" of the on-disk format).
#[derive(Clone, Copy, Debug, PartialEq, Eq)]
pub struct Tree {
    pub root: Addr,
    pub level: u8,
    pub owner: u64,
}

/// A subvolume as it is now (own).
#[derive(Clone, Copy, Debug, PartialEq, Eq)]
pub struct SubState {
    pub tree: Tree,
    /// One above the greatest inode number that the subvolume has had in the run.
    pub next_ino: u64,
    /// One above the greatest index that the subvolume has had in the run; 2 where it had none.
    pub next_index: u64,
    /// The generation of the next full commit, which items written now bear.
    pub running: u64,
}
