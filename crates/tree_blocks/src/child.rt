use blk_base::{Addr, Key};

/// What a pointer of a node says of a child ("Internal Node" of the on-disk format).
#[derive(Clone, Copy, Debug, PartialEq, Eq)]
pub struct Child {
    /// The child's first key.
    pub key: Key,
    /// The byte address of the child's block.
    pub at: Addr,
    /// The generation that the child's block has.
    pub generation: u64,
}
