use foreign_format::Chunk;

/// What the tree blocks of a volume are found and checked by: the uuid of its file system, the bytes of a block, and the
/// map from logical addresses to the disk.
#[derive(Drop)]
pub struct Volume {
    pub fsid: [u8; 16],
    pub node_size: usize,
    pub chunks: Vec<Chunk>,
}

/// A tree block by what is wanted of it: its logical byte address, its generation where that is looked at, and its level.
#[derive(Clone, Copy, Debug, PartialEq, Eq)]
pub struct Wanted {
    pub at: u64,
    pub generation: Option<u64>,
    pub level: u8,
}
