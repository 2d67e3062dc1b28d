use crate::format::BLOCK_SIZE;

/// A block of the disk, of a tree or of data: 4096 bytes.
pub type Block = [u8; BLOCK_SIZE as usize];

/// A byte address on the device, which is also the logical address. Addresses of blocks are multiples of 4096.
#[derive(Clone, Copy, Debug, PartialEq, Eq, PartialOrd, Ord)]
pub struct Addr(pub u64);

/// The number of an inode within its subvolume; the root directory has 256.
#[derive(Clone, Copy, Debug, PartialEq, Eq, PartialOrd, Ord)]
pub struct Ino(pub u64);

/// The number of a subvolume: 5, then 256, 257 and so on.
#[derive(Clone, Copy, Debug, PartialEq, Eq, PartialOrd, Ord)]
pub struct SubId(pub u64);

/// A key of a tree, ordered by object id, then type, then offset ("Key" of the on-disk format).
#[derive(Clone, Copy, Debug, PartialEq, Eq, PartialOrd, Ord)]
pub struct Key {
    pub objectid: u64,
    pub kind: u8,
    pub offset: u64,
}

/// What a tree block has to be: the fields of its header that its reader knows before ("Header" of the on-disk
/// format).
#[derive(Clone, Copy, Debug, PartialEq, Eq)]
pub struct Want {
    pub fsid: [u8; 16],
    pub at: Addr,
    pub generation: u64,
    pub owner: u64,
    pub level: u8,
}

/// Numbers of the seals of a run, root and full commits together, from 1; 0 stands for none (own).
#[derive(Clone, Copy, Debug, PartialEq, Eq)]
pub struct Marks {
    /// The last one that was done.
    pub done: u64,
    /// The last one whose superblock was tried.
    pub tried: u64,
    /// The last one tried that was a full commit.
    pub full: u64,
}
