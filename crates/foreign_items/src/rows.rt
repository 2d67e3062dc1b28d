use blk_base::{ItemFault, Key};
use foreign_format::{EntryKind, Extent, Inode};

/// An inode item of the leaf at this address: what it says, or the first check that it fails.
#[derive(Clone, Copy, Debug, PartialEq, Eq)]
pub struct InodeRow {
    pub leaf: u64,
    pub key: Key,
    pub inode: Result<Inode, ItemFault>,
}

/// An extent item of the leaf at this address, in the same way.
#[derive(Clone, Copy, Debug, PartialEq, Eq)]
pub struct ExtentRow {
    pub leaf: u64,
    pub key: Key,
    pub extent: Result<Extent, ItemFault>,
}

/// A name in a directory, and the number of the inode or subvolume that it leads to.
#[derive(Drop)]
pub struct Name {
    pub to: u64,
    pub kind: EntryKind,
    pub bytes: Vec<u8>,
}

/// An entry of a directory in the leaf at this address: its name, or the first check that it fails. The key's first number
/// is the directory.
#[derive(Drop)]
pub struct NameRow {
    pub leaf: u64,
    pub key: Key,
    pub name: Result<Name, ItemFault>,
}
