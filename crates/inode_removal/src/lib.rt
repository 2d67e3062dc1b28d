//! An inode without a name taken out of a subvolume, with all its items and data blocks. It takes no memory.
#![tactic(auto)]

mod remove;

pub use remove::remove_inode;
