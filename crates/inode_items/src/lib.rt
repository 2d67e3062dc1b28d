//! Inodes of a subvolume on its tree: a new file and a new directory, without a name yet. It takes no memory.
#![tactic(auto)]

mod add;

pub use add::{NewInode, add_inode};
