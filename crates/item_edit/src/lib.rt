//! One item of a subvolume's tree at a time: bytes put under a key, more bytes put behind those of an item, a part of
//! them taken out, and the item of an inode. Each call is one edit of the tree, copy on write, and takes no memory.
#![tactic(auto)]

mod inode;
mod item;
#[cfg(test)]
mod tests;

pub use inode::{inode_at, write_inode};
pub use item::{append_bytes, cut_bytes, item_len, remove_item, write_item};
