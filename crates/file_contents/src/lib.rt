//! The bytes of a file by its inode's number, written and cut on the tree of a subvolume ("EXTENT_DATA" and "INODE_ITEM" of the
//! on-disk format).
//!
//! A write is copy on write by whole blocks: what it touches gets new blocks, which become one run where they were taken one
//! behind the other, and the blocks that stood there are let go. No call takes memory.
#![tactic(auto)]

mod block;
mod count;
mod cut;
mod front;
mod size;
mod write;

pub use count::blocks_past;
pub use cut::cut_file;
pub use write::write_file;
