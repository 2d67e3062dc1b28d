//! How much an operation removes from the tree of a subvolume, before it is carried out: data blocks, inline extents and
//! attribute items.
//!
//! A path is walked, and the runs and attribute items of an inode are gone over: the cost is that of this inode's items. No
//! call takes memory.
#![tactic(auto)]

mod attributes;
mod counted;
mod inode;
mod place;

pub use counted::removed;
