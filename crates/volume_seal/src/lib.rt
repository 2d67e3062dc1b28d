//! All trees of a volume sealed, with a new root tree and the superblock: the blocks of a full commit.
//!
//! `seal_volume` gives the Dirty blocks of each subvolume's tree their headers and sums, hands them out with the Dirty data
//! blocks of its files, and makes and seals a root tree over them. `superblock_of` is the superblock that commits to it.
//! `laws` says that an image which has these blocks and this superblock stands for the volume that the states give.
#![tactic(auto)]

mod count;
mod data;
pub mod laws;
mod roots;
mod state;
mod superblock;
mod volume;

pub use count::count_blocks;
pub use superblock::superblock_of;
pub use volume::seal_volume;
