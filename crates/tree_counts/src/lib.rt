//! How many items the tree of a subvolume has, and how many blocks its tree and its data take: what a volume has in the
//! table of blocks is bounded by numbers of the flat volume. All laws are of definitions alone: the functions here have no
//! parameters and no body.
#![tactic(auto)]

mod blocks;
mod items;

pub use blocks::{blocks_are_counted, committed_blocks_are_counted};
pub use items::items_are_counted;
