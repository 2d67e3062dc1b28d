//! Sums over the items of one inode of a tree: whether the numbers of its inode item are those of its names, its extents and
//! its target.
//!
//! A number is counted down, item by item, so that no sum is too great.
#![tactic(auto)]

mod amounts;
mod links;
mod sums;

pub use links::{Links, links_of};
pub use sums::{index_names_add_up, items_of, runs_add_up, target_adds_up};
