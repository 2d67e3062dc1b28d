//! `delete_range` takes the items of a range of keys out of a tree in memory.
//!
//! It finds the first item of the range and deletes it, until there is none. Each delete takes one block for itself at
//! most, and one for each node of the range that isn't Dirty yet; `laws` says that a tree has few of those.
#![tactic(auto)]

mod between;
pub mod laws;

pub use between::delete_range;
