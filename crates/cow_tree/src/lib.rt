//! Trees in a table of blocks, edited copy on write: an item put under a key.
//!
//! An edit goes down to the leaf where the key belongs, changes it, and then changes each node on the way back to the root.
//! A block that isn't Dirty is copied and let go before it is changed. A leaf becomes three at most and a node two, so an
//! edit takes 17 blocks at most. No call takes memory and none refuses.
//!
//! `get`, which reads an item, `delete`, which takes one out, and `delete_range`, which takes out a range, stand beside
//! them: a caller finds the five in one place.
#![tactic(auto)]

mod edit;
mod leaf;
mod node;
mod own;
mod pieces;
mod write;

pub use edit::{put, replace};
pub use tree_delete::delete;
pub use tree_delete_range::delete_range;
pub use tree_range::get;
