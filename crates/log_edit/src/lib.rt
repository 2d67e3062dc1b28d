//! Edits of a log's tree in memory, one item at a time, within a room that is told beforehand.
//!
//! An edit takes 17 blocks at most, but what a tree has at the end depends on its items alone, and blocks that an earlier
//! edit took are given back or edited again. So the room for any number of edits is a number of blocks and buffers by the
//! items that the tree will have (`specs/Room.antt`); `put_item`, `replace_item`, `delete_item` and `delete_items` keep it,
//! and `laws` says why.
#![tactic(auto)]

mod between;
mod edit;
pub mod laws;

pub use between::delete_items;
pub use edit::{delete_item, put_item, replace_item};
