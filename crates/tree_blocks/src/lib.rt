//! Steps of edits of trees: single blocks of the table of blocks, by their byte addresses.
//!
//! Each call changes the list of one or two blocks as it says, and every other block stays as it is, so that a crate
//! above sees neither an editor nor a loan of bytes. No call takes memory and none refuses: what it needs is a condition
//! that its caller can test. `specs/Steps.antt` says what a table shows of its leaves and nodes.
#![tactic(auto)]

mod child;
mod fresh;
mod leaf;
mod node;
mod read;
mod within_leaf;
mod within_node;

pub use child::Child;
pub use fresh::{new_leaf, new_node, own};
pub use leaf::{leaf_insert, leaf_join, leaf_put_data, leaf_remove, leaf_split};
pub use node::{node_insert, node_join, node_remove, node_set_child, node_split};
pub use read::{
    is_leaf, is_node, leaf_data, leaf_find, leaf_follows, leaf_key, leaf_len, leaf_room,
    node_child, node_find, node_follows, node_key, node_len,
};
