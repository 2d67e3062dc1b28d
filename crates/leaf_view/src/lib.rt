//! Leaves and nodes of a tree, read from the bytes of a block without a copy.
//!
//! `LeafView::open` and `NodeView::open` make the checks of a tree block in their order and answer its list of items
//! or pointers, or the first check that fails, for any 4096 bytes.
#![tactic(auto)]

mod checks;
mod leaf;
mod node;
mod read;
mod search;

pub use leaf::{LeafView, is_leaf_body};
pub use node::{NodeView, is_node_body};
pub use read::key_at;
