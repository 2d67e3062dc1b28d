//! Nodes edited in place, in the bytes of a block.
//!
//! `NodeMut` does to the list of pointers of a node what `leaf_edit`'s `LeafMut` does to the list of items of a leaf.
//! It needs no memory and refuses nothing: what an edit asks is a condition of the call.
#![tactic(auto)]

mod body;
mod node_mut;

pub use node_mut::NodeMut;
