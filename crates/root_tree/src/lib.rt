//! A root tree of few root items, made anew: one leaf, or two leaves and a node, of three blocks at most. It takes no memory.
#![tactic(auto)]

mod leaf;
mod tree;

pub use tree::root_tree;
