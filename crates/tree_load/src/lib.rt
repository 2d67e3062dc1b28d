//! Trees loaded from a disk into a table of blocks.
//!
//! `load` reads the blocks of a tree from left to right, a parent before its children, and answers the tree, or the first
//! fault that a walk over the image meets (`volume_image`). Each block is read once and summed once. What stands in the
//! table already counts as reached before, so trees and data loaded into one table share no block.
#![tactic(auto)]

mod below;
mod blocks;
pub mod laws;
mod steps;
#[cfg(test)]
mod tests;
mod walk;

pub use blocks::{read_block, stand};
pub use volume_image::LoadFault;
pub use walk::load;
