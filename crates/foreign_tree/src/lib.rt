//! Trees of volumes that the kernel or its tools made, read from a disk.
//!
//! `walk` reads a tree from its root down, from left to right and a parent before its children, and shows a visitor each
//! item; or it answers the first fault that the definition has there (`specs/Tree.antt`). Each block is read once and
//! summed once, and one block for each level is held at a time. `read_part` reads any range of a disk's bytes.
#![tactic(auto)]

mod disk;
pub mod laws;
mod node;
mod reached;
mod tree;
mod visit;
mod volume;

pub use disk::read_part;
pub use reached::Reached;
pub use tree::walk;
pub use visit::Visit;
pub use volume::{Volume, Wanted};

#[cfg(test)]
mod tests;
