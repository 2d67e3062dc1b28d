//! The items of one subvolume of a volume that the kernel or its tools made: its inodes, its names and its extents, each as
//! a list in the order of the tree.
//!
//! A row keeps the leaf and the key of its item, and what the item says or the first check that it fails: which of these
//! faults is a volume's first is decided where its names are put in order (`specs/Rows.antt`).
#![tactic(auto)]

mod items;
pub mod laws;
mod rows;

pub use items::{SubvolumeItems, read_items};
pub use rows::{ExtentRow, InodeRow, Name, NameRow};

#[cfg(test)]
mod tests;
