//! The inodes to which the names of a tree lead down from the root directory.
//!
//! Names by rising numbers of their directories are gone through once, from a list of the numbers that were reached; nothing
//! is called again from within.
#![tactic(auto)]

mod reached;
mod walk;

pub use reached::{Reached, reached_by, sort_by_directory};
