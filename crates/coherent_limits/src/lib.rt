//! Limits of extents: each block of a file's run begins below the file's size, and what is past the size is zeros.
//!
//! Of a run the bytes of at most one block are looked at.
#![tactic(auto)]

mod extents;
mod runs;

pub use extents::{is_right_extent, size_of};
