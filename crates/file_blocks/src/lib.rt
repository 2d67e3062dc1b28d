//! The contents of files on the tree of a subvolume: a block by its number, and bytes from an offset on ("EXTENT_DATA" of
//! the on-disk format).
//!
//! An extent is a run of blocks. The one of a block is found by halving: each step asks whether an extent begins between
//! two blocks. Only `read` takes memory, for its answer alone.
#![tactic(auto)]

mod extents;
mod reading;
#[cfg(test)]
mod tests;

pub use extents::{extent_key, file_block, last_extent};
pub use reading::read;
