//! The listing of a volume that the kernel or its tools made: a line for each name that leads from the root directory of a
//! subvolume to an inode, or the first fault in the order of the lines.
//!
//! `specs/Listing.antt` has the text, byte for byte. Names and extents are held in memory, a file's bytes aren't.
#![tactic(auto)]

mod by_inode;
mod extents;
mod inodes;
pub mod laws;
mod lines;
mod listing;
mod names;
mod places;
mod tree;
mod walk;

pub use listing::list_foreign;
