//! The listing of a flat volume, for people and for comparisons: a line for each name that leads from the root
//! directory of a subvolume to an inode, and a line for each attribute.
//!
//! `specs/Listing.antt` has the text, byte for byte.
#![tactic(auto)]

mod lines;
mod listing;
mod order;
mod text;
mod walk;

pub use listing::{ListFault, write_listing};
