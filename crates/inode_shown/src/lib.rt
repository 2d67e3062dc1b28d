//! The lines of a listing that show one inode of a subvolume's tree: its number, kind, links, size, sum and path, and a
//! line for each of its attributes.
//!
//! An inode is one search for its item, and the items of its attributes, its extents or its target. Of a file's bytes one
//! block at a time is looked at. `specs/Listing.antt` of `volume_listing` has the text, byte for byte.
#![tactic(auto)]

mod attributes;
mod contents;
mod line;
mod words;

pub use line::put_inode;
