//! Subvolumes in a table of blocks: which subvolume a tree there gives with the data of its files, and what an edit of
//! the table leaves of it; definitions and laws alone.
//!
//! `specs/Gives.antt` says which subvolume a tree gives, by its items and by the bytes of the blocks that they lead to,
//! and which blocks it has in all. `specs/Running.antt` says which subvolume in its run a state gives, and which volume
//! all states give. The laws say what an edit of one subvolume's blocks, `IsEdit` of `tree_frame`, leaves of the
//! others, and that no block is lost by it.
#![tactic(auto)]

pub mod change;
pub mod edited;
pub mod edits;
pub mod frame;
pub mod gives;
pub mod running;
