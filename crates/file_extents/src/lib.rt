//! The extents of one file on the tree of a subvolume, edited ("EXTENT_DATA" of the on-disk format): some of its blocks
//! become holes, and holes get new blocks.
//!
//! `put_block` gives a hole a block, and `put_text` as many holes as Free blocks stand one behind the other, in one edit of the
//! tree. A block that is written is a new one each time; the one that stood in its place is let go. `IsContentEdit` of
//! `specs/Extents.antt` says what an edit leaves of all other items and their data, and `HoldContents`, which blocks the file
//! has. No call takes memory.
#![tactic(auto)]

mod clear;
mod cut;
mod fill;
mod fresh;
mod lay;
mod run;

pub use clear::clear_blocks;
pub use cut::last_run;
pub use fill::put_block;
pub use lay::put_text;
pub use run::Run;
