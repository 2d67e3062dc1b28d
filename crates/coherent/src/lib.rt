//! Whether the items of a tree are those of a coherent subvolume, and else which is the lowest faulty inode.
//!
//! All names of the tree are read once, with the slots, the counts and the ways up that they say; then each item is looked
//! at once, by rising keys. A name takes up to 200 bytes of memory meanwhile.
#![tactic(auto)]

mod check;
mod content;
mod survey;

pub use check::coherent;
