//! What must hold of an inode of a subvolume's tree, line by line: its number, its inode item, the
//! root directory's name for itself, the keys of its items, and the entries of each of its names.
//!
//! Each call looks up what it needs in the tree, and takes no memory. Contracts speak of the subvolume that the items say
//! (`image_faults`), whichever blocks stand where the extents lead.
#![tactic(auto)]

mod kinds;
mod lines;
mod refs;
#[cfg(test)]
mod tests;

pub use kinds::kind_at;
pub use lines::{has_inode_item, has_own_ref, has_right_key, is_ino_number};
pub use refs::{Ref, has_entry, is_right_ref};
