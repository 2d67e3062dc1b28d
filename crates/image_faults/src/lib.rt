//! Which inode of a subvolume's items is faulty, and that none is exactly where the items are those of a coherent
//! subvolume. All laws are of definitions alone: the functions here have no parameters and no body.
#![tactic(auto)]

mod counts;
mod inodes;
mod worked;

pub use counts::{files_have_the_bytes_of_their_extents, inodes_have_the_names_of_their_refs};
pub use inodes::{faultless_items_are_coherent, first_faulty_is_lowest};
pub use worked::worked_numbers;
