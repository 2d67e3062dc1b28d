//! All names of a tree, by its items of refs, as they are lent by the table: which directory has each, at which index, and to
//! which inode it leads.
//!
//! A name takes 48 bytes of memory, since its own bytes stay in the tree's blocks.
#![tactic(auto)]

mod collect;
mod name;

pub use collect::{every_item, names_of};
pub use name::{Name, has_own_ref_once};
