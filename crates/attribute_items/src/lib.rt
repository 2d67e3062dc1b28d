//! The attributes of an inode as items of the tree of its subvolume ("XATTR_ITEM" of the on-disk format): read, given a
//! value, and taken away.
//!
//! Attributes whose names have one hash share an item. `specs/Found.antt` says what stands in one, and
//! `specs/Given.antt` when an attribute may be set or taken away. What a call makes of the subvolume is `Makes` of
//! `table_volume`. No call takes memory.
#![tactic(auto)]

mod attributes;
mod entries;
#[cfg(test)]
mod tests;

pub use attributes::{get_attribute, is_crowded, remove_attribute, set_attribute};
