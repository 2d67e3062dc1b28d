//! Walks over the tree of a subvolume: where a path leads, what stands in a slot, what an inode item says, and how long the
//! items of names are. Each is a few searches; none walks a directory.
//!
//! Where the tree gives a coherent subvolume, each call answers what the definitions say of that subvolume
//! (`GivesCoherent` of `specs/Given.antt`).
#![tactic(auto)]

mod found;
mod inode;
mod item;
mod lengths;
mod paths;
mod slots;

pub use found::{End, Held, Target};
pub use inode::{has_entries, inode_item, is_dir, links, record_kind};
pub use item::entries_at;
pub use lengths::{dir_item_len, extref_item_len, ref_item_len};
pub use paths::{walk, walk_to};
pub use slots::{held_at, slot, slot_ino};
