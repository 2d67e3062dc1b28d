//! An inode apart from its names: its attributes, and the blocks of a file or the target of a symlink.
#![tactic(auto)]

mod attribute_items;
mod attributes;
mod block;
mod block_limits;
mod blocks;
mod file;
mod record;
mod table;

pub use record::Inode;
pub use table::{drop_entries, place_of, put_entry};
