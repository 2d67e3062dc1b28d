//! The items of an inode: the inode item itself ("INODE_ITEM" of the on-disk format) and its names ("INODE_REF",
//! "INODE_EXTREF"), from any bytes and into bytes.
#![tactic(auto)]

mod extrefs;
mod inode;
mod names;
mod refs;
mod write;

pub use blk_base::ItemFault;
pub use extrefs::ExtRefs;
pub use inode::InodeItem;
pub use refs::Refs;
pub use write::{put_extref, put_ref};
