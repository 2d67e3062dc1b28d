//! Names of a subvolume on its tree: one name added, and one removed, with its entries in the items of its inode and of its
//! directory, and what the items of both inodes count. Each call is one edit of the subvolume and takes no memory.
#![tactic(auto)]

mod add;
mod cut;
mod entry;
mod items;
mod place;
mod remove;

pub use add::add_name;
pub use entry::NameEntry;
pub use remove::remove_name;
