//! The subvolume that a tree in the table gives, seen as its names and kinds: a `NameView` that copies nothing and builds
//! nothing. A slot or a hash is one search; the names of an inode or of a directory are one search and the items that have
//! them.
#![tactic(auto)]

mod told;
mod view;

pub use view::CurrentView;
