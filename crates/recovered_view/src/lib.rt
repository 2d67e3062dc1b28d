//! The logged volume of one subvolume, seen as its names and kinds: what replay of a log over the committed subvolume leaves,
//! read from the two trees without building it. The committed names are those of a view of the committed tree.
#![tactic(auto)]

mod committed;
mod has;
mod keys;
mod logged;
mod names;
mod ranges;
mod slot;
mod sought;
mod view;

pub use view::RecoveredView;
