//! Writers of the trees of a log, each an edit of the flat log that the items are, without memory and in a room that is
//! told beforehand (`log_edit`).
//!
//! `forget` takes an inode out of a log, with all that the log says of it. `write_inode` puts one in, whole or as one that
//! only exists, with `write_names`, which gives it the names that its subvolume has; `write_whole` leaves the names. The
//! changed blocks of a file come from elsewhere. `laws` says which logs these are.
#![tactic(auto)]

mod copy;
mod entries;
mod inode;
mod item;
pub mod laws;
mod names;
mod whole;

pub use inode::forget;
pub use names::write_names;
pub use whole::{write_inode, write_whole};
