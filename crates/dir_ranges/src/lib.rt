//! Writers of the ranges of a log's directories, each an edit of the flat log that the items of its tree are, without memory
//! and in a room that is told beforehand (`log_edit`).
//!
//! `write_gone` puts in a range for the index of each name that the committed subvolume has of an inode that is gone, unless
//! a range covers the index. Of a directory that differs between two trees `drop_listing` takes out what the log has,
//! `write_ranges` puts in its ranges anew, and `write_entries` the entries in them. `laws` says which log the items are when a
//! range or an entry is put in, and when a directory's are taken out.
#![tactic(auto)]

mod copy;
mod covered;
mod entries;
mod gone;
mod index;
pub mod laws;
mod listing;
mod place;
mod put;
mod ranges;
mod uncovered;

pub use entries::write_entries;
pub use gone::write_gone;
pub use listing::drop_listing;
pub use ranges::write_ranges;
