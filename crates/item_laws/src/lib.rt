//! Laws of the items of a tree, for every list of bytes: what a reader accepts is what the format spells, and what is
//! written reads back. Each law is the contract of a function that does nothing. `specs/` has the lemmas behind them.
#![tactic(auto)]

mod directories;
mod extents;
mod faults;
mod names;

pub use directories::{entries_are_spelled, entries_read_back, entry_reads_back};
pub use extents::{
    extents_are_said, hole_reads_back, hole_refused, inline_reads_back, log_extents_are_said,
    log_reads_extents, regular_reads_back,
};
pub use faults::{faults_in_logs, items_have_faults, log_items_have_faults};
pub use names::{
    extref_reads_back, extrefs_are_spelled, extrefs_read_back, ref_reads_back, refs_are_spelled,
    refs_read_back,
};
