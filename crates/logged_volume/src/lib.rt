//! What an fsync logs, on flat volumes: which inodes and names go into the log with its target, when a full commit is
//! made in place of it, what a log step leaves, and what replay makes of it.
//!
//! F is the current volume, C the committed one, R the logged one: what replay would leave of C now. All laws are of
//! definitions alone: the functions here have no parameters and no body.
#![tactic(auto)]

mod accepted;
mod drawn;
mod logs;
mod steps;
mod weights;
mod worked;

pub use accepted::accepted_logs_leave_names_apart;
pub use drawn::{drawn_set_is_least, intervals_are_maximal, stranded_directory_is_least};
pub use logs::{empty_logs_say_committed, logs_are_replayed, steps_write_logs};
pub use steps::{log_steps_keep_agreement, log_steps_keep_coherence};
pub use weights::steps_bound_logs;
pub use worked::{worked_directories, worked_intervals, worked_reasons};
