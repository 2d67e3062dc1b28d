//! Laws on what the log steps of a history write: each subvolume's log says what its logged volume is.
//!
//! They join the events of `commit_history` with the flat logs of `logged_volume`. All laws are of definitions alone: the
//! functions here have no parameters and no body.
#![tactic(auto)]

mod logs;

pub use logs::{histories_write_logs, sealed_logs_are_replayed};
