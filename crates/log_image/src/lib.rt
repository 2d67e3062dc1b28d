//! The items of a log tree read as a flat log, and which logs are accepted over a committed subvolume: each as a
//! relation and as a function to the first fault. All laws are of definitions alone: the functions here have no
//! parameters and no body.
#![tactic(auto)]

mod faults;
mod items;
mod planted;

pub use faults::{logs_are_accepted, logs_are_refused};
pub use items::{log_items_are_local, log_items_have_one_log};
pub use planted::{planted_logs_are_refused, refused_logs_would_leave};
