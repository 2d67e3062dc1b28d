//! Laws of answers: once an fsync or a sync has answered, whatever a crash leaves has what it asked for.
//!
//! They join what callers are told with what survives in `commit_history`. All laws are of definitions alone: the functions
//! here have no parameters and no body.
#![tactic(auto)]

mod fsyncs;
mod syncs;

pub use fsyncs::{answered_fsyncs_are_acknowledged, answered_fsyncs_survive};
pub use syncs::answered_syncs_survive;
