//! Laws of histories of commits that speak of all callers together: none is stuck, a finished call holds nothing, and what
//! a call answers comes from its own events and from what covers it.
//!
//! They stand on the events and states of `commit_history`. All laws are of definitions alone: the functions here have no
//! parameters and no body.
#![tactic(auto)]

mod answers;
mod waiting;

pub use answers::{answers_come_from_own_events, covered_calls_need_no_commit};
pub use waiting::{finished_calls_hold_nothing, no_state_is_stuck};
