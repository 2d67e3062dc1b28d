//! Histories of a mounted volume: the events of commits, the state that they leave, and which of them may come.
//!
//! An event is a step of one caller: an operation, a log step of an fsync, the seal of a log, of the log roots or of the
//! whole volume, the end of its device work, or its failure. The state of a volume is a function of the events since its
//! mount (`specs/State.antt`, `specs/Effects.antt`), and each event has a condition (`specs/Legal.antt`). All laws are of
//! definitions alone: the functions here have no parameters and no body.
#![tactic(auto)]

mod calls;
mod event;
mod numbers;
mod points;
mod survival;

pub use calls::{calls_have_one_answer, calls_make_few_events};
pub use event::{Cover, Event, Logged, OpEnd, Turn};
pub use numbers::log_numbers_rise;
pub use points::{creation_is_a_point, points_of_a_history_agree};
pub use survival::{states_agree, what_a_crash_leaves_survives};
