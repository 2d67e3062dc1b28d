//! The history that a run on a mounted volume leaves: its events, in their order.
//!
//! A `Run` is that list. A `Recorder` is a core round another one: each method does what the inner core does, and puts its
//! event at the end of its run, so that what comes back at the end goes with the events that came
//! (`specs/Recorded.antt`). Before an event that may make a want of a full commit it takes the memory for all events that
//! may come of the wants, since the seals and ends of commits take none.
#![tactic(auto)]

mod recorder;
mod run;
mod shown;

pub use recorder::Recorder;
pub use run::Run;
