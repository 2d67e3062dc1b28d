//! The top call for volumes that the kernel or its tools made: their listing, or their first fault, goes to a sink.
#![tactic(auto)]

mod command;
mod fault_text;
mod status;

pub use command::drive_foreign;
pub use status::ForeignStatus;
