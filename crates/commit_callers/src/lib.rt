//! Which callers want a full commit, which caller runs one, and which callers one has covered.
//!
//! A core tells `Callers` each of its events, and asks it who may seal the volume next and whose call was covered. What it
//! keeps goes with the events since the mount (`specs/GoWith.antt`), as long as none of them is of a log.
#![tactic(auto)]

mod callers;
mod covered;
mod wants;

pub use callers::Callers;
