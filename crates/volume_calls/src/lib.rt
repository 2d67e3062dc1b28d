//! Calls on a mounted volume, each made from its begin to its end, with the disk's work between its turns.
//!
//! `call` makes the turns of one call over any core (`call_steps`), and lets `device_side` finish the full commit that the
//! call runs, if it runs one. Between two calls no commit runs (`specs/Between.antt`). What a call comes to is said by what
//! happened in it: events and calls of the device in one order, which may come (`specs/Calls.antt`). A law says how few
//! blocks are free where a call answers that there is no space.
#![tactic(auto)]

mod laws;
mod turns;

pub use laws::no_space_is_within_the_bound;
pub use turns::call;
