//! The calls on a mounted volume, turn by turn: operations and syncs, over any core.
//!
//! A call is begun with a request, and takes one turn after another, each of which makes at most one event of the volume
//! (`Call::step`). What a turn answers tells whether it moved on, has work for the device, has to wait for another caller,
//! or has finished. The device's work is done outside, and comes back in a later turn. The contracts say it by the rules of
//! `commit_history`: the event of a turn is the one that the rules give the caller's call. What a turn needs of the history
//! before it (`specs/Orderly.antt`) it keeps, and so do the turns of other callers and the calls of the device: these are
//! the crate's laws, functions without parameters and body.
#![tactic(auto)]

mod call;
mod laws;
mod next;

pub use call::Call;
pub use laws::{
    callers_end_their_full_commits, calls_end, calls_of_others_leave_a_call,
    device_calls_are_no_events, mounting_is_orderly,
};
pub use next::Next;
